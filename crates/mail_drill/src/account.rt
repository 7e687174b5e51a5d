//! Who logs in.

use mail_base::{Account, AccountFault};
use std::alloc::{AllocError, Global};

/// The account of a drill.
pub fn account_of(alloc: Global) -> Result<Account, AllocError> {
    match Account::new(alloc, "ann", "pw") {
        Ok(account) => Ok(account),
        Err(AccountFault::Memory) => Err(AllocError),
        // Neither holds a NUL.
        Err(AccountFault::HasNul) => unreachable!(),
    }
}
