//! Who logs in (RFC 9051, section 6.2.3; RFC 4616 for AUTHENTICATE PLAIN).

ghost use Rattle.std.specs.Prelude.{◌≡◌, ◌⊎◌, ◌↔◌, IsTrue, IfOk, IsErrOf, Contains};

use std::alloc::{AllocError, Global};
use std::marker::Model;
use thiserror::Error;

/// Why there is no account.
#[derive(Clone, Copy, Debug, PartialEq, Eq, Drop, Error)]
pub enum AccountFault {
    /// The user or the password holds a NUL, which no command can carry.
    #[error("a user or a password with a NUL")]
    HasNul,
    /// Memory is wanting.
    #[error("out of memory")]
    Memory,
}

/// A user's name and password, neither of which holds a NUL.
#[derive(Drop)]
pub struct Account {
    user: String,
    password: String,
}

impl Model for Account {
    ghost use Rattle.std.specs.Prelude.{string_bytes};
    ghost use Rattle.mail_base.specs.Account.{Credentials, IsPlain};

    ghost Value = { Credentials };

    ghost view = { λ account. record { user = string_bytes account.user; password = string_bytes account.password } };

    ghost invariant = { λ account. IsPlain (string_bytes account.user) (string_bytes account.password) };
}

impl Account {
    ghost use Rattle.mail_base.specs.Account.{Credentials, IsPlain};

    /// The account of a user's name and password.
    ///
    /// Refuses exactly where either holds a NUL.
    pub fn new(alloc: Global, user: &str, password: &str) -> Result<Account, AccountFault>
        ensures value { IfOk result (λ account. account ≡ record { user = user.now; password = password.now }) }
        ensures has_nul { IsErrOf result AccountFault.HasNul ↔ (Contains user.now 0 ⊎ Contains password.now 0) }
    {
        if has_nul(user) || has_nul(password) {
            return Err(AccountFault::HasNul);
        }
        let Ok(user) = String::from_str(alloc, user) else {
            return Err(AccountFault::Memory);
        };
        let Ok(password) = String::from_str(alloc, password) else {
            return Err(AccountFault::Memory);
        };
        Ok(Account { user, password })
    }

    /// The user's name.
    pub fn user(&self) -> &str
        ensures text { result.now ≡ self.now.user }
        ensures plain { IsPlain self.now.user self.now.password }
    {
        &self.user
    }

    /// The password.
    pub fn password(&self) -> &str
        ensures text { result.now ≡ self.now.password }
        ensures plain { IsPlain self.now.user self.now.password }
    {
        &self.password
    }

    /// The same account once more, or want of memory.
    pub fn copy(&self) -> Result<Account, AllocError>
        ensures { IfOk result (λ account. account ≡ self.now) }
    {
        let user = self.user.clone()?;
        let password = self.password.clone()?;
        Ok(Account { user, password })
    }
}

// Whether the text holds a NUL.
fn has_nul(text: &str) -> bool
    ensures { IsTrue result ↔ Contains text.now 0 }
{
    text.as_bytes().contains(&0)
}
