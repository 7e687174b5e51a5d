//! Large values stand in a box from the function on that makes them.

use cases::WordFault;
use std::alloc::Global;

/// Puts what was made into a box.
pub fn boxed<T: Drop>(alloc: Global, made: Result<T, WordFault>) -> Result<Box<T>, WordFault> {
    match made {
        Ok(value) => Ok(Box::new(alloc, value)?),
        Err(fault) => Err(fault),
    }
}
