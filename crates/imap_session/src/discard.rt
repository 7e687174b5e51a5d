//! A listener that keeps nothing.

use imap_model::{Listen, Response};
use std::alloc::AllocError;

/// Lets each response go as it comes.
#[derive(Drop)]
pub struct Discard;

impl Listen for Discard {
    ghost Stands = { λ discard told. Unit {0} };

    fn take(&mut self, response: Response) -> Result<(), AllocError> {
        let _gone = response;
        Ok(())
    }
}
