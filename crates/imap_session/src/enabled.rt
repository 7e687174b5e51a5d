//! Whether QRESYNC was enabled (RFC 9051, sections 6.3.1 and 7.2.1; RFC 7162, section 3.2.3).

ghost use Rattle.std.specs.Prelude.{◌≡◌, ◌||◌, false, codes};
ghost use Rattle.imap_session.specs.Enabled.{is_enabled, tells_enabled};

use crate::capabilities::is_named;
use imap_model::{Listen, Response};
use std::alloc::AllocError;

/// Whether one of the ENABLED that were told names QRESYNC.
#[derive(Clone, Copy)]
pub struct Enabled {
    pub qresync: bool,
}

impl Enabled {
    /// Nothing was told yet.
    pub fn new() -> Enabled
        ensures { result.qresync ≡ false }
    {
        Enabled { qresync: false }
    }
}

fn tells_enabled(response: &Response, name: &[u8]) -> bool
    ensures { result ≡ tells_enabled name.now response.now }
{
    match response {
        Response::Enabled(words) => is_named(words, name),
        _ => false,
    }
}

// Whether it was enabled behind a response, where it was before or wasn't.
fn behind(before: bool, response: &Response) -> bool
    ensures { result ≡ before || tells_enabled (codes "QRESYNC") response.now }
{
    before || tells_enabled(response, b"QRESYNC")
}

impl Listen for Enabled {
    ghost Stands = { λ enabled told. enabled.qresync ≡ is_enabled (codes "QRESYNC") told };

    fn take(&mut self, response: Response) -> Result<(), AllocError> {
        self.qresync = behind(self.qresync, &response);
        Ok(())
    }
}
