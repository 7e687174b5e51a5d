//! Whether a text has exactly a Message-ID (RFC 5322, section 3.6.4).

ghost use Rattle.std.specs.Prelude.{◌≡◌, IfOk};
ghost use Rattle.append_probe.specs.Marked.{has_id, IsIdentifier};

use mail_header::{IdFault, message_id};
use std::alloc::{AllocError, Global};

/// Whether the text's header has one Message-ID field, and its identifier is this one, byte for byte. `id` has the form
/// of an identifier; of other bytes nothing is said. Fails for want of memory alone.
pub fn has_its_id(alloc: Global, id: &[u8], text: &[u8]) -> Result<bool, AllocError>
    ensures { IsIdentifier id.now → IfOk result (λ answer. answer ≡ has_id id.now text.now) }
{
    match message_id(alloc, text) {
        Ok(found) => Ok(found.as_slice() == id),
        Err(IdFault::Memory) => Err(AllocError),
        Err(IdFault::Missing) => Ok(false),
        Err(IdFault::Twice { .. }) => Ok(false),
        Err(IdFault::TooLong { .. }) => Ok(false),
        Err(IdFault::BadForm { .. }) => Ok(false),
    }
}
