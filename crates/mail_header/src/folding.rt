//! Folding taken out of a body (RFC 5322, section 2.2.3).

ghost use Rattle.std.specs.Prelude.{◌≡◌, IfOk};
ghost use Rattle.mail_header.specs.Folding.{unfolded};

use crate::header_line::{CRLF, begins_blank, split_crlf};
use std::alloc::{AllocError, Global};

/// The body without its folding: each CRLF before a space or tab is left out, and every other byte stays.
/// It copies the body once.
pub fn unfold(alloc: Global, body: &[u8]) -> Result<Vec<u8>, AllocError>
    ensures { IfOk result (λ text. text.items ≡ unfolded body.now) }
{
    let mut text = Vec::with_capacity(alloc, body.len())?;
    let mut rest = body;
    while let Some((line, behind)) = split_crlf(rest) {
        text.extend_from_slice(line)?;
        if !begins_blank(behind) {
            text.extend_from_slice(CRLF)?;
        }
        rest = behind;
    }
    text.extend_from_slice(rest)?;
    Ok(text)
}
