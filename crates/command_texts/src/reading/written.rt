//! Whether parts are the front of a stand-in's text (RFC 9051, section 4.3).

ghost use Rattle.std.specs.Prelude.{◌≡◌, ◌++◌, ℕ, IfOk, IsTrue, ◌↔◌, MatchOption, decimal};
ghost use Rattle.mail_base.specs.Frames.{header};
ghost use Rattle.imap_model.specs.CommandParts.{crlf};
ghost use Rattle.command_texts.specs.Renumbered.{HasNone, IsDigit, Announcing, IsRenumbered, digit_part};

use crate::reading::same::are_same;
use itoa::Buffer;
use mail_base::Bytes;
use std::alloc::{AllocError, Global};

/// Whether the parts are all parts of the text but its last one, with this number of octets in the header at their end.
pub fn is_written(
    alloc: Global,
    octets: usize,
    parts: &[Bytes],
    text: &[Bytes],
) -> Result<bool, AllocError>
    ensures { IfOk result (λ is. IsTrue is ↔ IsRenumbered octets text.now parts.now) }
{
    let Some((_, front)) = text.split_last() else {
        return Ok(false);
    };
    let Some((part, whole)) = front.split_last() else {
        return Ok(false);
    };
    let Some((last, before)) = parts.split_last() else {
        return Ok(false);
    };
    let written = announcing(alloc, octets, part.as_slice())?;
    if last.as_slice() != written.as_slice() {
        return Ok(false);
    }
    Ok(are_same(before, whole))
}

// The part with so many octets in place of the digit in the header that it ends with, if it has one.
fn announcing(alloc: Global, octets: usize, part: &[u8]) -> Result<Vec<u8>, AllocError>
    ensures { IfOk result (λ written. Announcing octets part.now written.items) }
{
    let Some(begun) = before_header(part) else {
        return part.to_vec(alloc);
    };
    with_header(alloc, octets, begun)
}

// The bytes, and behind them the header of a literal of so many octets, which ends the part.
fn with_header(alloc: Global, octets: usize, begun: &[u8]) -> Result<Vec<u8>, AllocError>
    ensures { IfOk result (λ written. written.items ≡ begun.now ++ (header (decimal octets) ++ crlf)) }
{
    let mut digits = Buffer::new();
    let mut written = begun.to_vec(alloc)?;
    written.push(b'{')?;
    written.extend_from_slice(digits.format(octets).as_bytes())?;
    written.extend_from_slice(b"}\r\n")?;
    Ok(written)
}

// What stands before the header of one digit, 0 or 1, that the part ends with.
fn before_header(part: &[u8]) -> Option<&[u8]>
    ensures { MatchOption result (HasNone part.now) (λ begun. (digit : ℕ) × IsDigit digit × (part.now ≡ digit_part begun.now digit)) }
{
    if let Some(begun) = part.strip_suffix(b"{0}\r\n") {
        return Some(begun);
    }
    part.strip_suffix(b"{1}\r\n")
}
