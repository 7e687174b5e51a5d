//! The octets that are due behind a part of a command's text (RFC 9051, section 4.3).

ghost use Rattle.std.specs.Prelude.{◌≡◌, ◌++◌, [], ◌∷◌, List, ℕ, IfSome, IfNone};
ghost use Rattle.command_texts.specs.Cutting.{crlf};
ghost use Rattle.command_texts.specs.DueOctets.{TellsDue};

use mail_base::{Bytes, literal_at_end};

// A part without the CRLF at its end.
fn line_of<'a>(part: &'a [u8]) -> Option<&'a [u8]>
    ensures cut { IfSome result (λ line. part.now ≡ line.now ++ crlf) }
    ensures none { IfNone result ((front : List ℕ) → part.now ≡ front ++ crlf → ⊥) }
{
    let (lf, rest) = part.split_last()?;
    if *lf != b'\n' {
        return None;
    }
    let (cr, line) = rest.split_last()?;
    if *cr != b'\r' {
        return None;
    }
    Some(line)
}

// How many octets are due behind one part.
fn due_behind(part: &[u8]) -> usize
    ensures { TellsDue (part.now ∷ []) result }
{
    let Some(line) = line_of(part) else {
        return 0;
    };
    match literal_at_end(line) {
        Some(header) => header.octets as usize,
        None => 0,
    }
}

/// How many octets are due behind these parts, or 2^64 - 1 for more: no bytes in memory are as many.
pub(crate) fn octets_due(parts: &[Bytes]) -> usize
    ensures { TellsDue parts.now result }
{
    match parts.split_last() {
        Some((part, _)) => due_behind(part.as_slice()),
        None => 0,
    }
}
