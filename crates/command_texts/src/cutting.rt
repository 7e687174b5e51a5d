//! Cutting parts off what comes (RFC 9051, sections 2.2.1 and 4.3).

ghost use Rattle.std.specs.Prelude.{◌≡◌, ℕ, ◌≤◌, ◌++◌, List, length, take, IfSome, IfNone};
ghost use Rattle.command_texts.specs.Cutting.{crlf, NoCrlf, IsPart, NoPart};

use crate::octets::octets_due;
use mail_base::Bytes;
use memchr::memmem;

// Behind the first CRLF.
fn line_end(bytes: &[u8]) -> Option<usize>
    ensures within { IfSome result (λ end. end ≤ length bytes.now) }
    ensures line { IfSome result (λ end. (line : List ℕ) × NoCrlf line × (take end bytes.now ≡ line ++ crlf)) }
    ensures none { IfNone result (NoCrlf bytes.now) }
{
    let at = memmem::find(bytes, b"\r\n")?;
    Some(at + 2)
}

/// Behind the first whole part that the bytes begin with, after these parts.
pub fn part_end(parts: &[Bytes], bytes: &[u8]) -> Option<usize>
    ensures within { IfSome result (λ end. end ≤ length bytes.now) }
    ensures part { IfSome result (λ end. IsPart parts.now (take end bytes.now)) }
    ensures none { IfNone result (NoPart parts.now bytes.now) }
{
    let due = octets_due(parts);
    if due >= bytes.len() {
        return None;
    }
    let end = line_end(&bytes[due..])?;
    Some(due + end)
}
