//! Texts with bare LFs, made into lines that end with CRLF (RFC 5322, section 2.3).

ghost use Rattle.std.specs.Prelude.{◌≡◌, IfOk};
ghost use Rattle.mail_header.specs.BareLf as spec;

use crate::header_line::CRLF;
use memchr::{memchr, memchr_iter};
use std::alloc::{AllocError, Global};

// A line's end where its CR stands already.
const LF: &[u8] = b"\n";

// What is to come behind a line that an LF ended: the LF, and a CR before it where the line has none.
fn missing_end(line: &[u8]) -> &'static [u8]
    ensures { result.now ≡ spec.end_behind (spec.last_after 0 line.now) }
{
    if !line.is_empty() && line[line.len() - 1] == b'\r' {
        LF
    } else {
        CRLF
    }
}

/// The text with a CR before each LF that has none before it. Every other byte stays, and so does a CR without an LF.
/// It asks once for memory, of at most a byte more for each LF, and copies the text once.
pub fn crlf_of(alloc: Global, input: &[u8]) -> Result<Vec<u8>, AllocError>
    ensures { IfOk result (λ text. text.items ≡ spec.crlf_of input.now) }
{
    let most = input
        .len()
        .saturating_add(memchr_iter(b'\n', input).count());
    let mut text = Vec::with_capacity(alloc, most)?;
    let mut rest = input;
    while let Some(at) = memchr(b'\n', rest) {
        let line = &rest[..at];
        text.extend_from_slice(line)?;
        text.extend_from_slice(missing_end(line))?;
        rest = &rest[at + 1..];
    }
    text.extend_from_slice(rest)?;
    Ok(text)
}
