//! The lines of a text, and those of its header with the lines that go on with them (RFC 5322, sections 2.2 and 2.2.3).

ghost use Rattle.std.specs.Prelude.{◌≡◌, ◌∷◌, [], length, IsTrue, IsNone, IfNone, IfSome, ◌↔◌};
ghost use Rattle.mail_header.specs.Header.{lines_of};
ghost use Rattle.mail_header.specs.Folding as spec;
ghost use Rattle.mail_header.specs.Parting.{IsParted, IsFirstLine, IsFirstWhole};

use memchr::memmem;

/// What ends a line.
pub(crate) const CRLF: &[u8] = b"\r\n";

/// Whether the text begins with a space or a tab.
pub(crate) fn begins_blank(text: &[u8]) -> bool
    ensures { result ≡ spec.begins_blank text.now }
{
    match text.first() {
        Some(byte) => *byte == b' ' || *byte == b'\t',
        None => false,
    }
}

/// What stands before a text's first CRLF, and what stands behind it.
pub(crate) fn split_crlf(text: &[u8]) -> Option<(&[u8], &[u8])>
    ensures none { IfNone result (lines_of text.now ≡ text.now ∷ []) }
    ensures some { IfSome result (λ parts. IsParted text.now parts.0.now parts.1.now) }
{
    let at = memmem::find(text, CRLF)?;
    Some((&text[..at], &text[at + 2..]))
}

// A text's first line, and what stands behind its CRLF.
fn first_line(text: &[u8]) -> (&[u8], &[u8])
    ensures { IsFirstLine text.now result.0.now result.1.now }
{
    split_crlf(text).unwrap_or((text, &[]))
}

/// The first line of a header with the lines that go on with it, and what stands behind its CRLF.
/// There is none where the header ends. It reads to the end of that line and no further.
pub(crate) fn split_line(text: &[u8]) -> Option<(&[u8], &[u8])>
    ensures none { IfNone result (spec.whole_header text.now ≡ []) }
    ensures some { IfSome result (λ parts. IsFirstWhole text.now parts.0.now parts.1.now) }
{
    if text.is_empty() || text.starts_with(CRLF) {
        return None;
    }
    let (line, mut rest) = first_line(text);
    let mut end = line.len();
    while begins_blank(rest) {
        let (line, behind) = first_line(rest);
        end += 2 + line.len();
        rest = behind;
    }
    Some((&text[..end], rest))
}
