//! A text as an argument of a command: an atom, a quoted string or a literal (RFC 9051, section 9, astring).

ghost use Rattle.std.specs.Prelude.{◌≡◌, ◌++◌, ◌↔◌, IsTrue, IfOk, OnOk, Contains, decimal};
ghost use Rattle.std.specs.List.{flat_map, list_all};
ghost use Rattle.imap_model.specs.Tagged.{is_astring_byte};
ghost use Rattle.imap_model.specs.Astring.{is_bare, is_quotable, escaped, quoted, astring_parts};
ghost use Rattle.mail_base.specs.Frames.{header};

use itoa::Buffer;
use std::alloc::{AllocError, Global};

/// A text as an argument: as it is, else in quotes, else as a literal, of which the header comes first. In a command a
/// literal's octets are a part of their own, or begin one.
pub fn astring(alloc: Global, text: &[u8]) -> Result<Vec<u8>, AllocError>
    requires { ¬ (Contains text.now 0) }
    ensures { IfOk result (λ written. written.items ≡ flat_map (λ part. part) (astring_parts text.now)) }
{
    let mut written = Vec::new(alloc);
    if is_bare(text) {
        written.extend_from_slice(text)?;
        return Ok(written);
    }
    if is_quotable(text) {
        push_quoted(&mut written, text)?;
        return Ok(written);
    }
    push_header(&mut written, text.len())?;
    written.extend_from_slice(b"\r\n")?;
    written.extend_from_slice(text)?;
    Ok(written)
}

// Whether an astring may hold the byte outside quotes.
fn is_astring_byte(byte: u8) -> bool
    ensures { result ≡ is_astring_byte byte }
{
    matches!(byte, 33..=126) && !matches!(byte, b'(' | b')' | b'{' | b'%' | b'*' | b'"' | b'\\')
}

/// Whether a text can stand as it is.
pub(crate) fn is_bare(text: &[u8]) -> bool
    ensures { result ≡ is_bare text.now }
{
    if text.is_empty() {
        return false;
    }
    if text.eq_ignore_ascii_case(b"NIL") {
        return false;
    }
    are_astring_bytes(text)
}

// Whether each byte is one of an astring outside quotes.
fn are_astring_bytes(text: &[u8]) -> bool
    ensures { result ≡ list_all is_astring_byte text.now }
{
    text.iter().all(|byte| is_astring_byte(*byte))
}

/// Whether a quoted string can hold a text.
pub(crate) fn is_quotable(text: &[u8]) -> bool
    ensures { result ≡ list_all is_quotable text.now }
{
    text.iter().all(|byte| matches!(*byte, 1..=127) && !matches!(*byte, b'\r' | b'\n'))
}

/// Writes a text in quotes.
pub(crate) fn push_quoted(written: &mut Vec<u8>, text: &[u8]) -> Result<(), AllocError>
    ensures { OnOk result (written.new.items ≡ written.old.items ++ quoted text.now) }
{
    written.push(b'"')?;
    for byte in text {
        push_escaped(written, *byte)?;
    }
    written.push(b'"')?;
    Ok(())
}

// Writes a byte between quotes.
fn push_escaped(written: &mut Vec<u8>, byte: u8) -> Result<(), AllocError>
    ensures { OnOk result (written.new.items ≡ written.old.items ++ escaped byte) }
{
    if byte == b'"' || byte == b'\\' {
        written.push(b'\\')?;
    }
    written.push(byte)?;
    Ok(())
}

/// Writes the header of a literal of so many octets, without its CRLF.
pub(crate) fn push_header(written: &mut Vec<u8>, octets: usize) -> Result<(), AllocError>
    ensures { OnOk result (written.new.items ≡ written.old.items ++ header (decimal octets)) }
{
    let mut digits = Buffer::new();
    written.push(b'{')?;
    written.extend_from_slice(digits.format(octets).as_bytes())?;
    written.push(b'}')?;
    Ok(())
}
