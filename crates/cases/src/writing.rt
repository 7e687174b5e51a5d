//! How words and bytes are written (docs/CASES.md, "Words").

ghost use Rattle.std.specs.Prelude.{◌≡◌, ◌<◌, ◌++◌, ◌==◌, IfOk, OnOk, codes, slice_index};
ghost use Rattle.std.specs.List.{flat_map, list_all};
ghost use Rattle.std.specs.String.{string_bytes};
ghost use Rattle.cases.specs.Reading.{IsText};
ghost use Rattle.cases.specs.Written.{counted, hex_byte, hex_text, is_bare, is_bare_word};
ghost use Rattle.cases.specs.Written.{is_long_run, is_parting, quoted, quoted_byte, written};

use itoa::Buffer;
use std::alloc::{AllocError, Global};

const DIGITS: [u8; 16] = *b"0123456789abcdef";

/// Whether a bare word may have this byte.
pub fn is_bare(byte: u8) -> bool
    ensures { result ≡ is_bare byte }
{
    33 <= byte && byte <= 126 && byte != b'"'
}

/// Adds a word: bare where it can be, else in quotes, and by its count where its bytes are many and
/// the same.
pub fn put_word(text: &mut Vec<u8>, word: &[u8]) -> Result<(), AllocError>
    ensures { OnOk result (text.new.items ≡ text.old.items ++ written word.now) }
{
    if is_long_run(word) {
        return put_counted(text, word);
    }
    if is_bare_word(word) {
        return text.extend_from_slice(word);
    }
    put_quoted(text, word)
}

// Whether these are many bytes that are all the same.
fn is_long_run(word: &[u8]) -> bool
    ensures { result ≡ is_long_run word.now }
{
    match word.split_first() {
        Some((first, rest)) => rest.len() >= 99 && are_all(rest, *first),
        None => false,
    }
}

fn are_all(bytes: &[u8], wanted: u8) -> bool
    ensures { result ≡ list_all (λ byte. byte == wanted) bytes.now }
{
    bytes.iter().all(|byte| *byte == wanted)
}

// Adds the first byte in quotes, and how many bytes there are.
fn put_counted(text: &mut Vec<u8>, word: &[u8]) -> Result<(), AllocError>
    ensures { OnOk result (text.new.items ≡ text.old.items ++ counted word.now) }
{
    let Some(first) = word.first() else {
        return put_quoted(text, &[]);
    };
    put_quoted(text, &[*first])?;
    text.extend_from_slice(b"*")?;
    let mut buffer = Buffer::new();
    text.extend_from_slice(buffer.format(word.len()).as_bytes())
}

// Whether a word needs no quotes.
fn is_bare_word(word: &[u8]) -> bool
    ensures { result ≡ is_bare_word word.now }
{
    !word.is_empty() && are_bare(word) && !is_parting(word)
}

fn are_bare(word: &[u8]) -> bool
    ensures { result ≡ list_all is_bare word.now }
{
    word.iter().all(|byte| is_bare(*byte))
}

// Whether a word parts others: `;` or `=`.
fn is_parting(word: &[u8]) -> bool
    ensures { result ≡ is_parting word.now }
{
    match word {
        [byte] => *byte == b';' || *byte == b'=',
        _ => false,
    }
}

// Adds a word in quotes.
fn put_quoted(text: &mut Vec<u8>, word: &[u8]) -> Result<(), AllocError>
    ensures { OnOk result (text.new.items ≡ text.old.items ++ quoted word.now) }
{
    text.extend_from_slice(b"\"")?;
    put_each(text, word)?;
    text.extend_from_slice(b"\"")
}

// Adds what stands between the quotes.
fn put_each(text: &mut Vec<u8>, word: &[u8]) -> Result<(), AllocError>
    ensures { OnOk result (text.new.items ≡ text.old.items ++ flat_map quoted_byte word.now) }
{
    for byte in word {
        put_byte(text, *byte)?;
    }
    Ok(())
}

// Adds a byte as it stands between quotes.
fn put_byte(text: &mut Vec<u8>, byte: u8) -> Result<(), AllocError>
    ensures { OnOk result (text.new.items ≡ text.old.items ++ quoted_byte byte) }
{
    match byte {
        b'"' => text.extend_from_slice(b"\\\""),
        b'\\' => text.extend_from_slice(b"\\\\"),
        b'\r' => text.extend_from_slice(b"\\r"),
        b'\n' => text.extend_from_slice(b"\\n"),
        32..=126 => text.extend_from_slice(&[byte]),
        _ => {
            text.extend_from_slice(b"\\x")?;
            put_digits(text, byte)
        }
    }
}

// Adds a byte's two digits.
fn put_digits(text: &mut Vec<u8>, byte: u8) -> Result<(), AllocError>
    ensures { OnOk result (text.new.items ≡ text.old.items ++ hex_byte byte) }
{
    text.extend_from_slice(&[digit(byte / 16), digit(byte % 16)])
}

// The digit of half a byte.
fn digit(half: u8) -> u8
    requires { half < 16 }
    ensures { result ≡ slice_index (codes "0123456789abcdef") half }
{
    DIGITS[usize::from(half)]
}

/// Adds bytes in hexadecimal, or `-` where there are none.
pub fn put_hex(text: &mut Vec<u8>, bytes: &[u8]) -> Result<(), AllocError>
    ensures { OnOk result (text.new.items ≡ text.old.items ++ hex_text bytes.now) }
{
    if bytes.is_empty() {
        return text.extend_from_slice(b"-");
    }
    put_all_digits(text, bytes)
}

// Adds each byte's two digits.
fn put_all_digits(text: &mut Vec<u8>, bytes: &[u8]) -> Result<(), AllocError>
    ensures { OnOk result (text.new.items ≡ text.old.items ++ flat_map hex_byte bytes.now) }
{
    for byte in bytes {
        put_digits(text, *byte)?;
    }
    Ok(())
}

/// The bytes as a word, for a line that is printed.
pub fn written(alloc: Global, bytes: &[u8]) -> Result<String, AllocError>
    ensures { IsText bytes.now → IfOk result (λ text. string_bytes text ≡ written bytes.now) }
{
    let mut text = Vec::new(alloc);
    put_word(&mut text, bytes)?;
    Ok(String::from_utf8(text).unwrap_or(String::new(alloc)))
}
