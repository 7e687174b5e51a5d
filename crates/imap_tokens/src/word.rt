//! Words, runs and strings at the front of a text (RFC 9051, section 9).

ghost use Rattle.std.specs.Prelude.{◌≡◌, ◌<◌, ◌≤◌, ◌+◌, ◌∷◌, length, take, IfSome, IfNone};
ghost use Rattle.std.specs.List.{prefix_len};
ghost use Rattle.std.specs.Char.{is_ascii_digit};
ghost use Rattle.imap_tokens.specs.Tokens.{is_word_byte, is_space, word_kind, is_escaped, is_forbidden, header_size};
ghost use Rattle.imap_tokens.specs.Scan.{quoted_size};
ghost use Rattle.imap_tokens.specs.Quoted.{BeginsQuoted, NoQuoted};

use crate::TokenKind;

// Whether a word may hold this byte.
pub(crate) fn is_word_byte(byte: u8) -> bool
    ensures { result ≡ is_word_byte byte }
{
    byte > 32 && !matches!(byte, b'(' | b')' | b'[' | b']' | b'"' | b'{' | 127)
}

// How many bytes of a word stand in front.
pub(crate) fn word_len(text: &[u8]) -> usize
    ensures { result ≡ prefix_len is_word_byte text.now }
{
    text.iter()
        .position(|byte| !is_word_byte(*byte))
        .unwrap_or(text.len())
}

// How many spaces stand in front.
pub(crate) fn space_len(text: &[u8]) -> usize
    ensures { result ≡ prefix_len is_space text.now }
{
    text.iter()
        .position(|byte| *byte != b' ')
        .unwrap_or(text.len())
}

// How many digits stand in front.
fn digits_len(text: &[u8]) -> usize
    ensures { result ≡ prefix_len is_ascii_digit text.now }
{
    text.iter()
        .position(|byte| !byte.is_ascii_digit())
        .unwrap_or(text.len())
}

// What a word is.
pub(crate) fn word_kind(word: &[u8]) -> TokenKind
    ensures { result ≡ word_kind word.now }
{
    if word.eq_ignore_ascii_case(b"nil") {
        TokenKind::Nil
    } else if digits_len(word) == word.len() {
        TokenKind::Number
    } else {
        TokenKind::Atom
    }
}

// The bytes of the quoted string whose first `"` stands in front of the text.
pub(crate) fn quoted_size(text: &[u8]) -> Option<usize>
    ensures value { result ≡ quoted_size text.now }
    ensures found { IfSome result (λ size. BeginsQuoted (34 ∷ text.now) size) }
    ensures none { IfNone result (NoQuoted (34 ∷ text.now)) }
    ensures within { IfSome result (λ size. (0 < size) × (size ≤ length text.now + 1)) }
{
    let mut escaped = false;
    for before in 0..text.len() {
        let byte = text[before];
        if escaped {
            if !is_escaped(byte) {
                return None;
            }
            escaped = false;
        } else if byte == b'"' {
            return Some(before + 2);
        } else if is_forbidden(byte) {
            return None;
        } else {
            escaped = byte == b'\\';
        }
    }
    None
}

// Whether the byte may stand behind a backslash.
fn is_escaped(byte: u8) -> bool
    ensures { result ≡ is_escaped byte }
{
    matches!(byte, b'"' | b'\\')
}

// Whether no quoted string holds the byte.
fn is_forbidden(byte: u8) -> bool
    ensures { result ≡ is_forbidden byte }
{
    matches!(byte, 0 | b'\n' | b'\r')
}

// The bytes of the header, with its CRLF, of a literal whose `{` stands in front of the text.
pub(crate) fn header_size(text: &[u8]) -> Option<usize>
    ensures value { result ≡ header_size text.now }
    ensures some { IfSome result (λ size. 0 < size) }
{
    let digits = digits_len(text);
    if digits > 0 && text[digits..].starts_with(b"}\r\n") {
        Some(digits + 4)
    } else {
        None
    }
}
