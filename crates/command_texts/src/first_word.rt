//! The tag that a text begins with (RFC 9051, sections 2.2.1 and 9).

ghost use Rattle.std.specs.Prelude.{◌≡◌, ◌⊎◌, ◌↔◌, ◌<◌, ◌∷◌, ℕ, List, IsTrue, not, length, IfSome, IfNone};
ghost use Rattle.std.specs.List.{position};
ghost use Rattle.imap_model.specs.Tagged.{is_tag_byte, IsLettered, NamesTag};
ghost use Rattle.command_texts.specs.FirstWord.{IsNumberBefore, IsTagged};

use crate::reading::numbers::number_of;
use itoa::Buffer;
use mail_base::{Bytes, Tag};

// Whether a byte may stand in a tag (RFC 9051, section 9).
fn is_tag_byte(byte: u8) -> bool
    ensures { result ≡ is_tag_byte byte }
{
    byte.is_ascii_graphic() && !b"(){%*\"\\+".contains(&byte)
}

// Whether a byte ends the first word of a text.
fn ends_word(byte: u8) -> bool
    ensures { IsTrue result ↔ ((byte ≡ 32) ⊎ (byte ≡ 13)) }
{
    byte == b' ' || byte == b'\r'
}

// The place of the first byte that can't stand in a tag.
fn tag_end(text: &[u8]) -> Option<usize>
    ensures place { result ≡ position (λ byte. not (is_tag_byte byte)) text.now }
    ensures within { IfSome result (λ end. end < length text.now) }
{
    text.iter().position(|byte| !is_tag_byte(*byte))
}

// The first word of the text, up to a space or to the end of the line, where it is a tag.
fn tag_in(text: &[u8]) -> Option<&[u8]>
    ensures some { IfSome result (λ word. (later : List (List ℕ)) → IsTagged (text.now ∷ later) word.now) }
    ensures none { IfNone result ((word : List ℕ) (later : List (List ℕ)) → IsTagged (text.now ∷ later) word → ⊥) }
{
    let end = tag_end(text)?;
    if end == 0 {
        return None;
    }
    if !ends_word(text[end]) {
        return None;
    }
    Some(&text[..end])
}

/// The tag that a text begins with, of which these are parts: its first word, up to a space or to the end of the line, where
/// that is a tag, of this client or not (RFC 9051, section 9).
pub fn tag_of_text(parts: &[Bytes]) -> Option<&[u8]>
    ensures some { IfSome result (λ word. IsTagged parts.now word.now) }
    ensures none { IfNone result ((word : List ℕ) → IsTagged parts.now word → ⊥) }
{
    match parts.split_first() {
        Some((part, _)) => tag_in(part.as_slice()),
        None => None,
    }
}

// The number that these digits write behind a tag's letter, as this client writes them: it is written again, and compared.
fn number_of_tag(digits: &[u8]) -> Option<u32>
    ensures some { IfSome result (λ number. (letter : ℕ) → IsLettered letter number (letter ∷ digits.now)) }
    ensures none { IfNone result ((letter number : ℕ) → IsLettered letter number (letter ∷ digits.now) → ⊥) }
{
    let number = number_of(digits)?;
    let mut buffer = Buffer::new();
    if number == 0 || buffer.format(number).as_bytes() != digits {
        return None;
    }
    Some(number)
}

// The number that stands before this ending, written so.
fn number_before(text: &[u8], ending: &[u8]) -> Option<u32>
    ensures some { IfSome result (λ number. IsNumberBefore number ending.now text.now) }
    ensures none { IfNone result ((number : ℕ) → IsNumberBefore number ending.now text.now → ⊥) }
{
    let Some(digits) = text.strip_suffix(ending) else {
        return None;
    };
    number_of_tag(digits)
}

// The tag whose letter P has this behind it.
fn action_tag(behind: &[u8]) -> Tag
    ensures { NamesTag (80 ∷ behind.now) result }
{
    if let Some(number) = number_of_tag(behind) {
        return Tag::Play(number);
    }
    if let Some(id) = number_before(behind, b"R2") {
        return Tag::Again { id, turn: 2 };
    }
    match number_before(behind, b"R3") {
        Some(id) => Tag::Again { id, turn: 3 },
        None => Tag::Strange,
    }
}

// The tag whose letter C has this behind it.
fn count_tag(behind: &[u8]) -> Tag
    ensures { NamesTag (67 ∷ behind.now) result }
{
    match number_of_tag(behind) {
        Some(number) => Tag::Count(number),
        None => Tag::Strange,
    }
}

/// The tag that a word names: one of this client's, or a strange one (RFC 9051, section 2.2.1).
pub fn named(word: &[u8]) -> Tag
    ensures { NamesTag word.now result }
{
    let Some((letter, behind)) = word.split_first() else {
        return Tag::Strange;
    };
    match letter {
        b'P' => action_tag(behind),
        b'C' => count_tag(behind),
        _ => Tag::Strange,
    }
}
