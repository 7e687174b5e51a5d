//! Parts of a line, words, spaces and numbers (RFC 9051, sections 4.3 and 9).

use cases::WordFault;
use mail_base::{Bytes, ModSeq, Words};
use std::alloc::Global;
use uid_sets::{Uid, UidSet};

/// A byte of a line, or one of its literals with its octets.
#[derive(Clone, Copy)]
pub(crate) enum Part<'a> {
    Byte(u8),
    Literal(&'a [u8]),
}

/// Some of a line's parts.
pub(crate) type Parts<'a> = &'a [Part<'a>];

/// What parts spell, or `Form` where they spell no such thing.
pub(crate) type Spelled<T> = Result<T, WordFault>;

/// What parts spell, where they spell it.
pub(crate) fn maybe<T: Drop>(spelled: Spelled<T>) -> Result<Option<T>, WordFault> {
    match spelled {
        Ok(value) => Ok(Some(value)),
        Err(WordFault::Form) => Ok(None),
        Err(WordFault::Memory) => Err(WordFault::Memory),
    }
}

/// What a byte may stand in.
#[derive(Clone, Copy)]
pub(crate) enum Class {
    Space,
    Digit,
    /// A word, as this client cuts lines.
    Word,
    /// An atom, a number or NIL, as servers write them.
    Wide,
    /// An astring as it is (RFC 9051, section 9, ASTRING-CHAR).
    Astring,
    /// The text of a status response.
    Text,
}

impl Class {
    fn holds(self, byte: u8) -> bool {
        match self {
            Class::Space => byte == b' ',
            Class::Digit => byte.is_ascii_digit(),
            Class::Word => byte > 32 && byte != 127,
            Class::Wide => byte > 32 && !b"()[]\"{\x7f".contains(&byte),
            Class::Astring => byte > 32 && byte < 127 && !b"(){%*\"\\".contains(&byte),
            Class::Text => !matches!(byte, 0 | b'\n' | b'\r'),
        }
    }
}

/// Whether each part is a byte of this class.
pub(crate) fn are_all(parts: Parts<'_>, class: Class) -> bool {
    for part in parts {
        match part {
            Part::Byte(byte) if class.holds(*byte) => {}
            Part::Byte(_) | Part::Literal(_) => return false,
        }
    }
    true
}

/// The byte, where the part is one.
pub(crate) fn byte_of(part: Part<'_>) -> Option<u8> {
    match part {
        Part::Byte(byte) => Some(byte),
        Part::Literal(_) => None,
    }
}

/// Whether the part is this byte.
pub(crate) fn is_byte(part: Part<'_>, wanted: u8) -> bool {
    byte_of(part) == Some(wanted)
}

/// The parts from a place on.
pub(crate) fn from(parts: Parts<'_>, at: usize) -> Parts<'_> {
    cut(parts, at).1
}

/// The parts in front of a place, and those from there on.
pub(crate) fn cut(parts: Parts<'_>, at: usize) -> (Parts<'_>, Parts<'_>) {
    parts.split_at(at.min(parts.len()))
}

/// Whether the parts begin with this byte.
pub(crate) fn begins_with(parts: Parts<'_>, byte: u8) -> bool {
    match parts.first() {
        Some(part) => is_byte(*part, byte),
        None => false,
    }
}

/// The bytes of the parts, where none is a literal.
pub(crate) fn bytes_of(alloc: Global, parts: Parts<'_>) -> Spelled<Vec<u8>> {
    let mut bytes = Vec::new(alloc);
    for part in parts {
        bytes.push(byte_of(*part).ok_or(WordFault::Form)?)?;
    }
    Ok(bytes)
}

/// Whether the parts are this name, in any case.
pub(crate) fn same_word(parts: Parts<'_>, name: &[u8]) -> bool {
    if parts.len() != name.len() {
        return false;
    }
    for (part, byte) in parts.iter().zip(name) {
        match part {
            Part::Byte(own) if own.eq_ignore_ascii_case(byte) => {}
            Part::Byte(_) | Part::Literal(_) => return false,
        }
    }
    true
}

/// Whether the parts are spaces, also none.
pub(crate) fn are_spaces(parts: Parts<'_>) -> bool {
    are_all(parts, Class::Space)
}

/// What stands behind the spaces at the front, where there are some.
pub(crate) fn behind_gap(parts: Parts<'_>) -> Option<Parts<'_>> {
    for size in 1..=parts.len() {
        let (gap, rest) = cut(parts, size);
        if are_spaces(gap) && !begins_with(rest, b' ') {
            return Some(rest);
        }
    }
    None
}

/// What stands behind spaces, which have to be there.
pub(crate) fn spaced(parts: Parts<'_>) -> Spelled<Parts<'_>> {
    behind_gap(parts).ok_or(WordFault::Form)
}

/// Whether no word goes on with these parts.
pub(crate) fn stops(parts: Parts<'_>) -> bool {
    // A literal begins with `{`, which is a byte of a word.
    match parts.first() {
        None => true,
        Some(Part::Byte(byte)) => *byte <= 32 || *byte == 127,
        Some(Part::Literal(_)) => false,
    }
}

/// Whether the parts are one or more bytes of a word.
pub(crate) fn is_word(parts: Parts<'_>) -> bool {
    !parts.is_empty() && are_all(parts, Class::Word)
}

/// What stands behind this word at the front, in any case, where it ends there.
pub(crate) fn begins<'a>(parts: Parts<'a>, name: &[u8]) -> Option<Parts<'a>> {
    let (word, rest) = cut(parts, name.len());
    if same_word(word, name) && stops(rest) {
        Some(rest)
    } else {
        None
    }
}

/// Whether the parts are digits, one at least.
pub(crate) fn is_numeral(parts: Parts<'_>) -> bool {
    !parts.is_empty() && are_all(parts, Class::Digit)
}

/// The number of 64 bits that the digits spell.
fn number_of(parts: Parts<'_>) -> Option<u64> {
    if !is_numeral(parts) {
        return None;
    }
    let mut number = 0u64;
    for part in parts {
        let digit = u64::from(byte_of(*part)?.saturating_sub(b'0'));
        number = number.checked_mul(10)?.checked_add(digit)?;
    }
    Some(number)
}

/// The number of 32 bits that the digits spell.
pub(crate) fn small_of(parts: Parts<'_>) -> Option<u32> {
    u32::try_from(number_of(parts)?).ok()
}

/// The number of 32 bits that the digits spell, where it isn't 0.
pub(crate) fn nonzero_of(parts: Parts<'_>) -> Option<u32> {
    match small_of(parts) {
        Some(0) => None,
        number => number,
    }
}

/// The UID that the digits spell.
pub(crate) fn uid_of(parts: Parts<'_>) -> Option<Uid> {
    Uid::new(nonzero_of(parts)?)
}

/// The mod-sequence that the digits spell.
pub(crate) fn modseq_of(parts: Parts<'_>) -> Option<ModSeq> {
    ModSeq::new(number_of(parts)?)
}

/// Whether the parts end with `{`, digits and `}`.
pub(crate) fn ends_in_header(parts: Parts<'_>) -> bool {
    for at in 0..parts.len() {
        if is_header(from(parts, at)) {
            return true;
        }
    }
    false
}

fn is_header(parts: Parts<'_>) -> bool {
    between(parts, b'{', b'}').is_some_and(is_numeral)
}

/// What stands between these bytes, with which the parts begin and end.
pub(crate) fn between(parts: Parts<'_>, open: u8, close: u8) -> Option<Parts<'_>> {
    let (first, rest) = parts.split_first()?;
    let (last, inside) = rest.split_last()?;
    if is_byte(*first, open) && is_byte(*last, close) {
        Some(inside)
    } else {
        None
    }
}

/// The set that the parts spell.
pub(crate) fn set_of(alloc: Global, parts: Parts<'_>) -> Spelled<UidSet> {
    let text = bytes_of(alloc, parts)?;
    UidSet::read(alloc, &text).ok().ok_or(WordFault::Form)
}

/// What stands between the parentheses that the parts begin and end with.
pub(crate) fn inside(parts: Parts<'_>) -> Option<Parts<'_>> {
    between(parts, b'(', b')')
}

/// Where the spaces at the end begin.
pub(crate) fn blank_start(parts: Parts<'_>) -> usize {
    for at in 0..parts.len() {
        if are_spaces(from(parts, at)) {
            return at;
        }
    }
    parts.len()
}

/// The place of the first part that is this byte.
pub(crate) fn place_of(parts: Parts<'_>, byte: u8) -> Option<usize> {
    for (at, part) in parts.iter().enumerate() {
        if is_byte(*part, byte) {
            return Some(at);
        }
    }
    None
}

/// How many parts stand in front of the first space.
pub(crate) fn space_at(parts: Parts<'_>) -> usize {
    place_of(parts, b' ').unwrap_or(parts.len())
}

/// How long the word at the front is, up to where it ends.
fn word_size(parts: Parts<'_>) -> usize {
    for size in 1..=parts.len() {
        let (word, later) = cut(parts, size);
        if is_word(word) && stops(later) {
            return size;
        }
    }
    0
}

/// The word behind spaces at the front, and how many parts stand behind it.
fn next_word(alloc: Global, parts: Parts<'_>) -> Spelled<(Bytes, usize)> {
    let behind = spaced(parts)?;
    let (word, later) = cut(behind, word_size(behind));
    if word.is_empty() || ends_in_header(word) {
        return Err(WordFault::Form);
    }
    Ok((Bytes::of(bytes_of(alloc, word)?), later.len()))
}

/// The words, spaces before each, where nothing stands behind the last one, or (`blank`) spaces.
pub(crate) fn words_of(alloc: Global, parts: Parts<'_>, blank: bool) -> Spelled<Words> {
    let mut words = Words::new(alloc);
    let mut left = parts.len();
    for _ in 0..=parts.len() {
        let rest = from(parts, parts.len().saturating_sub(left));
        if rest.is_empty() || blank && are_spaces(rest) {
            return Ok(words);
        }
        let (word, behind) = next_word(alloc, rest)?;
        words.push(word)?;
        left = behind;
    }
    Err(WordFault::Form)
}
