//! The text of a status response, its code, and tags (RFC 9051, section 9, resp-text and tag).

use super::parts::{
    Class, Parts, Spelled, are_all, begins_with, behind_gap, bytes_of, cut, ends_in_header, from,
    inside, maybe, modseq_of, nonzero_of, same_word, set_of, spaced, uid_of, words_of,
};
use super::strings::{is_wide, quoted_size};
use cases::WordFault;
use flag_set::read_permanent;
use imap_model::Code;
use mail_base::{Tag, Validity, Words, read_u32};
use std::alloc::Global;

/// What the parts stand for as a tag.
pub(crate) fn tag_of(alloc: Global, parts: Parts<'_>) -> Spelled<Tag> {
    let text = bytes_of(alloc, parts)?;
    if text.is_empty() || text.contains(&b'+') || !are_all(parts, Class::Astring) {
        return Err(WordFault::Form);
    }
    if let Some(tag) = tried(&text) {
        return Ok(tag);
    }
    Ok(match (lettered(&text, b'P'), lettered(&text, b'C')) {
        (Some(number), _) => Tag::Play(number),
        (None, Some(number)) => Tag::Count(number),
        (None, None) => Tag::Strange,
    })
}

/// The tag of a second or third try: that of the first one, and `R2` or `R3` behind it.
fn tried(text: &[u8]) -> Option<Tag> {
    let (front, turn) = match text {
        [front @ .., b'R', b'2'] => (front, 2u8),
        [front @ .., b'R', b'3'] => (front, 3u8),
        _ => return None,
    };
    let id = lettered(front, b'P')?;
    Some(Tag::Again { id, turn })
}

/// The number behind the letter, where it is written as this client writes numbers, and isn't 0.
fn lettered(text: &[u8], letter: u8) -> Option<u32> {
    let (first, digits) = text.split_first()?;
    if *first != letter || digits.first() == Some(&b'0') {
        return None;
    }
    read_u32(digits).ok()
}

/// The code of what stands behind the word of a status response, where that is nothing, or spaces
/// and a text.
pub(crate) fn text_part(alloc: Global, parts: Parts<'_>) -> Spelled<Code> {
    if parts.is_empty() {
        return Ok(Code::None);
    }
    let text = spaced(parts)?;
    if !are_all(text, Class::Text) || ends_in_header(text) {
        return Err(WordFault::Form);
    }
    match inner_of(text) {
        None => Ok(Code::None),
        Some(inner) => code_of(alloc, inner),
    }
}

/// What stands between the `[` at the front and the first `]` outside quoted strings.
fn inner_of(text: Parts<'_>) -> Option<Parts<'_>> {
    if !begins_with(text, b'[') {
        return None;
    }
    let later = from(text, 1);
    let mut at = 0usize;
    for _ in 0..later.len() {
        let rest = from(later, at);
        if begins_with(rest, b']') {
            return Some(cut(later, at).0);
        }
        // A quoted string that begins here is passed over.
        at = at.saturating_add(quoted_size(rest).unwrap_or(1));
    }
    None
}

/// How long the name of a code is.
fn name_size(inner: Parts<'_>) -> usize {
    for at in 0..inner.len() {
        if !is_wide(cut(from(inner, at), 1).0) {
            return at;
        }
    }
    inner.len()
}

/// The code between the brackets.
fn code_of(alloc: Global, inner: Parts<'_>) -> Spelled<Code> {
    let (name, rest) = cut(inner, name_size(inner));
    if same_word(name, b"CAPABILITY") {
        return Ok(Code::Capability(some_words(alloc, rest, false)?));
    }
    if same_word(name, b"NOMODSEQ") {
        return bare(Code::NoModSeq, rest);
    }
    if same_word(name, b"UIDNOTSTICKY") {
        return bare(Code::UidNotSticky, rest);
    }
    if same_word(name, b"CLOSED") {
        return bare(Code::Closed, rest);
    }
    told_by(alloc, name, rest)
}

/// The words, of which there is one at least.
pub(crate) fn some_words(alloc: Global, parts: Parts<'_>, blank: bool) -> Spelled<Words> {
    let words = words_of(alloc, parts, blank)?;
    if words.as_slice().is_empty() {
        return Err(WordFault::Form);
    }
    Ok(words)
}

/// A code without an argument.
fn bare(code: Code, rest: Parts<'_>) -> Spelled<Code> {
    if rest.is_empty() {
        return Ok(code);
    }
    drop(code);
    Err(WordFault::Form)
}

/// The code of this name, with an argument behind spaces.
fn told_by(alloc: Global, name: Parts<'_>, rest: Parts<'_>) -> Spelled<Code> {
    if same_word(name, b"UIDNEXT") {
        let uid = uid_of(spaced(rest)?).ok_or(WordFault::Form)?;
        return Ok(Code::UidNext(uid));
    }
    if same_word(name, b"UIDVALIDITY") {
        let validity = validity_of(spaced(rest)?).ok_or(WordFault::Form)?;
        return Ok(Code::UidValidity(validity));
    }
    if same_word(name, b"HIGHESTMODSEQ") {
        let modseq = modseq_of(spaced(rest)?).ok_or(WordFault::Form)?;
        return Ok(Code::HighestModSeq(modseq));
    }
    if same_word(name, b"MODIFIED") {
        return Ok(Code::Modified(set_of(alloc, spaced(rest)?)?));
    }
    if same_word(name, b"PERMANENTFLAGS") {
        return permanent(alloc, spaced(rest)?);
    }
    if same_word(name, b"APPENDUID") {
        return placed(alloc, spaced(rest)?, false);
    }
    if same_word(name, b"COPYUID") {
        return placed(alloc, spaced(rest)?, true);
    }
    Ok(Code::Other)
}

/// A UIDVALIDITY and spaces, and behind them a UID, or the sets of what was copied.
fn placed(alloc: Global, argument: Parts<'_>, copied: bool) -> Spelled<Code> {
    for at in 0..argument.len() {
        let (first, later) = cut(argument, at);
        if let (Some(validity), Some(behind)) = (validity_of(first), behind_gap(later)) {
            if copied {
                return copy_uid(alloc, validity, behind);
            }
            let uid = uid_of(behind).ok_or(WordFault::Form)?;
            return Ok(Code::AppendUid { validity, uid });
        }
    }
    Err(WordFault::Form)
}

fn validity_of(parts: Parts<'_>) -> Option<Validity> {
    Validity::new(nonzero_of(parts)?)
}

fn permanent(alloc: Global, argument: Parts<'_>) -> Spelled<Code> {
    let list = inside(argument).ok_or(WordFault::Form)?;
    let text = bytes_of(alloc, list)?;
    match read_permanent(alloc, &text) {
        Ok((flags, any)) => Ok(Code::PermanentFlags { flags, any }),
        Err(_) => Err(WordFault::Form),
    }
}

/// The two sets of a COPYUID, wherever they can be cut.
fn copy_uid(alloc: Global, validity: Validity, sets: Parts<'_>) -> Spelled<Code> {
    for at in 0..sets.len() {
        let (first, later) = cut(sets, at);
        if let Some(second) = behind_gap(later)
            && let Some(code) = maybe(copied(alloc, validity, first, second))?
        {
            return Ok(code);
        }
    }
    Err(WordFault::Form)
}

fn copied(alloc: Global, validity: Validity, first: Parts<'_>, second: Parts<'_>) -> Spelled<Code> {
    let source = set_of(alloc, first)?;
    let target = set_of(alloc, second)?;
    Ok(Code::CopyUid {
        validity,
        source,
        target,
    })
}
