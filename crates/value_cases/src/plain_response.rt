//! A plain slow program beside the definition of a response's spelling (RFC 9051, section 9): the
//! response that a short line spells. It tries the places where the line can be cut, and shares
//! nothing with the reader.

mod items;
pub mod parts;
mod search;
mod status;
mod strings;

use cases::WordFault;
use imap_model::{Ending, Response};
use parts::{
    Part, Parts, Spelled, are_spaces, begins, behind_gap, blank_start, cut, ends_in_header,
    is_byte, is_numeral, is_word, maybe, nonzero_of, same_word, set_of, small_of, spaced, words_of,
};
use std::alloc::Global;

/// The response that the parts spell, or `Form` where they spell none.
pub fn spelled(alloc: Global, line: Parts<'_>) -> Spelled<Response> {
    if let Some((first, rest)) = line.split_first() {
        if is_byte(*first, b'+') && (rest.is_empty() || behind_gap(rest).is_some()) {
            drop(status::text_part(alloc, rest)?);
            return Ok(Response::Go);
        }
        if is_byte(*first, b'*')
            && let Some(behind) = behind_gap(rest)
        {
            return untagged(alloc, line, behind);
        }
    }
    completion(alloc, line)
}

/// The word of an ending at the front, and what stands behind it.
fn ending_of(parts: Parts<'_>) -> Option<(Ending, Parts<'_>)> {
    if let Some(rest) = begins(parts, b"OK") {
        return Some((Ending::Ok, rest));
    }
    if let Some(rest) = begins(parts, b"NO") {
        return Some((Ending::No, rest));
    }
    let rest = begins(parts, b"BAD")?;
    Some((Ending::Bad, rest))
}

fn completion(alloc: Global, line: Parts<'_>) -> Spelled<Response> {
    for at in 1..=line.len() {
        let (tag, later) = cut(line, at);
        if let Some((ending, rest)) = behind_gap(later).and_then(ending_of)
            && let Some(tag) = maybe(status::tag_of(alloc, tag))?
            && let Some(code) = maybe(status::text_part(alloc, rest))?
        {
            return Ok(Response::Done { tag, ending, code });
        }
    }
    Err(WordFault::Form)
}

/// The line that begins with `*` and spaces, behind which these parts stand.
fn untagged(alloc: Global, line: Parts<'_>, parts: Parts<'_>) -> Spelled<Response> {
    if let Some((ending, rest)) = ending_of(parts) {
        let code = status::text_part(alloc, rest)?;
        return Ok(Response::Untagged { ending, code });
    }
    if let Some(rest) = begins(parts, b"BYE") {
        drop(status::text_part(alloc, rest)?);
        return Ok(Response::Bye);
    }
    if let Some(rest) = begins(parts, b"PREAUTH") {
        let code = status::text_part(alloc, rest)?;
        return Ok(Response::Preauth { code });
    }
    data(alloc, line, parts)
}

/// The same where the line isn't a status response.
fn data(alloc: Global, line: Parts<'_>, parts: Parts<'_>) -> Spelled<Response> {
    if let Some(rest) = begins(parts, b"CAPABILITY") {
        return Ok(Response::Capability(status::some_words(alloc, rest, true)?));
    }
    if let Some(rest) = begins(parts, b"ENABLED") {
        return Ok(Response::Enabled(words_of(alloc, rest, true)?));
    }
    if let Some(rest) = begins(parts, b"VANISHED") {
        return vanished(alloc, rest);
    }
    if let Some(rest) = begins(parts, b"SEARCH") {
        return Ok(Response::Found(search::found(alloc, rest)?));
    }
    if let Some(rest) = begins(parts, b"ESEARCH") {
        return Ok(Response::Found(search::extended(alloc, rest)?));
    }
    numbered(alloc, line, parts)
}

/// A line with a number in front, or one that is passed over.
fn numbered(alloc: Global, line: Parts<'_>, parts: Parts<'_>) -> Spelled<Response> {
    for at in 1..parts.len() {
        let (digits, later) = cut(parts, at);
        let Some(behind) = behind_gap(later) else {
            continue;
        };
        if !is_numeral(digits) {
            continue;
        }
        if let Some(rest) = begins(behind, b"EXISTS") {
            return exists(digits, rest).ok_or(WordFault::Form);
        }
        if let Some(rest) = begins(behind, b"FETCH") {
            return fetch(alloc, digits, rest);
        }
    }
    if is_other(line, parts) {
        return Ok(Response::Other);
    }
    Err(WordFault::Form)
}

fn exists(digits: Parts<'_>, rest: Parts<'_>) -> Option<Response> {
    if !are_spaces(rest) {
        return None;
    }
    Some(Response::Exists(small_of(digits)?))
}

fn fetch(alloc: Global, digits: Parts<'_>, parts: Parts<'_>) -> Spelled<Response> {
    let list = spaced(parts)?;
    nonzero_of(digits).ok_or(WordFault::Form)?;
    let fetched = items::fetched_of(alloc, cut(list, blank_start(list)).0)?;
    Ok(Response::Fetch(fetched))
}

fn vanished(alloc: Global, parts: Parts<'_>) -> Spelled<Response> {
    let behind = spaced(parts)?;
    let (earlier, set) = match earlier_end(behind) {
        Some(set) => (true, set),
        None => (false, behind),
    };
    let uids = set_of(alloc, cut(set, blank_start(set)).0)?;
    Ok(Response::Vanished { earlier, uids })
}

/// What stands behind `(EARLIER)` and spaces.
fn earlier_end(parts: Parts<'_>) -> Option<Parts<'_>> {
    let (word, later) = cut(parts, 9);
    if same_word(word, b"(EARLIER)") {
        behind_gap(later)
    } else {
        None
    }
}

/// Whether the line is passed over: a word stands at the front of these parts, no forbidden byte
/// stands in it, and it doesn't end with a literal's header.
fn is_other(line: Parts<'_>, parts: Parts<'_>) -> bool {
    // A literal's header is part of a word.
    let begins = match parts.first() {
        Some(Part::Byte(_)) => is_word(cut(parts, 1).0),
        Some(Part::Literal(_)) => true,
        None => false,
    };
    begins && is_quiet(line) && !ends_in_header(line)
}

/// Whether no byte ends a line, or is NUL.
fn is_quiet(line: Parts<'_>) -> bool {
    for part in line {
        if let Part::Byte(0 | b'\n' | b'\r') = part {
            return false;
        }
    }
    true
}
