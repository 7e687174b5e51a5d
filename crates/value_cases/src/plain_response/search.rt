//! What a search found (RFC 9051, section 9, esearch-response; RFC 3501, section 7.2.5; RFC 7162,
//! section 3.1.5).

use super::parts::{
    Parts, Spelled, are_spaces, begins_with, behind_gap, blank_start, cut, from, inside, maybe,
    modseq_of, same_word, set_of, space_at, spaced, uid_of,
};
use super::strings::{is_astring, is_atom, is_value};
use cases::WordFault;
use std::alloc::Global;
use uid_sets::UidSet;

/// The set of the numbers behind the word SEARCH, with a mod-sequence at the end or without.
pub(crate) fn found(alloc: Global, parts: Parts<'_>) -> Spelled<UidSet> {
    let mut uids = UidSet::none(alloc);
    let mut at = 0usize;
    for _ in 0..=parts.len() {
        let rest = from(parts, at);
        if are_spaces(rest) {
            return Ok(uids);
        }
        let behind = spaced(rest)?;
        let (number, later) = cut(behind, space_at(behind));
        match uid_of(number) {
            Some(uid) => uids.add(uid)?,
            None if ends_search(behind) => return Ok(uids),
            None => break,
        }
        at = parts.len().saturating_sub(later.len());
    }
    Err(WordFault::Form)
}

/// `(`, MODSEQ, spaces, a mod-sequence and `)`, and then spaces or nothing.
fn ends_search(parts: Parts<'_>) -> bool {
    let Some(told) = inside(cut(parts, blank_start(parts)).0) else {
        return false;
    };
    let (name, later) = cut(told, 6);
    same_word(name, b"MODSEQ") && behind_gap(later).and_then(modseq_of).is_some()
}

/// The set of the last pair ALL behind the word ESEARCH.
pub(crate) fn extended(alloc: Global, parts: Parts<'_>) -> Spelled<UidSet> {
    let told = cut(parts, blank_start(parts)).0;
    // The tag, the word UID and the pairs, wherever they can be cut.
    for tag in 0..=told.len() {
        let (correlator, later) = cut(told, tag);
        if correlator.is_empty() || is_correlator(correlator) {
            for word in 0..=later.len() {
                let (counts, rest) = cut(later, word);
                if (counts.is_empty() || is_uid_word(counts))
                    && let Some(uids) = maybe(pairs(alloc, rest, counts.is_empty()))?
                {
                    return Ok(uids);
                }
            }
        }
    }
    Err(WordFault::Form)
}

/// Spaces and the tag between parentheses.
fn is_correlator(parts: Parts<'_>) -> bool {
    let Some(told) = behind_gap(parts).and_then(inside) else {
        return false;
    };
    let (name, later) = cut(told, 3);
    same_word(name, b"TAG") && behind_gap(later).is_some_and(is_astring)
}

fn is_uid_word(parts: Parts<'_>) -> bool {
    match behind_gap(parts) {
        Some(word) => same_word(word, b"UID"),
        None => false,
    }
}

/// The set of the last pair ALL. Where the word UID is left out, no pair of that name comes first.
fn pairs(alloc: Global, parts: Parts<'_>, bare: bool) -> Spelled<UidSet> {
    let mut uids = UidSet::none(alloc);
    let mut at = 0usize;
    for _ in 0..=parts.len() {
        let rest = from(parts, at);
        if rest.is_empty() {
            return Ok(uids);
        }
        let (name, value, later) = pair(rest).ok_or(WordFault::Form)?;
        if same_word(name, b"ALL") {
            uids = set_of(alloc, value)?;
        } else if !is_atom(name) || !is_value(value) || bare && at == 0 && same_word(name, b"UID") {
            break;
        }
        at = parts.len().saturating_sub(later.len());
    }
    Err(WordFault::Form)
}

/// The name and the value of the pair at the front, spaces before each, and what stands behind it.
fn pair<'a>(parts: Parts<'a>) -> Option<(Parts<'a>, Parts<'a>, Parts<'a>)> {
    let behind = behind_gap(parts)?;
    let (name, later) = cut(behind, space_at(behind));
    let valued = behind_gap(later)?;
    let (value, rest) = cut(valued, value_end(valued));
    Some((name, value, rest))
}

/// Where the value at the front ends: at a space, or where the parts end.
fn value_end(parts: Parts<'_>) -> usize {
    for size in 1..parts.len() {
        let (value, later) = cut(parts, size);
        if begins_with(later, b' ') && is_value(value) {
            return size;
        }
    }
    parts.len()
}
