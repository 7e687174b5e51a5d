//! The items of a FETCH (RFC 9051, section 9, msg-att; RFC 7162, section 3.1.4.2).

use super::parts::{
    Parts, Spelled, begins_with, behind_gap, between, bytes_of, cut, from, inside, is_byte,
    is_numeral, maybe, modseq_of, place_of, same_word, spaced, uid_of,
};
use super::strings::{is_astring_named, is_atom, is_section, is_value, string_of};
use cases::WordFault;
use flag_set::FlagSet;
use imap_model::Fetched;
use mail_base::Bytes;
use std::alloc::Global;

/// What the items between the parentheses tell, the last of two of one name.
pub(crate) fn fetched_of(alloc: Global, parts: Parts<'_>) -> Spelled<Fetched> {
    let items = inside(parts).ok_or(WordFault::Form)?;
    let mut fetched = Fetched::none();
    match tell_all(alloc, &mut fetched, items) {
        Ok(()) => Ok(fetched),
        Err(fault) => {
            drop(fetched);
            Err(fault)
        }
    }
}

/// Keeps what the items tell.
fn tell_all(alloc: Global, fetched: &mut Fetched, items: Parts<'_>) -> Spelled<()> {
    let mut at = 0usize;
    for _ in 0..items.len() {
        let rest = from(items, at);
        let (item, later) = cut(rest, first_end(alloc, rest)?);
        tell(alloc, fetched, item)?;
        if later.is_empty() {
            return Ok(());
        }
        at = items.len().saturating_sub(spaced(later)?.len());
    }
    Err(WordFault::Form)
}

/// How long the item at the front is: it ends at a space, or where the items end.
fn first_end(alloc: Global, parts: Parts<'_>) -> Spelled<usize> {
    for size in 1..=parts.len() {
        let (item, later) = cut(parts, size);
        if (later.is_empty() || begins_with(later, b' ')) && is_item(alloc, item)? {
            return Ok(size);
        }
    }
    Err(WordFault::Form)
}

/// Whether the parts are an item.
fn is_item(alloc: Global, item: Parts<'_>) -> Result<bool, WordFault> {
    let mut fetched = Fetched::none();
    let is = tell(alloc, &mut fetched, item);
    drop(fetched);
    is
}

/// Whether the parts are an item; what it tells is kept.
fn tell(alloc: Global, fetched: &mut Fetched, item: Parts<'_>) -> Result<bool, WordFault> {
    for at in 0..item.len() {
        let (name, later) = cut(item, at);
        if let Some(value) = behind_gap(later)
            && tells(alloc, fetched, name, value)?
        {
            return Ok(true);
        }
    }
    Ok(false)
}

/// Whether an item has this name and this value; what it tells is kept.
fn tells(
    alloc: Global,
    fetched: &mut Fetched,
    name: Parts<'_>,
    value: Parts<'_>,
) -> Result<bool, WordFault> {
    if same_word(name, b"UID") {
        let uid = uid_of(value);
        fetched.uid = uid.or(fetched.uid);
        return Ok(uid.is_some());
    }
    if same_word(name, b"MODSEQ") {
        let modseq = inside(value).and_then(modseq_of);
        fetched.modseq = modseq.or(fetched.modseq);
        return Ok(modseq.is_some());
    }
    if same_word(name, b"FLAGS") {
        return Ok(keeps(maybe(flags_of(alloc, value))?, &mut fetched.flags));
    }
    if is_ids_name(name) {
        return Ok(keeps(maybe(nstring_of(alloc, value))?, &mut fetched.ids));
    }
    if is_text_name(name) {
        return Ok(keeps(maybe(nstring_of(alloc, value))?, &mut fetched.text));
    }
    Ok((is_atom(name) || is_section_name(name)) && is_value(value))
}

/// Keeps what is told, and says whether something is.
fn keeps<T: Drop>(told: Option<T>, kept: &mut Option<T>) -> bool {
    let is = told.is_some();
    if is {
        *kept = told;
    }
    is
}

/// The flags in parentheses.
fn flags_of(alloc: Global, value: Parts<'_>) -> Spelled<FlagSet> {
    let list = inside(value).ok_or(WordFault::Form)?;
    let text = bytes_of(alloc, list)?;
    FlagSet::read_list(alloc, &text).ok().ok_or(WordFault::Form)
}

/// The bytes of a string, and of NIL none.
fn nstring_of(alloc: Global, value: Parts<'_>) -> Spelled<Bytes> {
    if same_word(value, b"NIL") {
        return Ok(Bytes::new(alloc));
    }
    string_of(alloc, value)
}

/// What stands in front of the first `[`, between it and the last `]`, and behind that.
fn section_of<'a>(parts: Parts<'a>) -> Option<(Parts<'a>, Parts<'a>, Parts<'a>)> {
    let open = place_of(parts, b'[')?;
    let close = last_close(parts)?;
    if close < open {
        return None;
    }
    let (front, origin) = cut(parts, close);
    let (name, inside) = cut(front, open);
    Some((name, from(inside, 1), from(origin, 1)))
}

fn last_close(parts: Parts<'_>) -> Option<usize> {
    let mut last = None;
    for (at, part) in parts.iter().enumerate() {
        if is_byte(*part, b']') {
            last = Some(at);
        }
    }
    last
}

/// Whether the name is that of the whole text's item.
fn is_text_name(parts: Parts<'_>) -> bool {
    match section_of(parts) {
        Some((name, inside, origin)) => {
            same_word(name, b"BODY") && inside.is_empty() && origin.is_empty()
        }
        None => false,
    }
}

/// Whether the name is that of the identifiers' item.
fn is_ids_name(parts: Parts<'_>) -> bool {
    match section_of(parts) {
        Some((name, inside, origin)) => {
            same_word(name, b"BODY") && origin.is_empty() && is_id_section(inside)
        }
        None => false,
    }
}

/// HEADER.FIELDS, spaces, and the field's name in parentheses.
fn is_id_section(parts: Parts<'_>) -> bool {
    let (name, later) = cut(parts, 13);
    match behind_gap(later).and_then(inside) {
        Some(field) => same_word(name, b"HEADER.FIELDS") && is_astring_named(field, b"Message-ID"),
        None => false,
    }
}

/// A name with a section behind it, and an origin or none.
fn is_section_name(parts: Parts<'_>) -> bool {
    match section_of(parts) {
        Some((name, inside, origin)) => is_atom(name) && is_section(inside) && is_origin(origin),
        None => false,
    }
}

/// `<`, digits and `>`, or nothing.
fn is_origin(parts: Parts<'_>) -> bool {
    parts.is_empty() || between(parts, b'<', b'>').is_some_and(is_numeral)
}
