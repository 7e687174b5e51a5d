//! Answers to questions about the selected mailbox (RFC 9051, sections 6.4.4 and 6.4.5).

ghost use Rattle.std.specs.Prelude.{◌≡◌, ◌==◌, ◌&&◌, ◌∷◌, [], IfOk, Some, None, nat_le};
ghost use Rattle.std.specs.List.{list_any};
ghost use Rattle.imap_model.specs.PlainServer as plain;
ghost use Rattle.imap_model.specs.Searching as searching;
ghost use Rattle.imap_model.specs.ToldRows as told;
ghost use Rattle.imap_model.specs.declared.response.Response.TheVariants as responses;
ghost use Rattle.imap_model.specs.Lookups.{message_at};
ghost use Rattle.imap_model.specs.UidLists.{set_of};

use crate::headers::{has_in_id, id_fields};
use crate::lookups::message_of;
use crate::rows::row_of;
use crate::sets::set_of;
use imap_model::{Fetched, Message, Response};
use mail_base::{Bytes, List};
use std::alloc::{AllocError, Global};
use uid_sets::{Uid, UidRange, UidSet};

/// The row of a UID, where it is there.
pub fn row_if(alloc: Global, messages: &[Message], uid: Uid) -> Result<List<Response>, AllocError>
    ensures { IfOk result (λ rows. rows ≡ plain.row_if (message_at uid messages.now)) }
{
    let mut rows = List::new(alloc);
    if let Some((_, message)) = message_of(messages, uid) {
        rows.push(row_of(alloc, message)?)?;
    }
    Ok(rows)
}

// A message's UID and its whole text.
fn text_of(message: &Message) -> Result<Response, AllocError>
    ensures { IfOk result (λ response. response ≡ responses.Fetch (told.text_of message.now)) }
{
    let text = message.text.copy()?;
    let mut told = Fetched::none();
    told.uid = Some(message.uid);
    told.text = Some(text);
    Ok(Response::Fetch(told))
}

/// The whole text of a UID's message, where it is there.
pub fn text_if(alloc: Global, messages: &[Message], uid: Uid) -> Result<List<Response>, AllocError>
    ensures { IfOk result (λ rows. rows ≡ plain.text_if (message_at uid messages.now)) }
{
    let mut rows = List::new(alloc);
    if let Some((_, message)) = message_of(messages, uid) {
        rows.push(text_of(message)?)?;
    }
    Ok(rows)
}

// Whether a UID is that of the last message.
fn is_last(messages: &[Message], uid: Uid) -> bool
    ensures { result ≡ searching.is_last uid messages.now }
{
    match messages.last() {
        Some(message) => message.uid == uid,
        None => false,
    }
}

// Whether a UID is in `n:*`.
fn in_tail(from: Uid, messages: &[Message], uid: Uid) -> bool
    ensures { result ≡ searching.in_tail from messages.now uid }
{
    from.number() <= uid.number() || is_last(messages, uid)
}

// Whether a message is found by a search for a Message-ID.
fn is_found(
    alloc: Global,
    from: Uid,
    id: &[u8],
    messages: &[Message],
    message: &Message,
) -> Result<bool, AllocError>
    ensures { IfOk result (λ found. found ≡ plain.is_found from id.now messages.now message.now) }
{
    if !in_tail(from, messages, message.uid) {
        return Ok(false);
    }
    let found = has_in_id(alloc, id, message.text.as_slice())?;
    Ok(found)
}

/// The UIDs that a search for a Message-ID finds.
pub fn found_in(
    alloc: Global,
    from: Uid,
    id: &[u8],
    messages: &[Message],
) -> Result<Vec<Uid>, AllocError>
    ensures { IfOk result (λ uids. uids.items ≡ plain.found_in from id.now messages.now) }
{
    let mut uids = Vec::new(alloc);
    for message in messages {
        if is_found(alloc, from, id, messages, message)? {
            uids.push(message.uid)?;
        }
    }
    Ok(uids)
}

/// The answer to a search.
pub fn found(
    alloc: Global,
    from: Uid,
    id: &Bytes,
    messages: &[Message],
) -> Result<List<Response>, AllocError>
    ensures { IfOk result (λ told. told ≡ responses.Found (set_of (plain.found_in from id.now messages.now)) ∷ []) }
{
    let uids = found_in(alloc, from, id.as_slice(), messages)?;
    let mut told = List::new(alloc);
    told.push(Response::Found(set_of(alloc, &uids)?))?;
    Ok(told)
}

// Whether ranges hold a number.
fn any_holds(ranges: &[UidRange], number: u32) -> bool
    ensures { result ≡ list_any (λ range. nat_le range.low number && nat_le number range.high) ranges.now }
{
    ranges
        .iter()
        .any(|range| range.low <= number && number <= range.high)
}

// Whether a set has a message's UID.
fn is_named(uids: &UidSet, message: &Message) -> bool
    ensures { result ≡ plain.is_named uids.now message.now }
{
    any_holds(uids.ranges(), message.uid.number())
}

// A message's UID and its Message-ID fields.
fn ids_of(alloc: Global, message: &Message) -> Result<Response, AllocError>
    ensures { IfOk result (λ response. response ≡ responses.Fetch (told.ids_of message.now)) }
{
    let text = id_fields(alloc, message.text.as_slice())?;
    let mut ids = Fetched::none();
    ids.uid = Some(message.uid);
    ids.ids = Some(Bytes::of(text));
    Ok(Response::Fetch(ids))
}

/// The Message-ID fields of those messages that a set names.
pub fn ids_in(
    alloc: Global,
    uids: &UidSet,
    messages: &[Message],
) -> Result<List<Response>, AllocError>
    ensures { IfOk result (λ told. told ≡ plain.ids_in uids.now messages.now) }
{
    let mut ids = List::new(alloc);
    for message in messages {
        if is_named(uids, message) {
            ids.push(ids_of(alloc, message)?)?;
        }
    }
    Ok(ids)
}
