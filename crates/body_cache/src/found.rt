//! The text of a message, as the reply to its FETCH tells it (RFC 9051, sections 6.4.5 and 7.5.2).

ghost use Rattle.std.specs.Prelude.{◌≡◌};
ghost use Rattle.body_cache.specs.TextFound.{in_fetched, in_item, in_response, text_found, then_found};

use imap_model::{Fetched, Response};
use mail_base::{Bytes, List};
use uid_sets::Uid;

/// What a reply tells of a message's text.
#[derive(Drop)]
pub enum TextFound {
    /// No FETCH of the message was told: it isn't there.
    Gone,
    /// A FETCH of the message was told, and none has a text.
    Lacks,
    /// The text of the last FETCH that has one.
    Text(Bytes),
}

/// What a reply tells of a message's text. It copies none.
pub fn text_of(uid: Uid, told: List<Response>) -> TextFound
    ensures { result ≡ text_found uid told }
{
    let mut found = TextFound::Gone;
    for response in told.into_vec() {
        let next = told_in(uid, response);
        found = then_found(found, next);
    }
    found
}

// What a response tells of the message's text.
fn told_in(uid: Uid, response: Response) -> TextFound
    ensures { result ≡ in_response uid response }
{
    match response {
        Response::Fetch(fetched) => told_by(uid, fetched),
        _ => TextFound::Gone,
    }
}

// What a FETCH tells of it.
fn told_by(uid: Uid, fetched: Fetched) -> TextFound
    ensures { result ≡ in_fetched uid fetched.uid fetched.text }
{
    let Fetched {
        uid: named,
        flags: _flags,
        modseq: _modseq,
        ids: _ids,
        text,
    } = fetched;
    match named {
        Some(other) => {
            if other == uid {
                in_item(text)
            } else {
                TextFound::Gone
            }
        }
        None => TextFound::Gone,
    }
}

// The text that a FETCH of the message has, or that it lacks one.
fn in_item(item: Option<Bytes>) -> TextFound
    ensures { result ≡ in_item item }
{
    match item {
        Some(text) => TextFound::Text(text),
        None => TextFound::Lacks,
    }
}

// What was told, with what is told behind it.
fn then_found(before: TextFound, next: TextFound) -> TextFound
    ensures { result ≡ then_found before next }
{
    match next {
        TextFound::Gone => before,
        TextFound::Lacks => then_lacking(before),
        TextFound::Text(text) => TextFound::Text(text),
    }
}

// A FETCH of the message without a text is told behind it.
fn then_lacking(before: TextFound) -> TextFound
    ensures { result ≡ then_found before TextFound.Lacks }
{
    match before {
        TextFound::Gone | TextFound::Lacks => TextFound::Lacks,
        TextFound::Text(text) => TextFound::Text(text),
    }
}
