//! What the server is asked about an append whose reply was lost (RFC 9051, section 6.4.4; RFC 2047, section 2).

ghost use Rattle.std.specs.Prelude.{◌≡◌, IfOk};
ghost use Rattle.std.specs.Option.{option_map};
ghost use Rattle.append_probe.specs.Question as spec;

use action_queue::{Action, Intent};
use imap_model::Command;
use mail_base::Bytes;
use std::alloc::{AllocError, Global};
use uid_sets::Uid;

/// The search for the message of an append whose intent was recorded: see `question_for`.
/// Fails for want of memory alone.
pub fn question(alloc: Global, intent: &Intent, action: &Action) -> Result<Command, AllocError>
    requires put { spec.IsPut intent.now }
    requires append { spec.IsAppend action.now }
    ensures { IfOk result (λ command. command ≡ spec.question_of (spec.put_uidnext intent.now) (spec.append_id action.now)) }
{
    let Intent::Put { uidnext, .. } = intent else {
        unreachable!()
    };
    let Action::Append { id, .. } = action else {
        unreachable!()
    };
    question_for(alloc, *uidnext, id)
}

/// The search, among the UIDs of at least `uidnext`, for the message with this Message-ID.
///
/// A server that decodes encoded words in the field (RFC 2047, section 2) finds no text that has one. So where the
/// identifier has one, the search is for the longer one of what stands in front of such words and behind them. It then
/// finds other messages too, and `verdict_of` tells them apart. Fails for want of memory alone.
pub fn question_for(alloc: Global, uidnext: Uid, id: &Bytes) -> Result<Command, AllocError>
    ensures { IfOk result (λ command. command ≡ spec.question_of uidnext id.now) }
{
    let part = Vec::from_slice(alloc, question_part(id.as_slice()))?;
    Ok(Command::Search {
        from: uidnext,
        id: Bytes::of(part),
    })
}

// The part of the identifier that is searched for.
fn question_part(id: &[u8]) -> &[u8]
    ensures { result.now ≡ spec.question_part id.now }
{
    let front = before(b"=?", id);
    let back = behind_words(id);
    if front.len() < back.len() {
        back
    } else {
        front
    }
}

// The bytes in front of the first place at which the mark stands.
fn before<'a>(mark: &[u8], bytes: &'a [u8]) -> &'a [u8]
    ensures { result.now ≡ spec.before mark.now bytes.now }
{
    for at in 0..bytes.len() {
        if bytes[at..].starts_with(mark) {
            return &bytes[..at];
        }
    }
    bytes
}

// The bytes behind all encoded words.
fn behind_words(id: &[u8]) -> &[u8]
    ensures { result.now ≡ spec.behind_words id.now }
{
    let Some(rest) = behind(b"=?", id) else {
        return &[];
    };
    match behind(b"?=", rest) {
        Some(rest) => rest,
        None => &[],
    }
}

// The bytes behind the last place at which the mark stands.
fn behind<'a>(mark: &[u8], bytes: &'a [u8]) -> Option<&'a [u8]>
    ensures { option_map (λ rest. rest.now) result ≡ spec.behind mark.now bytes.now }
{
    let mut found = None;
    let mut rest = bytes;
    while let Some((_, next)) = rest.split_first() {
        if let Some(stripped) = rest.strip_prefix(mark) {
            found = Some(stripped);
        }
        rest = next;
    }
    found
}
