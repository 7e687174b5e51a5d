//! Which changes can be made, and the first of eight reasons why one can't (RFC 9051, section 2.3.1.1; RFC 7162, section 3.1).

ghost use Rattle.std.specs.Prelude.{◌≡◌, ◌==◌};
ghost use Rattle.std.specs.List.{list_any};
ghost use Rattle.imap_model.specs.Lookups.{box_at};
ghost use Rattle.imap_model.specs.Lawful as rules;

use crate::lookups::{has_box, message_place, place_of};
use imap_model::{Change, Mailbox};
use mail_base::{BoxName, Validity};
use uid_sets::Uid;

// The mailboxes of the change are there, and no message goes to where it is.
fn has_boxes(boxes: &[Mailbox], name: &BoxName, change: &Change) -> bool
    ensures { result ≡ rules.has_boxes boxes.now name.now change.now }
{
    match change {
        Change::Shift { to, .. } => has_box(boxes, name) && has_box(boxes, to) && *to != *name,
        Change::Add { .. } | Change::SetFlags { .. } | Change::Drop { .. } | Change::Reset { .. } =>
            has_box(boxes, name),
    }
}

// The UID is one that no message of the mailbox had.
fn is_free(boxes: &[Mailbox], name: &BoxName, uid: Uid) -> bool
    ensures { result ≡ rules.is_free uid (box_at name.now boxes.now) }
{
    match place_of(boxes, name) {
        None => true,
        Some(at) => boxes[at].uidnext <= uid && uid.number() < u32::MAX,
    }
}

// A message that comes has a UID of its own.
fn has_free_uid(boxes: &[Mailbox], name: &BoxName, change: &Change) -> bool
    ensures { result ≡ rules.has_free_uid boxes.now name.now change.now }
{
    match change {
        Change::Add { uid, .. } => is_free(boxes, name, *uid),
        Change::Shift { to, new, .. } => is_free(boxes, to, *new),
        Change::SetFlags { .. } | Change::Drop { .. } | Change::Reset { .. } => true,
    }
}

// The message is there.
fn holds_message(boxes: &[Mailbox], name: &BoxName, uid: Uid) -> bool
    ensures { result ≡ rules.holds_message uid (box_at name.now boxes.now) }
{
    match place_of(boxes, name) {
        None => true,
        Some(at) => message_place(boxes[at].messages.as_slice(), uid).is_some(),
    }
}

// A message that changes or goes is there.
fn has_message(boxes: &[Mailbox], name: &BoxName, change: &Change) -> bool
    ensures { result ≡ rules.has_message boxes.now name.now change.now }
{
    match change {
        Change::Add { .. } | Change::Reset { .. } => true,
        Change::SetFlags { uid, .. } | Change::Drop { uid } | Change::Shift { uid, .. } => {
            holds_message(boxes, name, *uid)
        }
    }
}

// A greater mod-sequence is left.
fn has_next(boxes: &[Mailbox], name: &BoxName) -> bool
    ensures { result ≡ rules.has_next (box_at name.now boxes.now) }
{
    match place_of(boxes, name) {
        None => true,
        Some(at) => boxes[at].highest.number() < (1 << 63) - 1,
    }
}

// Each mailbox of the change has a mod-sequence left, but for one that is renewed.
fn has_room(boxes: &[Mailbox], name: &BoxName, change: &Change) -> bool
    ensures { result ≡ rules.has_room boxes.now name.now change.now }
{
    match change {
        Change::Shift { to, .. } => has_next(boxes, name) && has_next(boxes, to),
        Change::Add { .. } | Change::SetFlags { .. } | Change::Drop { .. } => has_next(boxes, name),
        Change::Reset { .. } => true,
    }
}

// Whether a text holds a NUL.
fn holds_nul(text: &[u8]) -> bool
    ensures { result ≡ list_any (λ byte. byte == 0) text.now }
{
    text.iter().any(|byte| *byte == 0)
}

// A text that comes holds no NUL.
fn is_plain_text(change: &Change) -> bool
    ensures { result ≡ rules.is_plain_text change.now }
{
    match change {
        Change::Add { text, .. } => !holds_nul(text.as_slice()),
        Change::SetFlags { .. }
        | Change::Drop { .. }
        | Change::Shift { .. }
        | Change::Reset { .. } => true,
    }
}

// The UIDVALIDITY is above that of the mailbox.
fn is_above(boxes: &[Mailbox], name: &BoxName, validity: Validity) -> bool
    ensures { result ≡ rules.is_above validity (box_at name.now boxes.now) }
{
    match place_of(boxes, name) {
        None => true,
        Some(at) => boxes[at].validity.number() < validity.number(),
    }
}

// A mailbox is renewed under a greater UIDVALIDITY.
fn rises(boxes: &[Mailbox], name: &BoxName, change: &Change) -> bool
    ensures { result ≡ rules.rises boxes.now name.now change.now }
{
    match change {
        Change::Reset { validity, .. } => is_above(boxes, name, *validity),
        Change::Add { .. } | Change::SetFlags { .. } | Change::Drop { .. } | Change::Shift { .. } =>
            true,
    }
}

// The UIDs rise, and are below this one.
fn rise_below(uids: &[Uid], below: Uid) -> bool
    ensures { result ≡ rules.rise_below 1 below uids.now }
{
    let mut from = 1;
    let mut rest = uids;
    while let Some((uid, later)) = rest.split_first() {
        if u64::from(uid.number()) < from || uid.number() >= below.number() {
            return false;
        }
        from = u64::from(uid.number()) + 1;
        rest = later;
    }
    true
}

// The UIDs are as many as the messages.
fn are_as_many(boxes: &[Mailbox], name: &BoxName, uids: &[Uid]) -> bool
    ensures { result ≡ rules.are_as_many uids.now (box_at name.now boxes.now) }
{
    match place_of(boxes, name) {
        None => true,
        Some(at) => uids.len() == boxes[at].messages.len(),
    }
}

// The new UIDs rise, are below UIDNEXT, and are as many as the messages.
fn has_uids(boxes: &[Mailbox], name: &BoxName, change: &Change) -> bool
    ensures { result ≡ rules.has_uids boxes.now name.now change.now }
{
    match change {
        Change::Reset { uids, uidnext, .. } => {
            rise_below(uids.as_slice(), *uidnext) && are_as_many(boxes, name, uids.as_slice())
        }
        Change::Add { .. } | Change::SetFlags { .. } | Change::Drop { .. } | Change::Shift { .. } =>
            true,
    }
}

/// The number of the first of eight rules that a change in the mailbox of a name breaks: 1, a mailbox is missing, or a message
/// would go to where it is; 2, the UID isn't free; 3, the message is missing; 4, no mod-sequence is left; 5, the text holds
/// a NUL; 7, the new UIDVALIDITY isn't above the old one; 8, the new UIDs don't rise, aren't below UIDNEXT, or aren't as many
/// as the messages. Rule 6, that others alone renew a mailbox, is kept by how changes come about: no command renews one.
pub fn broken_rule(boxes: &[Mailbox], name: &BoxName, change: &Change) -> Option<u8>
    ensures { result ≡ rules.broken_rule boxes.now name.now change.now }
{
    if !has_boxes(boxes, name, change) {
        return Some(1);
    }
    if !has_free_uid(boxes, name, change) {
        return Some(2);
    }
    if !has_message(boxes, name, change) {
        return Some(3);
    }
    if !has_room(boxes, name, change) {
        return Some(4);
    }
    if !is_plain_text(change) {
        return Some(5);
    }
    if !rises(boxes, name, change) {
        return Some(7);
    }
    if !has_uids(boxes, name, change) {
        return Some(8);
    }
    None
}
