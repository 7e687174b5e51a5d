//! What a server has under a name, and a mailbox under a UID (RFC 9051, sections 2.3.1.1 and 5.1).

ghost use Rattle.std.specs.Prelude.{◌≡◌, ◌==◌, None, IfSome, IfNone, is_some, position};
ghost use Rattle.std.specs.Str.{bytes_eq};
ghost use Rattle.imap_model.specs.Lookups.{box_at, message_at};
ghost use Rattle.server_mem.specs.Places.{IsPlaceOf, IsPlaceOfMessage, IsBoxOf, IsMessageOf};

use imap_model::{Mailbox, Message};
use mail_base::BoxName;
use uid_sets::Uid;

// The first place at which the name stands.
fn name_place(boxes: &[Mailbox], name: &BoxName) -> Option<usize>
    ensures { result ≡ position (λ mailbox. bytes_eq mailbox.name name.now) boxes.now }
{
    boxes.iter().position(|mailbox| mailbox.name == *name)
}

/// The place of the mailbox of a name, counted from 0.
pub fn place_of(boxes: &[Mailbox], name: &BoxName) -> Option<usize>
    ensures none { IfNone result (box_at name.now boxes.now ≡ None) }
    ensures some { IfSome result (IsPlaceOf name.now boxes.now) }
{
    name_place(boxes, name)
}

// The first place at which the UID stands.
fn uid_place(messages: &[Message], uid: Uid) -> Option<usize>
    ensures { result ≡ position (λ message. message.uid == uid) messages.now }
{
    messages.iter().position(|message| message.uid == uid)
}

/// The place of the message of a UID, counted from 0.
pub fn message_place(messages: &[Message], uid: Uid) -> Option<usize>
    ensures none { IfNone result (message_at uid messages.now ≡ None) }
    ensures some { IfSome result (IsPlaceOfMessage uid messages.now) }
{
    uid_place(messages, uid)
}

/// The mailbox of a name, and its place, counted from 0.
pub fn box_of<'a>(boxes: &'a [Mailbox], name: &BoxName) -> Option<(usize, &'a Mailbox)>
    ensures none { IfNone result (box_at name.now boxes.now ≡ None) }
    ensures some { IfSome result (λ found. IsBoxOf name.now boxes.now found.0 found.1.now) }
{
    let at = place_of(boxes, name)?;
    Some((at, &boxes[at]))
}

/// The message of a UID, and its place, counted from 0.
pub fn message_of<'a>(messages: &'a [Message], uid: Uid) -> Option<(usize, &'a Message)>
    ensures none { IfNone result (message_at uid messages.now ≡ None) }
    ensures some { IfSome result (λ found. IsMessageOf uid messages.now found.0 found.1.now) }
{
    let at = message_place(messages, uid)?;
    Some((at, &messages[at]))
}

/// Whether there is a mailbox of the name.
pub fn has_box(boxes: &[Mailbox], name: &BoxName) -> bool
    ensures { result ≡ is_some (box_at name.now boxes.now) }
{
    place_of(boxes, name).is_some()
}
