//! Whether mailboxes are those of a well-formed server (RFC 9051, section 2.3.1.1; RFC 7162, section 3.1).

ghost use Rattle.std.specs.Prelude.{◌≡◌, ◌↔◌, IsTrue, is_some};
ghost use Rattle.imap_model.specs.Lookups.{gone_at, message_at};
ghost use Rattle.imap_model.specs.WellFormed.{IsWellFormed};
ghost use Rattle.server_mem.specs.Checks as checks;

use crate::lookups::{has_box, message_place};
use imap_model::{Gone, Mailbox, Message};
use mail_base::ModSeq;
use uid_sets::Uid;

// Whether a text holds a NUL.
fn holds_nul(text: &[u8]) -> bool
    ensures { result ≡ checks.holds_nul text.now }
{
    text.iter().any(|byte| *byte == 0)
}

// Whether a message's numbers and text are right.
fn message_fits(low: u64, next: Uid, highest: ModSeq, message: &Message) -> bool
    ensures { result ≡ checks.message_fits low next highest message.now }
{
    low <= u64::from(message.uid.number())
        && message.uid.number() < next.number()
        && message.modseq.number() <= highest.number()
        && !holds_nul(message.text.as_slice())
}

// Whether each message's are, and they rise.
fn messages_fit(next: Uid, highest: ModSeq, messages: &[Message]) -> bool
    ensures { result ≡ checks.messages_fit 0 next highest messages.now }
{
    let mut low = 0;
    let mut rest = messages;
    while let Some((message, behind)) = rest.split_first() {
        if !message_fits(low, next, highest, message) {
            return false;
        }
        low = u64::from(message.uid.number()) + 1;
        rest = behind;
    }
    true
}

// Whether a UID went.
fn has_gone(gone: &[Gone], uid: Uid) -> bool
    ensures { result ≡ is_some (gone_at uid gone.now) }
{
    let mut rest = gone;
    while let Some((one, behind)) = rest.split_first() {
        if one.uid == uid {
            return true;
        }
        rest = behind;
    }
    false
}

// Whether what is kept of a UID that went is right.
fn gone_fits(messages: &[Message], next: Uid, highest: ModSeq, one: Gone, later: &[Gone]) -> bool
    ensures { result ≡ checks.gone_fits messages.now next highest one later.now }
{
    one.uid.number() < next.number()
        && one.modseq.number() <= highest.number()
        && !has_message(messages, one.uid)
        && !has_gone(later, one.uid)
}

// Whether a UID is there.
fn has_message(messages: &[Message], uid: Uid) -> bool
    ensures { result ≡ is_some (message_at uid messages.now) }
{
    message_place(messages, uid).is_some()
}

// Whether that is so of each that went.
fn all_gone_fit(messages: &[Message], next: Uid, highest: ModSeq, gone: &[Gone]) -> bool
    ensures { result ≡ checks.all_gone_fit messages.now next highest gone.now }
{
    let mut rest = gone;
    while let Some((one, behind)) = rest.split_first() {
        if !gone_fits(messages, next, highest, *one, behind) {
            return false;
        }
        rest = behind;
    }
    true
}

// Whether a mailbox is well formed.
fn box_fits(mailbox: &Mailbox) -> bool
    ensures { result ≡ checks.box_fits mailbox.now }
{
    let messages = mailbox.messages.as_slice();
    messages_fit(mailbox.uidnext, mailbox.highest, messages)
        && all_gone_fit(
            messages,
            mailbox.uidnext,
            mailbox.highest,
            mailbox.gone.as_slice(),
        )
}

// Whether each mailbox is, and no two have one name.
fn boxes_fit(boxes: &[Mailbox]) -> bool
    ensures { result ≡ checks.boxes_fit boxes.now }
{
    let mut rest = boxes;
    while let Some((mailbox, behind)) = rest.split_first() {
        if !box_fits(mailbox) || has_box(behind, &mailbox.name) {
            return false;
        }
        rest = behind;
    }
    true
}

/// Whether the mailboxes are those of a well-formed server: their names differ, and in each the messages rise by UID, each
/// UID, there or gone, is below UIDNEXT, each mod-sequence at most the highest, no UID is both there and gone or gone twice,
/// and no text holds a NUL.
pub fn is_well_formed(boxes: &[Mailbox]) -> bool
    ensures { IsTrue result ↔ IsWellFormed boxes.now }
{
    boxes_fit(boxes)
}
