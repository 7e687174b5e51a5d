//! What a server has under a name, and a mailbox under a UID, in the plainest way.

ghost use Rattle.std.specs.Prelude.{◌≡◌};
ghost use Rattle.std.specs.Option.{option_copied};
ghost use Rattle.imap_model.specs.Lookups.{box_at, gone_at, message_at};

use imap_model::{Gone, Mailbox, Message};
use mail_base::{BoxName, ModSeq};
use uid_sets::Uid;

// The mailbox of a name.
pub(crate) fn box_in<'a>(boxes: &'a [Mailbox], name: &BoxName) -> Option<&'a Mailbox>
    ensures { option_copied result ≡ box_at name.now boxes.now }
{
    let mut rest = boxes;
    while let Some((mailbox, behind)) = rest.split_first() {
        if mailbox.name == *name {
            return Some(mailbox);
        }
        rest = behind;
    }
    None
}

// The message of a UID.
pub(crate) fn message_in(messages: &[Message], uid: Uid) -> Option<&Message>
    ensures { option_copied result ≡ message_at uid messages.now }
{
    let mut rest = messages;
    while let Some((message, behind)) = rest.split_first() {
        if message.uid.number() == uid.number() {
            return Some(message);
        }
        rest = behind;
    }
    None
}

// The mod-sequence at which a UID went.
pub(crate) fn gone_in(gone: &[Gone], uid: Uid) -> Option<ModSeq>
    ensures { result ≡ gone_at uid gone.now }
{
    let mut rest = gone;
    while let Some((one, behind)) = rest.split_first() {
        if one.uid.number() == uid.number() {
            return Some(one.modseq);
        }
        rest = behind;
    }
    None
}
