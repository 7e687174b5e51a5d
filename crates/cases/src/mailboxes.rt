//! Mailboxes of a server, and what stands in them (docs/CASES.md, "Values").

use crate::answer::Answer;
use crate::fault::WordFault;
use crate::input::Input;
use crate::values::{
    bytes, listed_flags, modseq, name, put_filed, put_headed, put_modseq, put_place, put_stamp,
    uid, validity,
};
use imap_model::{Gone, Mailbox, Message};
use mail_base::{BoxName, List};

/// `NAME VALIDITY UIDNEXT HIGHEST`: a mailbox without messages.
pub fn mailbox(input: &mut Input) -> Result<Mailbox, WordFault> {
    Ok(Mailbox {
        name: name(input)?,
        validity: validity(input)?,
        uidnext: uid(input)?,
        highest: modseq(input)?,
        messages: List::new(input.alloc),
        gone: List::new(input.alloc),
    })
}

/// `NAME UID MODSEQ TEXT FLAG ..`: a message, and the name of its mailbox.
pub fn message(input: &mut Input) -> Result<(BoxName, Message), WordFault> {
    let name = name(input)?;
    let message = Message {
        uid: uid(input)?,
        modseq: modseq(input)?,
        text: bytes(input)?,
        flags: listed_flags(input)?,
    };
    Ok((name, message))
}

/// `NAME UID MODSEQ`: a UID whose message is gone, and the name of its mailbox.
pub fn gone(input: &mut Input) -> Result<(BoxName, Gone), WordFault> {
    let name = name(input)?;
    let uid = uid(input)?;
    let modseq = modseq(input)?;
    Ok((name, Gone { uid, modseq }))
}

/// Adds the line of a mailbox, without its messages.
pub fn put_mailbox(answer: &mut Answer, mailbox: &Mailbox) -> Result<(), WordFault> {
    put_headed(answer, "mailbox", &mailbox.name)?;
    put_place(answer, mailbox.validity, mailbox.uidnext)?;
    put_modseq(answer, mailbox.highest)
}

/// Adds the line of a message of the mailbox of this name.
pub fn put_message(
    answer: &mut Answer,
    name: &BoxName,
    message: &Message,
) -> Result<(), WordFault> {
    put_headed(answer, "message", name)?;
    put_stamp(answer, message.uid, message.modseq)?;
    put_filed(answer, &message.text, &message.flags)
}

/// Adds the line of a UID that is gone from the mailbox of this name.
pub fn put_gone(answer: &mut Answer, name: &BoxName, gone: &Gone) -> Result<(), WordFault> {
    put_headed(answer, "gone", name)?;
    put_stamp(answer, gone.uid, gone.modseq)
}
