//! A server's mailboxes and what happened to them (RFC 9051, section 2.3; RFC 7162, section 3.1).

ghost use Rattle.std.specs.Prelude.{◌≡◌, IfOk};

use crate::Deed;
use flag_set::FlagSet;
use mail_base::{BoxName, Bytes, List, ModSeq, Validity};
use std::alloc::{AllocError, Global};
use uid_sets::Uid;

/// A message of a mailbox: its UID, its flags, the mod-sequence of its last change, and its text.
#[derive(Drop)]
pub struct Message {
    pub uid: Uid,
    pub flags: FlagSet,
    pub modseq: ModSeq,
    pub text: Bytes,
}

impl Message {
    /// The same message once more, or want of memory.
    pub fn copy(&self) -> Result<Message, AllocError>
        ensures { IfOk result (λ message. message ≡ self.now) }
    {
        Ok(Message {
            uid: self.uid,
            flags: self.flags.copy()?,
            modseq: self.modseq,
            text: self.text.copy()?,
        })
    }
}

/// A UID whose message is gone, and the mod-sequence at which it went.
#[derive(Clone, Copy, Debug, PartialEq, Eq)]
pub struct Gone {
    pub uid: Uid,
    pub modseq: ModSeq,
}

/// A mailbox. Its messages rise by UID.
#[derive(Drop)]
pub struct Mailbox {
    pub name: BoxName,
    pub validity: Validity,
    pub uidnext: Uid,
    pub highest: ModSeq,
    pub messages: List<Message>,
    pub gone: List<Gone>,
}

impl Mailbox {
    /// The same mailbox once more, or want of memory.
    pub fn copy(&self, alloc: Global) -> Result<Mailbox, AllocError>
        ensures { IfOk result (λ mailbox. mailbox ≡ self.now) }
    {
        Ok(Mailbox {
            name: self.name.copy(),
            validity: self.validity,
            uidnext: self.uidnext,
            highest: self.highest,
            messages: copied_messages(alloc, self.messages.as_slice())?,
            gone: List::of(self.gone.as_slice().to_vec(alloc)?),
        })
    }
}

fn copied_messages(alloc: Global, messages: &[Message]) -> Result<List<Message>, AllocError>
    ensures { IfOk result (λ copies. copies ≡ messages.now) }
{
    let mut copies = List::new(alloc);
    for message in messages {
        copies.push(message.copy()?)?;
    }
    Ok(copies)
}

/// A server: its mailboxes, and each change that was made to one, in order.
#[derive(Drop)]
pub struct Server {
    pub boxes: List<Mailbox>,
    pub history: List<Deed>,
}

impl Server {
    /// The same server once more, or want of memory.
    pub fn copy(&self, alloc: Global) -> Result<Server, AllocError>
        ensures { IfOk result (λ server. server ≡ self.now) }
    {
        Ok(Server {
            boxes: copied_boxes(alloc, self.boxes.as_slice())?,
            history: copied_deeds(alloc, self.history.as_slice())?,
        })
    }
}

fn copied_boxes(alloc: Global, boxes: &[Mailbox]) -> Result<List<Mailbox>, AllocError>
    ensures { IfOk result (λ copies. copies ≡ boxes.now) }
{
    let mut copies = List::new(alloc);
    for mailbox in boxes {
        copies.push(mailbox.copy(alloc)?)?;
    }
    Ok(copies)
}

fn copied_deeds(alloc: Global, deeds: &[Deed]) -> Result<List<Deed>, AllocError>
    ensures { IfOk result (λ copies. copies ≡ deeds.now) }
{
    let mut copies = List::new(alloc);
    for deed in deeds {
        copies.push(deed.copy()?)?;
    }
    Ok(copies)
}
