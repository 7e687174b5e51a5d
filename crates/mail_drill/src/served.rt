//! The world that a drill begins with.

ghost use Rattle.std.specs.Prelude.{◌≡◌, ◌≤◌, ◌<◌, ◌^◌, [], ◌∷◌, IfOk, codes};
ghost use Rattle.mail_base.specs.BoxName.{IsBoxText, KeptAs};
ghost use Rattle.mail_drill.specs.Beginning.{IsNew, boxes_at_first, message_at_first, messages_at_first};
ghost use Rattle.mail_drill.specs.Connected.{IsServed};

use crate::misfortune::no_plan;
use crate::numerals::put_message;
use flag_set::FlagSet;
use imap_model::{Mailbox, Message};
use mail_base::{BoxName, Bytes, List, ModSeq, Validity, Words};
use server_mem::MemServer;
use std::alloc::{AllocError, Global};
use uid_sets::Uid;
use world_mem::{Files, MemWorld};

/// A world of two empty files, and a server with INBOX, which has so many messages, and Archive, which is empty.
pub fn world_of(alloc: Global, size: u32) -> Result<MemWorld, AllocError>
    requires some { 1 ≤ size }
    requires most { size ≤ 2000 }
    ensures new { IfOk result (IsNew size) }
    ensures served { IfOk result IsServed }
{
    let boxes = boxes_of(alloc, size)?;
    let server = MemServer::new(alloc, boxes, offers(alloc)?)?;
    let files = Files {
        left: Bytes::new(alloc),
        right: Bytes::new(alloc),
    };
    MemWorld::new(alloc, server, files, no_plan(alloc))
}

// What the server offers.
fn offers(alloc: Global) -> Result<Words, AllocError>
    ensures { IfOk result (λ offers. offers ≡ codes "IMAP4rev2" ∷ codes "QRESYNC" ∷ []) }
{
    let mut offers = Words::new(alloc);
    offers.push(bytes_of(alloc, b"IMAP4rev2")?)?;
    offers.push(bytes_of(alloc, b"QRESYNC")?)?;
    Ok(offers)
}

// A text as bytes of its own.
fn bytes_of(alloc: Global, text: &[u8]) -> Result<Bytes, AllocError>
    ensures { IfOk result (λ bytes. bytes ≡ text.now) }
{
    Ok(Bytes::of(text.to_vec(alloc)?))
}

// INBOX, with so many messages, and Archive.
fn boxes_of(alloc: Global, size: u32) -> Result<Vec<Mailbox>, AllocError>
    requires some { 1 ≤ size }
    requires most { size ≤ 2000 }
    ensures { IfOk result (λ boxes. boxes.items ≡ boxes_at_first size) }
{
    let messages = messages_of(alloc, size)?;
    let inbox = mailbox_of(
        alloc,
        b"INBOX",
        5,
        size.saturating_add(1),
        u64::from(size),
        messages,
    );
    let archive = mailbox_of(alloc, b"Archive", 9, 1, 1, List::new(alloc));
    let mut boxes = Vec::with_capacity(alloc, 2)?;
    boxes.push(inbox)?;
    boxes.push(archive)?;
    Ok(boxes)
}

// A mailbox of this name and of these numbers.
fn mailbox_of(
    alloc: Global,
    name: &[u8],
    validity: u32,
    uidnext: u32,
    highest: u64,
    messages: List<Message>,
) -> Mailbox
    requires text { IsBoxText name.now }
    requires validity { 1 ≤ validity }
    requires uidnext { 1 ≤ uidnext }
    requires highest { 1 ≤ highest }
    requires most { highest < 2 ^ 63 }
    ensures name { KeptAs name.now result.name }
    ensures fields { result ≡ record {
      name = result.name;
      validity = validity;
      uidnext = uidnext;
      highest = highest;
      messages = messages;
      gone = [];
    } }
{
    let Ok(name) = BoxName::new(name) else {
        unreachable!()
    };
    let Some(validity) = Validity::new(validity) else {
        unreachable!()
    };
    Mailbox {
        name,
        validity,
        uidnext: uid_of(uidnext),
        highest: modseq_of(highest),
        messages,
        gone: List::new(alloc),
    }
}

// So many messages, by UID.
fn messages_of(alloc: Global, size: u32) -> Result<List<Message>, AllocError>
    ensures { IfOk result (λ messages. messages ≡ messages_at_first size) }
{
    let mut messages = List::new(alloc);
    for number in 1..=size {
        messages.push(message_of(alloc, number)?)?;
    }
    Ok(messages)
}

// The message of a UID, without flags.
fn message_of(alloc: Global, number: u32) -> Result<Message, AllocError>
    requires { 1 ≤ number }
    ensures { IfOk result (λ message. message ≡ message_at_first number) }
{
    let mut text = Vec::new(alloc);
    put_message(&mut text, b'm', number)?;
    Ok(Message {
        uid: uid_of(number),
        flags: FlagSet::none(alloc),
        modseq: modseq_of(u64::from(number)),
        text: Bytes::of(text),
    })
}

// The UID of a number that isn't 0.
fn uid_of(number: u32) -> Uid
    requires { 1 ≤ number }
    ensures { result ≡ number }
{
    let Some(uid) = Uid::new(number) else {
        unreachable!()
    };
    uid
}

// The mod-sequence of a number that is one (RFC 7162, section 3.1).
fn modseq_of(number: u64) -> ModSeq
    requires some { 1 ≤ number }
    requires most { number < 2 ^ 63 }
    ensures { result ≡ number }
{
    let Some(modseq) = ModSeq::new(number) else {
        unreachable!()
    };
    modseq
}
