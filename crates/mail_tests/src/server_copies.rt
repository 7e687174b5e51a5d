//! Copies of a server: its mailboxes, messages and deeds are copied whole.

use flag_set::FlagSet;
use imap_model::{Author, Change, Deed, Mailbox, Message, Server};
use mail_base::{BoxName, Bytes, List, ModSeq, Tag, Validity};
use std::alloc::Global;
use std::test::Fail;
use uid_sets::Uid;

fn message(alloc: Global) -> Option<Message> {
    let uid = Uid::new(42)?;
    let modseq = ModSeq::new(715)?;
    let flags = FlagSet::read_list(alloc, b"\\Seen").ok()?;
    let text = Bytes::of(b"a\r\n".to_vec(alloc).ok()?);
    Some(Message {
        uid,
        flags,
        modseq,
        text,
    })
}

fn is_that_message(message: &Message) -> bool {
    message.uid.number() == 42
        && message.modseq.number() == 715
        && message.flags.len() == 1
        && message.text.as_slice() == b"a\r\n".as_slice()
}

fn is_copied_as_message(message: &Message) -> bool {
    match message.copy() {
        Ok(copy) => {
            let is_copy = is_that_message(&copy);
            drop(copy);
            is_copy
        }
        Err(_) => false,
    }
}

fn copies_a_message(alloc: Global) -> Option<bool> {
    let message = message(alloc)?;
    let is_copied = is_copied_as_message(&message);
    drop(message);
    Some(is_copied)
}

#[test]
fn a_message_is_copied(rt: HostRuntime) -> Result<(), Fail> {
    assert_eq!(rt; copies_a_message(rt.alloc()), Some(true));
    Ok(())
}

fn deed() -> Option<Deed> {
    let name = BoxName::new(b"INBOX").ok()?;
    let validity = Validity::new(5)?;
    let received = Validity::new(9)?;
    let uid = Uid::new(42)?;
    Some(Deed {
        author: Author::Ours(Tag::Play(1)),
        name,
        validity,
        received,
        change: Change::Drop { uid },
    })
}

fn is_that_deed(deed: &Deed) -> bool {
    deed.received.number() == 9
        && deed.author == Author::Ours(Tag::Play(1))
        && matches!(deed.change, Change::Drop { .. })
}

fn is_copied_as_deed(deed: &Deed) -> bool {
    match deed.copy() {
        Ok(copy) => {
            let is_copy = is_that_deed(&copy);
            drop(copy);
            is_copy
        }
        Err(_) => false,
    }
}

fn copies_a_deed() -> Option<bool> {
    let deed = deed()?;
    let is_copied = is_copied_as_deed(&deed);
    drop(deed);
    Some(is_copied)
}

#[test]
fn a_change_is_copied(rt: HostRuntime) -> Result<(), Fail> {
    assert_eq!(rt; copies_a_deed(), Some(true));
    Ok(())
}

fn inbox(alloc: Global) -> Option<Mailbox> {
    let name = BoxName::new(b"INBOX").ok()?;
    let validity = Validity::new(5)?;
    let uidnext = Uid::new(43)?;
    let highest = ModSeq::new(715)?;
    let mut messages = List::new(alloc);
    messages.push(message(alloc)?).ok()?;
    Some(Mailbox {
        name,
        validity,
        uidnext,
        highest,
        messages,
        gone: List::new(alloc),
    })
}

// A server with that mailbox, to which nothing was done.
fn server(alloc: Global) -> Option<Server> {
    let mut boxes = List::new(alloc);
    boxes.push(inbox(alloc)?).ok()?;
    Some(Server {
        boxes,
        history: List::new(alloc),
    })
}

// How many mailboxes and deeds the copy of a server has.
fn counted(alloc: Global, server: &Server) -> Option<(usize, usize)> {
    let copy = server.copy(alloc).ok()?;
    let counts = (copy.boxes.len(), copy.history.len());
    drop(copy);
    Some(counts)
}

fn copies_a_server(alloc: Global) -> Option<(usize, usize)> {
    let server = server(alloc)?;
    let counts = counted(alloc, &server);
    drop(server);
    counts
}

#[test]
fn a_server_is_copied(rt: HostRuntime) -> Result<(), Fail> {
    assert_eq!(rt; copies_a_server(rt.alloc()), Some((1, 0)));
    Ok(())
}
