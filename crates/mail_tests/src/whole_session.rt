//! A caller that knows of a link that it is one, and no more, reads a mailbox in one session.

ghost use Rattle.std.specs.Prelude.{IfOk, OnOk};
ghost use Rattle.imap_session.specs.Enquiring.{Enquiring};
ghost use Rattle.mail_tests.specs.InOrder.{AreInOrder};
ghost use Rattle.mail_tests.specs.SentInOrder.{AreSentInOrder};
ghost use Rattle.world_traits.specs.Links.{Linked};

use crate::worlds::{archive_server, world_of};
use imap_model::{Command, Replies};
use imap_session::{Fresh, SessionFault};
use mail_base::{Account, BoxName, Bytes, Words};
use std::alloc::Global;
use std::test::Fail;
use world_mem::MemWorld;
use world_traits::Link;

// Connects, logs in, selects the mailbox, asks for all of it, and leaves. Only questions are asked.
fn read_mailbox<L: Link>(
    alloc: Global,
    link: &mut L,
    account: &Account,
    name: &BoxName,
) -> Result<(Replies, Replies), SessionFault>
    ensures in_order { L.tells_server
        → IfOk result (λ p. AreInOrder name.now p.0 p.1 (L.clock link.old) (L.clock link.new)) }
    ensures told { L.tells_server → Linked Enquiring (L.clock link.old) (L.clock link.new) }
    ensures sent { L.tells_files
        → OnOk result (AreSentInOrder account.now name.now (L.link link.new).sent) }
{
    let fresh = Fresh::connect(alloc, link)?;
    let greeted = fresh.greet(link)?;
    let known = greeted.authenticate(link, account)?;
    let ready = known.enable(link)?;
    let first = ready.select(link, name, None)?;
    let (chosen, selected) = first;
    let tag = chosen.next_tag();
    let second = chosen.ask(link, tag, &Command::FetchAll)?;
    let (last, fetched) = second;
    last.leave(link)?;
    Ok((selected, fetched))
}

// What a server must offer.
fn offers(alloc: Global) -> Option<Words> {
    let mut words = Words::new(alloc);
    words.push(bytes_of(alloc, b"QRESYNC")?).ok()?;
    words.push(bytes_of(alloc, b"IMAP4rev2")?).ok()?;
    Some(words)
}

fn bytes_of(alloc: Global, text: &[u8]) -> Option<Bytes> {
    Some(Bytes::of(text.to_vec(alloc).ok()?))
}

// A world with the mailbox Archive.
fn world(alloc: Global) -> Option<Box<MemWorld>> {
    world_of(alloc, archive_server(alloc, offers(alloc)?)?)
}

fn is_read_in(alloc: Global, world: &mut MemWorld) -> Option<bool> {
    let account = Account::new(alloc, "ann", "secret").ok()?;
    let name = BoxName::new(b"Archive").ok()?;
    Some(read_mailbox(alloc, world, &account, &name).is_ok())
}

fn is_read(alloc: Global) -> Option<bool> {
    let mut world = world(alloc)?;
    is_read_in(alloc, &mut world)
}

#[test]
fn a_mailbox_is_read_in_one_session(rt: HostRuntime) -> Result<(), Fail> {
    assert_eq!(rt; is_read(rt.alloc()), Some(true));
    Ok(())
}
