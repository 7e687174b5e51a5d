//! The server in memory carries out commands as values.

use crate::worlds::archive_server;
use imap_model::{Command, Ending, Response};
use mail_base::{BoxName, Tag, Words};
use server_mem::MemServer;
use std::alloc::Global;
use std::test::Fail;

// How the last of what is told ends a command.
fn ending_of(told: &[Response]) -> Option<Ending> {
    match told.last() {
        Some(Response::Done { ending, .. }) => Some(*ending),
        _ => None,
    }
}

// How a server ends a command.
fn carried(server: &mut MemServer, command: &Command) -> Option<Ending> {
    let told = server.carry(Tag::Count(5), command).ok()?;
    let ending = ending_of(&told);
    drop(told);
    ending
}

// How a server ends a SELECT of a mailbox.
fn selected_at(server: &mut MemServer, name: &[u8]) -> Option<Ending> {
    let name = BoxName::new(name).ok()?;
    let command = Command::Select { name, since: None };
    let ending = carried(server, &command);
    drop(command);
    ending
}

fn server(alloc: Global) -> Option<Box<MemServer>> {
    let server = archive_server(alloc, Words::new(alloc))?;
    Box::new(alloc, server).ok()
}

// How a SELECT of a mailbox ends at a server with the mailbox Archive.
fn selected(alloc: Global, name: &[u8]) -> Option<Ending> {
    let mut server = server(alloc)?;
    selected_at(&mut server, name)
}

#[test]
fn a_select_ends_by_whether_its_mailbox_is_there(rt: HostRuntime) -> Result<(), Fail> {
    assert_eq!(rt; selected(rt.alloc(), b"Archive"), Some(Ending::Ok));
    assert_eq!(rt; selected(rt.alloc(), b"INBOX"), Some(Ending::No));
    Ok(())
}
