//! Servers and worlds in memory, as small as they can be.

ghost use Rattle.std.specs.Prelude.{◌≡◌, false, IfSome};

use imap_model::Mailbox;
use mail_base::{BoxName, Bytes, List, ModSeq, Validity, Words};
use server_mem::{MemServer, is_well_formed};
use std::alloc::{AllocError, Global};
use uid_sets::Uid;
use world_mem::{Files, MemWorld, Plan};

/// A server with these mailboxes, which offers this.
pub fn server_of(alloc: Global, boxes: Vec<Mailbox>, offers: Words) -> Option<MemServer>
    ensures { IfSome result (λ server. server.muted ≡ false) }
{
    if !is_well_formed(&boxes) {
        return None;
    }
    match MemServer::new(alloc, boxes, offers) {
        Ok(server) => Some(server),
        Err(_) => None,
    }
}

/// A server with an empty mailbox, Archive, which offers this.
pub fn archive_server(alloc: Global, offers: Words) -> Option<MemServer>
    ensures { IfSome result (λ server. server.muted ≡ false) }
{
    let mut boxes = Vec::new(alloc);
    boxes.push(archive(alloc)?).ok()?;
    server_of(alloc, boxes, offers)
}

fn archive(alloc: Global) -> Option<Mailbox> {
    let name = BoxName::new(b"Archive").ok()?;
    let validity = Validity::new(9)?;
    let uidnext = Uid::new(7)?;
    let highest = ModSeq::new(300)?;
    Some(Mailbox {
        name,
        validity,
        uidnext,
        highest,
        messages: List::new(alloc),
        gone: List::new(alloc),
    })
}

/// A world of this server and two empty files, in which nothing fails. It is in a box, since a
/// function that lets go of a world itself is dear to prove.
pub fn world_of(alloc: Global, server: MemServer) -> Option<Box<MemWorld>>
    requires { server.muted ≡ false }
{
    boxed(
        alloc,
        MemWorld::new(alloc, server, no_bytes(alloc), no_fault(alloc)),
    )
}

// What was made, in a box. It sees none of its parts, so it is cheap to prove.
fn boxed<T: Drop>(alloc: Global, made: Result<T, AllocError>) -> Option<Box<T>> {
    Box::new(alloc, made.ok()?).ok()
}

fn no_bytes(alloc: Global) -> Files {
    Files {
        left: Bytes::new(alloc),
        right: Bytes::new(alloc),
    }
}

fn no_fault(alloc: Global) -> Plan {
    Plan {
        disk_fails: List::new(alloc),
        link_fails: List::new(alloc),
        foreign: List::new(alloc),
        stop_after: None,
    }
}
