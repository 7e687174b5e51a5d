//! A caller that knows of a world that it is one, and no more, over a world in memory.

use crate::worlds::{server_of, world_of};
use mail_base::Words;
use std::alloc::Global;
use std::test::Fail;
use world_mem::MemWorld;
use world_traits::{Side, World};

// Makes a connection, sends a command in it, and keeps a byte of a file.
fn sends_and_keeps<W: World>(world: &mut W) -> bool {
    if world.connect().is_err() {
        return false;
    }
    if world.send(b"C1 LOGOUT\r\n").is_err() {
        return false;
    }
    world.close();
    world.write_at(Side::Right, 0, b"a").is_ok() && world.sync(Side::Right).is_ok()
}

// A world without mailboxes.
fn world(alloc: Global) -> Option<Box<MemWorld>> {
    world_of(alloc, server_of(alloc, Vec::new(alloc), Words::new(alloc))?)
}

fn is_kept_by_any(alloc: Global) -> Option<bool> {
    let mut world = world(alloc)?;
    Some(sends_and_keeps::<MemWorld>(&mut world))
}

#[test]
fn a_caller_needs_to_know_of_a_world_alone(rt: HostRuntime) -> Result<(), Fail> {
    assert_eq!(rt; is_kept_by_any(rt.alloc()), Some(true));
    Ok(())
}
