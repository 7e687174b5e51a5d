//! The calls of a world, each without clauses: what a call says of all moments is dear to carry on.

ghost use Rattle.std.specs.Prelude.{◌≡◌, false};

use cases::WordFault;
use imap_model::Change;
use mail_base::BoxName;
use server_mem::{ForeignFault, MemServer};
use std::alloc::{AllocError, Global};
use world_mem::{Files, ImageFault, MemWorld, Plan};
use world_traits::{Disk, Link, Side};

/// Makes a connection.
pub fn connects(world: &mut MemWorld) -> bool {
    world.connect().is_ok()
}

/// Sends bytes.
pub fn sends(world: &mut MemWorld, bytes: &[u8]) -> bool {
    world.send(bytes).is_ok()
}

/// Receives into the buffer's front, and says how many bytes.
pub fn receives(world: &mut MemWorld, into: &mut [u8; 1024]) -> Option<usize> {
    world.recv(into).ok()
}

/// Ends the connection.
pub fn closes(world: &mut MemWorld) {
    world.close();
}

/// Writes bytes to a file. Those that no file holds are refused.
pub fn writes(world: &mut MemWorld, side: Side, at: u64, bytes: &[u8]) -> Result<bool, WordFault> {
    if at > 65_536 || bytes.len() > 65_536 {
        return Err(WordFault::Form);
    }
    Ok(world.write_at(side, at, bytes).is_ok())
}

/// Syncs a file.
pub fn syncs(world: &mut MemWorld, side: Side) -> bool {
    world.sync(side).is_ok()
}

/// The length of a file.
pub fn length(world: &mut MemWorld, side: Side) -> Option<u64> {
    world.length(side).ok()
}

/// A change by another client.
pub fn foreign(world: &mut MemWorld, name: &BoxName, change: &Change) -> Result<(), ForeignFault> {
    world.foreign(name, change)
}

/// Gives another plan.
pub fn plans(world: &mut MemWorld, plan: Plan) {
    world.plan(plan);
}

/// An image of a moment.
pub fn image(world: &MemWorld, moment: u64, pick: u64) -> Result<Files, ImageFault> {
    world.images_at(moment, pick)
}

/// How many moments there are, as is told of one that isn't there.
pub fn moments(world: &MemWorld) -> Option<u64> {
    match world.images_at(u64::MAX, 0) {
        Err(ImageFault::NoMoment { moments }) => Some(moments),
        _ => None,
    }
}

// What was made, in a box. It knows of no type, so that its proof sees no parts.
fn boxed<T: Drop>(alloc: Global, made: Result<T, AllocError>) -> Result<Box<T>, AllocError> {
    Ok(Box::new(alloc, made?)?)
}

/// Goes on from an image.
pub fn restarted(
    alloc: Global,
    world: Box<MemWorld>,
    pick: u64,
    plan: Plan,
) -> Result<Box<MemWorld>, AllocError> {
    boxed(alloc, Box::into_inner(world).restart(pick, plan))
}

/// A new world. A box keeps its many parts out of sight of the proofs that let it go.
pub fn new_world(
    alloc: Global,
    server: MemServer,
    files: Files,
    plan: Plan,
) -> Result<Box<MemWorld>, AllocError>
    requires { server.muted ≡ false }
{
    boxed(alloc, MemWorld::new(alloc, server, files, plan))
}
