//! The worlds of a scenario, and their calls. They are taken without clauses: what a call says of
//! all moments is dear to carry on.

ghost use Rattle.std.specs.Prelude.{◌<◌, ◌≤◌, ◌+◌, ◌^◌, length, IfOk};

use crate::muted_world::MutedWorld;
use cases::{Foreign, WordFault};
use imap_model::Server;
use server_mem::ForeignFault;
use std::alloc::{AllocFailed, Global};
use world_mem::{Files, ImageFault, MemWorld, Plan, ScriptWorld};
use world_traits::{Disk, DiskFailed, Link, LinkFailed, Side};

/// The world of a server, of one that is muted, or that of a script. A box keeps the many parts of
/// each out of sight of the proofs that let it go.
#[derive(Drop)]
pub enum AnyWorld {
    /// Of a server.
    Served(Box<MemWorld>),
    /// Of a server that leaves APPENDUID out. It has no plan, and none of its moments is shown.
    Muted(Box<MutedWorld>),
    /// Of a script. It has no server and no plan, and none of its moments is shown.
    Scripted(Box<ScriptWorld>),
}

/// What was made, in a box. It knows of no type, so that its proof sees no parts.
pub fn boxed<T, E>(alloc: Global, made: Result<T, E>) -> Result<Box<T>, E>
where
    T: Drop,
    E: From<AllocFailed<T>>,
{
    match made {
        Ok(value) => Ok(Box::new(alloc, value)?),
        Err(fault) => Err(fault),
    }
}

impl AnyWorld {
    /// Whether its calls can fail by a plan.
    pub fn has_plan(&self) -> bool {
        match self {
            AnyWorld::Served(_) => true,
            AnyWorld::Muted(_) | AnyWorld::Scripted(_) => false,
        }
    }

    /// The length of a file.
    pub fn length(&mut self, side: Side) -> Result<u64, DiskFailed> {
        match self {
            AnyWorld::Served(world) => world.length(side),
            AnyWorld::Muted(world) => world.length(side),
            AnyWorld::Scripted(world) => world.length(side),
        }
    }

    /// Reads a file from a place.
    pub fn read(&mut self, side: Side, at: u64, into: &mut [u8]) -> Result<usize, DiskFailed>
        ensures fits { IfOk result (λ n. n ≤ length into.old) }
    {
        match self {
            AnyWorld::Served(world) => world.read(side, at, into),
            AnyWorld::Muted(world) => world.read(side, at, into),
            AnyWorld::Scripted(world) => world.read(side, at, into),
        }
    }

    /// Writes to a file at a place.
    pub fn write_at(&mut self, side: Side, at: u64, bytes: &[u8]) -> Result<(), DiskFailed>
        requires { at + length bytes.now ≤ 2 ^ 32 }
    {
        match self {
            AnyWorld::Served(world) => world.write_at(side, at, bytes),
            AnyWorld::Muted(world) => world.write_at(side, at, bytes),
            AnyWorld::Scripted(world) => world.write_at(side, at, bytes),
        }
    }

    /// Syncs a file.
    pub fn sync(&mut self, side: Side) -> Result<(), DiskFailed> {
        match self {
            AnyWorld::Served(world) => world.sync(side),
            AnyWorld::Muted(world) => world.sync(side),
            AnyWorld::Scripted(world) => world.sync(side),
        }
    }

    /// Makes a connection.
    pub fn connect(&mut self) -> Result<(), LinkFailed> {
        match self {
            AnyWorld::Served(world) => world.connect(),
            AnyWorld::Muted(world) => world.connect(),
            AnyWorld::Scripted(world) => world.connect(),
        }
    }

    /// Sends bytes.
    pub fn send(&mut self, bytes: &[u8]) -> Result<(), LinkFailed> {
        match self {
            AnyWorld::Served(world) => world.send(bytes),
            AnyWorld::Muted(world) => world.send(bytes),
            AnyWorld::Scripted(world) => world.send(bytes),
        }
    }

    /// Receives into the buffer's front.
    pub fn recv(&mut self, into: &mut [u8]) -> Result<usize, LinkFailed>
        requires room { 0 < length into.old }
        ensures some { IfOk result (λ n. 0 < n) }
        ensures fits { IfOk result (λ n. n ≤ length into.old) }
    {
        match self {
            AnyWorld::Served(world) => world.recv(into),
            AnyWorld::Muted(world) => world.recv(into),
            AnyWorld::Scripted(world) => world.recv(into),
        }
    }

    /// Ends the connection.
    pub fn close(&mut self) {
        match self {
            AnyWorld::Served(world) => world.close(),
            AnyWorld::Muted(world) => world.close(),
            AnyWorld::Scripted(world) => world.close(),
        }
    }

    /// Gives another plan, whose calls are counted from now on, where there is one.
    pub fn plan(&mut self, plan: Plan) {
        match self {
            AnyWorld::Served(world) => world.plan(plan),
            AnyWorld::Muted(_) | AnyWorld::Scripted(_) => {}
        }
    }

    /// How many growths it was refused.
    pub fn refused(&self) -> u64 {
        match self {
            AnyWorld::Served(world) => world.refused(),
            AnyWorld::Muted(world) => world.refused(),
            AnyWorld::Scripted(world) => world.refused(),
        }
    }

    /// The bytes sent in the present connection, or in the last one where there is none.
    pub fn sent(&self) -> &[u8] {
        match self {
            AnyWorld::Served(world) => world.sent(),
            AnyWorld::Muted(world) => world.sent(),
            AnyWorld::Scripted(world) => world.sent(),
        }
    }

    /// The server, if there is one.
    pub fn server(&self) -> Option<&Server> {
        match self {
            AnyWorld::Served(world) => Some(world.server().server()),
            AnyWorld::Muted(world) => Some(world.server()),
            AnyWorld::Scripted(_) => None,
        }
    }

    /// Another client changes the server, if that is lawful. Gives the rule that it would break.
    ///
    /// # Errors
    /// `Form` where there is no server, and `Memory`.
    pub fn change(&mut self, foreign: &Foreign) -> Result<Option<u8>, WordFault> {
        let made = match self {
            AnyWorld::Served(world) => world.foreign(&foreign.name, &foreign.change),
            AnyWorld::Muted(world) => world.foreign(&foreign.name, &foreign.change),
            AnyWorld::Scripted(_) => return Err(WordFault::Form),
        };
        match made {
            Ok(()) => Ok(None),
            Err(ForeignFault::NotLawful { rule }) => Ok(Some(rule)),
            Err(ForeignFault::Memory) => Err(WordFault::Memory),
        }
    }

    /// An image of a moment, if its moments are shown.
    pub fn image(&self, moment: u64, pick: u64) -> Option<Result<Files, ImageFault>> {
        match self {
            AnyWorld::Served(world) => Some(world.images_at(moment, pick)),
            AnyWorld::Muted(_) | AnyWorld::Scripted(_) => None,
        }
    }

    /// Goes on from the image of the last moment that the pick takes.
    ///
    /// # Errors
    /// `Form` where its moments aren't shown, and `Memory`.
    pub fn restarted(self, alloc: Global, pick: u64, plan: Plan) -> Result<AnyWorld, WordFault> {
        match self {
            AnyWorld::Served(world) => {
                let world = boxed(alloc, Box::into_inner(world).restart(pick, plan))?;
                Ok(AnyWorld::Served(world))
            }
            AnyWorld::Muted(_) | AnyWorld::Scripted(_) => Err(WordFault::Form),
        }
    }
}
