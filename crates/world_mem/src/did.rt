//! What a world in memory remembers of its calls.

ghost use Rattle.std.specs.Prelude.{◌≡◌, IfOk};

use imap_model::{Change, Command};
use mail_base::{BoxName, Bytes, Tag};
use server_mem::Answered;
use std::alloc::AllocError;
use world_traits::Side;

/// One thing that happened.
#[derive(Drop)]
pub enum Did {
    /// Bytes were written at a place of a file.
    Wrote { side: Side, at: u64, bytes: Vec<u8> },
    /// A file was synced.
    Synced { side: Side },
    /// Another client changed a mailbox.
    Changed { name: BoxName, change: Change },
    /// The server began a connection.
    Greeted,
    /// A part of a text arrived, and was answered.
    Heard { part: Bytes, answered: Answered },
    /// Bytes arrived that aren't a whole part yet.
    Began,
    /// The last part of a command's text arrived, and the command waits.
    Waited { held: Held },
    /// The command that waited was carried out.
    Settled,
    /// It was told that the connection is at its end: nothing is selected, and no text arrives.
    Ended,
}

/// A command that waits: its connection was lost as its last part had arrived.
#[derive(Drop)]
pub struct Held {
    /// The last part of its text.
    pub part: Bytes,
    /// Its tag.
    pub tag: Tag,
    /// The command.
    pub command: Command,
    /// Whether it is carried out at the next connection, or dropped.
    pub carried: bool,
}

impl Held {
    /// The same once more, or want of memory.
    pub fn copy(&self) -> Result<Held, AllocError>
        ensures { IfOk result (λ held. held ≡ self.now) }
    {
        Ok(Held {
            part: self.part.copy()?,
            tag: self.tag,
            command: self.command.copy()?,
            carried: self.carried,
        })
    }
}
