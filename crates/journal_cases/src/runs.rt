//! The top call.

use crate::fate::FateDisk;
use cases::{Fault, Input};
use mail_base::{Account, Status};
use mail_top::run;
use std::alloc::Global;
use world_traits::{FaultySink, MemSource, Source};

// An account. No command here comes to log in: the link fails.
fn account(alloc: Global) -> Result<Account, Fault> {
    Account::new(alloc, "ann", "pw").map_err(|_| Fault::Memory)
}

/// What a command reads, and where it prints.
#[derive(Drop)]
pub struct Streams {
    input: MemSource,
    out: FaultySink,
}

impl Streams {
    /// An input of these bytes, and an output whose writes with these numbers fail.
    pub fn new(alloc: Global, input: Vec<u8>, fails: Vec<u64>) -> Streams {
        Streams {
            input: MemSource::new(input),
            out: FaultySink::new(alloc, fails),
        }
    }

    /// What was printed.
    pub fn printed(&self) -> &[u8] {
        self.out.bytes()
    }

    /// How many bytes of the input weren't read. The room has place for all of them, and they are
    /// read now.
    pub fn unread(&mut self, room: &mut [u8]) -> Result<u64, Fault> {
        match self.input.read(room) {
            Ok(count) => Ok(count as u64),
            Err(_) => Err(Fault::Form),
        }
    }
}

/// Carries out the command of the words that are left.
pub fn run_on(
    alloc: Global,
    input: &mut Input<'_>,
    disk: &mut FateDisk,
    streams: &mut Streams,
) -> Result<Status, Fault> {
    let words = input.letters_left()?;
    let account = account(alloc)?;
    let Streams { input, out } = streams;
    Ok(run(alloc, &words, &account, input, disk, out))
}
