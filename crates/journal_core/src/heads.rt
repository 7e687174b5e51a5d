//! The head of a side is read: a gate, a magic word of 8 bytes and a generation of 4.

ghost use Rattle.std.specs.Prelude.{◌≡◌, ◌≤◌, take, length, IfOk, OnOk, OnErr};
ghost use Rattle.journal_core.specs.Blames.{Blames};
ghost use Rattle.world_traits.specs.Files.{file_of};
ghost use Rattle.journal_core.specs.Heads.{HeadIs};
ghost use Rattle.journal_core.specs.Reading.{OnlyLooks};

use crate::Version;
use crate::gated::OPEN;
use crate::version::version_in;
use world_traits::{Clocked, Disk, DiskFailed, Side};

/// The bytes of a head and the gate behind it.
pub const HEAD: usize = 14;

/// What the head of a side says.
#[derive(Clone, Copy, Debug, PartialEq, Eq)]
pub enum Head {
    /// The side has fewer than 14 bytes or a closed head gate.
    Closed,
    /// Its head gate is open, and its header is wrong.
    Wrong,
    /// It is set up.
    SetUp {
        /// The version of its format.
        version: Version,
        /// Its generation, from 1.
        generation: u32,
    },
}

/// What the first bytes of a file say, at most 14 of them.
pub fn head_in(bytes: &[u8]) -> Head
    ensures { HeadIs result bytes.now }
{
    if bytes.len() < HEAD || bytes[0] != OPEN {
        return Head::Closed;
    }
    let Some(version) = version_in(&bytes[1..9]) else {
        return Head::Wrong;
    };
    let generation = u32::from_be_bytes([bytes[9], bytes[10], bytes[11], bytes[12]]);
    if generation == 0 {
        return Head::Wrong;
    }
    Head::SetUp {
        version,
        generation,
    }
}

/// Reads the head of a side.
pub fn read_head<D: Disk>(disk: &mut D, side: Side) -> Result<Head, DiskFailed>
    ensures value { D.tells_files → IfOk result (λ head.
        HeadIs head (file_of side (D.seen disk.old))) }
    ensures told { D.tells_files → OnlyLooks (D.clock disk.old) (D.clock disk.new)
        (D.seen disk.old) (D.seen disk.new) }
    ensures blames { Blames D.Clocked disk.old disk.new result }
{
    let mut front = [0; HEAD];
    let count = disk.read(side, 0, &mut front)?;
    Ok(head_in(&front[..count]))
}
