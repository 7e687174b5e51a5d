//! A journal goes on on its other side, with other bodies.

ghost use Rattle.world_traits.specs.Files.{other};
ghost use Rattle.world_traits.specs.Moments.{stored};
ghost use Rattle.std.specs.Prelude.{◌≡◌, ◌≤◌, ◌<◌, ◌+◌, ◌-◌, ◌^◌, ℕ, IsTrue, IsErrOf, OnOk, length, true};

use crate::Journal;
use crate::creating::{MAX_SIDE, place_behind};
use crate::setting_up::draw_up;
use crate::version::WRITTEN;
use mail_base::Bytes;
use thiserror::Error;
use world_traits::{Clocked, Disk, Side};

/// Why a journal doesn't go on on its other side.
#[derive(Clone, Copy, Debug, PartialEq, Eq, Drop, Error)]
pub enum TurnFault {
    /// The disk failed. A stop or a reopening gives the old bodies or the new ones.
    #[error("the disk failed")]
    Disk,
    /// The side would end at `wanted`, past 2^30 bytes. Nothing is set up there, so `end` is 0, and `wanted` is at most
    /// 2^64 - 1.
    #[error("the journal is full")]
    Full { end: u64, wanted: u64 },
}

impl Journal {
    ghost use Rattle.journal_core.specs.Blames.{BlamesWhere};
    ghost use Rattle.journal_core.specs.declared.turning.TurnFault.TheVariants as faults;
    ghost use Rattle.journal_core.specs.Appending.{told_end};
    ghost use Rattle.journal_core.specs.Creating.{NoneEmpty, end_of};
    ghost use Rattle.journal_core.specs.OneSide.{EachOneSide, SideAtRest};
    ghost use Rattle.journal_core.specs.Turning.{Turns, turned};

    /// Sets up the other side with these bodies, in the next generation. The journal then stands behind them, and the
    /// side that it leaves keeps its bytes. It takes no memory.
    ///
    /// The head gate of the new side opens when all behind it is durable, so a stop leaves the old bodies or the new
    /// ones. After `Full` all is as it was. After `Disk` the journal isn't used again.
    pub fn turn<D: Disk>(&mut self, disk: &mut D, bodies: &[Bytes]) -> Result<(), TurnFault>
        requires all_read { IsTrue self.old.all_read }
        requires sound { IsTrue self.old.failed → ⊥ }
        requires some { 0 < length bodies.now }
        requires sizes { NoneEmpty bodies.now }
        requires later { self.old.generation < 2 ^ 32 - 1 }
        ensures told { D.tells_files → Turns self.old self.new bodies.now (D.clock disk.old)
            (D.clock disk.new) (D.seen disk.old) (D.seen disk.new) result }
        ensures done { OnOk result (self.new ≡ turned bodies.now self.old) }
        ensures within { OnOk result (end_of bodies.now ≤ 2 ^ 30) }
        ensures full { (end wanted : ℕ) → IsErrOf result (faults.Full end wanted) →
            (2 ^ 30 < end_of bodies.now) × (end ≡ 0) × (wanted ≡ told_end (end_of bodies.now)) }
        ensures kept { (end wanted : ℕ) → IsErrOf result (faults.Full end wanted) →
            (self.new ≡ self.old) × (disk.new ≡ disk.old) }
        ensures disk_within { IsErrOf result faults.Disk → end_of bodies.now ≤ 2 ^ 30 }
        ensures broken { IsErrOf result faults.Disk → self.new ≡ record self.old { failed = true } }
        ensures beside { D.tells_files → stored self.old.side (D.clock disk.new).now
            ≡ stored self.old.side (D.clock disk.old).now }

        // Where the side that it leaves was at rest, each moment has one side at rest.
        ensures each_one_side { D.tells_files → SideAtRest self.old.side (D.clock disk.old).now →
            EachOneSide (D.clock disk.old) (D.clock disk.new) }
        ensures blames { BlamesWhere D.Clocked disk.old disk.new (IsErrOf result faults.Disk) }
    {
        let wanted = place_behind(bodies);
        if wanted > MAX_SIDE {
            return Err(TurnFault::Full { end: 0, wanted });
        }
        let side = other_side(self.side);
        let generation = self.generation + 1;
        if let Err(_failed) = draw_up(disk, side, generation, bodies) {
            self.failed = true;
            return Err(TurnFault::Disk);
        }
        self.side = side;
        self.version = WRITTEN;
        self.generation = generation;
        self.place = wanted - 1;
        Ok(())
    }
}

// The other one of the two files.
fn other_side(side: Side) -> Side
    ensures { result ≡ other side }
{
    match side {
        Side::Left => Side::Right,
        Side::Right => Side::Left,
    }
}
