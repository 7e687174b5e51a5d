//! A record is added behind the others.

ghost use Rattle.std.specs.Prelude.{◌≡◌, ◌≤◌, ◌<◌, ◌+◌, ◌^◌, ℕ, IsTrue, OnErr, length};
ghost use Rattle.std.specs.Prelude.{IsErrOf, OnOk, true};

use crate::Journal;
use crate::gated::write_gated;
use thiserror::Error;
use world_traits::{Clocked, Disk, DiskFailed};

/// Why a record isn't added.
#[derive(Clone, Copy, Debug, PartialEq, Eq, Drop, Error)]
pub enum AppendFault {
    /// The disk failed. A stop or a reopening gives the bodies with or without the new one.
    #[error("the disk failed")]
    Disk,
    /// The journal ends at `end` and would end at `wanted`, past the limit. Places are counted in
    /// bytes from 0, and `wanted` is at most 2^64 - 1.
    #[error("the journal is full")]
    Full { end: u64, wanted: u64 },
}

impl Journal {
    ghost use Rattle.journal_core.specs.Blames.{BlamesWhere};
    ghost use Rattle.journal_core.specs.declared.appending.AppendFault.TheVariants as faults;
    ghost use Rattle.journal_core.specs.Appending.{IsFrame, Appends, end_with, told_end};
    ghost use Rattle.journal_core.specs.OneSide.{IsAside};
    ghost use Rattle.journal_core.specs.Sides.{version_written};

    /// Adds a record to a journal of the version that is written, given as the frame of its body:
    /// the length in four bytes, high byte first, the body, and a closed gate. It takes no memory.
    ///
    /// The limit is on the place behind the journal's last gate. After `Full` all is as it was.
    pub fn append<D: Disk>(
        &mut self,
        disk: &mut D,
        frame: &[u8],
        limit: u64,
    ) -> Result<(), AppendFault>
        requires written { self.old.version ≡ version_written }
        requires all_read { IsTrue self.old.all_read }
        requires sound { IsTrue self.old.failed → ⊥ }
        requires limit_fits { limit ≤ 2 ^ 30 }
        requires frame_is { IsFrame frame.now }
        ensures told { D.tells_files → Appends self.old self.new frame.now (D.clock disk.old)
            (D.clock disk.new) (D.seen disk.old) (D.seen disk.new) result }
        ensures done { OnOk result
            (self.new ≡ record self.old { place = self.old.place + length frame.now }) }
        ensures within { OnOk result (end_with (length frame.now) self.old ≤ limit) }
        ensures full { (end wanted : ℕ) → IsErrOf result (faults.Full end wanted) →
            (limit < end_with (length frame.now) self.old)
            × (end ≡ told_end (end_with 0 self.old))
            × (wanted ≡ told_end (end_with (length frame.now) self.old)) }
        ensures kept { (end wanted : ℕ) → IsErrOf result (faults.Full end wanted) →
            (self.new ≡ self.old) × (disk.new ≡ disk.old) }
        ensures disk_within { IsErrOf result faults.Disk →
            end_with (length frame.now) self.old ≤ limit }
        ensures broken { IsErrOf result faults.Disk → self.new ≡ record self.old { failed = true } }
        ensures aside { D.tells_files →
            IsAside self.old.side (D.clock disk.old) (D.clock disk.new) }
        ensures blames { BlamesWhere D.Clocked disk.old disk.new (IsErrOf result faults.Disk) }
    {
        let end = self.place.saturating_add(1);
        let wanted = end.saturating_add(frame.len() as u64);
        if wanted > limit {
            return Err(AppendFault::Full { end, wanted });
        }
        if let Err(_failed) = write_gated(disk, self.side, self.place, frame) {
            self.failed = true;
            return Err(AppendFault::Disk);
        }
        self.place += frame.len() as u64;
        Ok(())
    }
}
