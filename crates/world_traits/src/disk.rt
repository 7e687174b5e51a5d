//! A disk of two files, on which a stop may tear what was written since the last sync.

use crate::Clocked;
use thiserror::Error;

/// One of the two files.
#[derive(Clone, Copy, Debug, PartialEq, Eq)]
pub enum Side {
    /// The first file.
    Left,
    /// The second file.
    Right,
}

/// A call of the disk failed. The count of the disk's faults rose in that call.
#[derive(Clone, Copy, Debug, PartialEq, Eq, Error)]
#[error("the disk failed")]
pub struct DiskFailed;

/// Two files, each read and written at places counted in bytes from 0.
///
/// Between two syncs of a file a stop may leave any bytes in each written range and past the synced
/// end, and any length from the synced one to the furthest end written; all other bytes stay. After
/// a sync that answers Ok a stop leaves what a read gives.
///
/// Each call answers `DiskFailed` only where the count of faults rose in that call, leaves that
/// count where it answers Ok, and leaves the link as it was.
pub trait Disk: Clocked {
    ghost use Rattle.std.specs.Prelude.{◌≡◌, ◌≤◌, ◌+◌, ◌-◌, ◌^◌};
    ghost use Rattle.std.specs.Prelude.{min, length, take, drop, OnOk, OnErr, IfOk};
    ghost use Rattle.world_traits.specs.Files.{Files, file_of};
    ghost use Rattle.world_traits.specs.Moments.{MayLeave};
    ghost use Rattle.world_traits.specs.Calls.{Rose, Looked, Wrote, Synced};

    /// The files as `length` and `read` give them.
    ghost seen: { Self → Files };

    /// The file's length in bytes. A file that was never written has length 0. After an error too
    /// the files and the moment stay.
    fn length(&mut self, side: Side) -> Result<u64, DiskFailed>
        ensures value { Self.tells_files → IfOk result (λ n.
            n ≡ length (file_of side (seen self.old))) }
        ensures told { Self.tells_files → Looked (Self.clock self.old) (Self.clock self.new)
            (seen self.old) (seen self.new) }
        ensures count { Self.disk_faults self.old ≤ Self.disk_faults self.new }
        ensures link { Self.link self.new ≡ Self.link self.old }
        ensures cause { OnErr result
            (Rose (Self.disk_faults self.old) (Self.disk_faults self.new)) }
        ensures unfailed { OnOk result
            (Self.disk_faults self.new ≡ Self.disk_faults self.old) };

    /// Reads from a place into the buffer's front, as many bytes as there are and fit, and answers
    /// how many. After an error too the files and the moment stay.
    fn read(&mut self, side: Side, at: u64, into: &mut [u8]) -> Result<usize, DiskFailed>
        ensures fits { IfOk result (λ n. n ≤ length into.old) }
        ensures value { Self.tells_files → IfOk result (λ n.
            n ≡ min (length into.old) (length (file_of side (seen self.old)) - at)) }
        ensures bytes { Self.tells_files → IfOk result (λ n.
            take n into.new ≡ take n (drop at (file_of side (seen self.old)))) }
        ensures told { Self.tells_files → Looked (Self.clock self.old) (Self.clock self.new)
            (seen self.old) (seen self.new) }
        ensures count { Self.disk_faults self.old ≤ Self.disk_faults self.new }
        ensures link { Self.link self.new ≡ Self.link self.old }
        ensures cause { OnErr result
            (Rose (Self.disk_faults self.old) (Self.disk_faults self.new)) }
        ensures unfailed { OnOk result
            (Self.disk_faults self.new ≡ Self.disk_faults self.old) };

    /// Writes the bytes at a place. A gap between the file's end and that place reads as zeros.
    /// After an error the range counts as written and may hold any bytes, or nothing was written at
    /// all.
    fn write_at(&mut self, side: Side, at: u64, bytes: &[u8]) -> Result<(), DiskFailed>
        requires { at + length bytes.now ≤ 2 ^ 32 }
        ensures told { Self.tells_files → Wrote side at bytes.now
            (Self.clock self.old) (Self.clock self.new) (seen self.old) (seen self.new) result }
        ensures count { Self.disk_faults self.old ≤ Self.disk_faults self.new }
        ensures link { Self.link self.new ≡ Self.link self.old }
        ensures cause { OnErr result
            (Rose (Self.disk_faults self.old) (Self.disk_faults self.new)) }
        ensures unfailed { OnOk result
            (Self.disk_faults self.new ≡ Self.disk_faults self.old) };

    /// Makes what a read gives the synced bytes. After an error nothing more is known of what a
    /// stop leaves than before.
    fn sync(&mut self, side: Side) -> Result<(), DiskFailed>
        ensures told { Self.tells_files → Synced side (Self.clock self.old) (Self.clock self.new)
            (seen self.old) (seen self.new) result }
        ensures count { Self.disk_faults self.old ≤ Self.disk_faults self.new }
        ensures link { Self.link self.new ≡ Self.link self.old }
        ensures cause { OnErr result
            (Rose (Self.disk_faults self.old) (Self.disk_faults self.new)) }
        ensures unfailed { OnOk result
            (Self.disk_faults self.new ≡ Self.disk_faults self.old) };

    /// What the files read as is one of the images that a stop may leave now.
    ghost seen_is: { (disk : Self) → Self.tells_files →
        MayLeave (Self.clock disk).now (seen disk) };
}
