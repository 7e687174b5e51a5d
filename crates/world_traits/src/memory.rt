//! A disk in memory that tells its moments: it keeps what its files were given, what they hold now,
//! and what each call did.

ghost use Rattle.std.specs.Prelude.{◌≡◌, ◌≤◌, ◌+◌, ◌-◌, ◌^◌, min, length, take, drop};
ghost use Rattle.world_traits.specs.Replay.{replay, start};

use crate::call::Did;
use crate::mem_files::MemFiles;
use crate::{Clocked, Disk, DiskFailed, Link, LinkFailed, NoLink, Side, World};
use std::alloc::{AllocError, Global};

/// Two files in memory. A call of the disk fails only where it is refused room. It has no server,
/// so each call of the link fails.
///
/// The first write to a file copies it; each further one costs the bytes that it is given and the
/// gap before them. It remembers each write and each sync, so it grows by each.
#[derive(Drop)]
pub struct MemDisk {
    files: MemFiles,
    calls: Vec<Did>,
    refused: u64,
    link: NoLink,
    ghost files_are: { files.now
        ≡ (replay calls.items (start files.given.left files.given.right)).files },
}

impl MemDisk {
    ghost use Rattle.std.specs.Prelude.{OnOk, OnErr};
    ghost use Rattle.world_traits.specs.Files.{file_of};
    ghost use Rattle.world_traits.specs.Replay.{step};
    ghost use Rattle.world_traits.specs.LinkState.{failed_link};
    ghost use Rattle.world_traits.specs.Memory.{state_of, refused_of, link_of};

    /// A disk with these files, which count as synced. It takes no memory.
    pub fn new(left: Vec<u8>, right: Vec<u8>) -> MemDisk
        ensures state { state_of result ≡ start left.items right.items }
        ensures refused { refused_of result ≡ 0 }
        ensures link { link_of result ≡ failed_link 0 }
    {
        let alloc: Global = *left.allocator();
        MemDisk {
            files: MemFiles::new(left, right),
            calls: Vec::new(alloc),
            refused: 0,
            link: NoLink::new(),
        }
    }

    /// What a file reads as.
    pub fn bytes(&self, side: Side) -> &[u8]
        ensures { result.now ≡ file_of side (state_of self.now).files }
    {
        self.files.bytes(side)
    }

    /// How many growths it was refused. The count never falls, and stays at 2^64 - 1, its last
    /// value.
    pub fn refused(&self) -> u64
        ensures { result ≡ refused_of self.now }
    {
        self.refused
    }

    // Writes and remembers the call, or leaves all as it was.
    fn write(&mut self, side: Side, at: u64, bytes: &[u8]) -> Result<(), AllocError>
        requires { at + length bytes.now ≤ 2 ^ 32 }
        ensures done { OnOk result ((own : _) × (own.items ≡ bytes.now)
            × (state_of self.new ≡ step (Did.Wrote side at own) (state_of self.old))) }
        ensures failed { OnErr result (state_of self.new ≡ state_of self.old) }
        ensures refused { refused_of self.new ≡ refused_of self.old }
        ensures link { link_of self.new ≡ link_of self.old }
    {
        let own = bytes.to_vec(*self.calls.allocator())?;
        self.calls.reserve(1)?;
        self.files.put(side, at as usize, bytes)?;
        self.calls.push_reserved(Did::Wrote {
            side,
            at,
            bytes: own,
        });
        Ok(())
    }

    // Remembers that a file was synced, or leaves all as it was.
    fn settle(&mut self, side: Side) -> Result<(), AllocError>
        ensures done { OnOk result
            (state_of self.new ≡ step (Did.Synced side) (state_of self.old)) }
        ensures failed { OnErr result (state_of self.new ≡ state_of self.old) }
        ensures refused { refused_of self.new ≡ refused_of self.old }
        ensures link { link_of self.new ≡ link_of self.old }
    {
        self.calls.reserve(1)?;
        self.calls.push_reserved(Did::Synced { side });
        Ok(())
    }
}

impl Clocked for MemDisk {
    ghost use Rattle.world_traits.specs.Memory.{state_of, refused_of, link_of};

    ghost tells_files = { Unit {0} };

    ghost tells_server = { ⊥ };

    ghost server_with_files = { λ tells. absurd tells };

    ghost clock = { λ disk. (state_of disk).clock };

    ghost disk_faults = { λ disk. refused_of disk };

    ghost link = { λ disk. link_of disk };
}

impl Disk for MemDisk {
    ghost use Rattle.std.specs.Prelude.{◌≡◌, ◌≤◌, OnErr, IfOk};
    ghost use Rattle.world_traits.specs.Files.{file_of};
    ghost use Rattle.world_traits.specs.Calls.{Rose, Looked, Wrote, Synced};
    ghost use Rattle.world_traits.specs.Counts.{CountsFailure};
    ghost use Rattle.world_traits.specs.Memory.{state_of, refused_of, link_of};
    ghost use Rattle.world_traits.specs.Replayed.{sound};

    ghost seen = { λ disk. (state_of disk).files };

    ghost seen_is = { λ disk tells.
        sound disk.calls.items disk.files.given.left disk.files.given.right };

    /// The file's length in bytes. It never fails, and changes nothing.
    fn length(&mut self, side: Side) -> Result<u64, DiskFailed>
        ensures value { result ≡ Ok (length (file_of side (state_of self.old).files)) }
        ensures same { self.new ≡ self.old }
    {
        Ok(self.bytes(side).len() as u64)
    }

    /// Reads from a place into the buffer's front, as many bytes as there are and fit. It never
    /// fails, and changes nothing of the disk.
    fn read(&mut self, side: Side, at: u64, into: &mut [u8]) -> Result<usize, DiskFailed>
        ensures value { result ≡ Ok (min (length into.old)
            (length (file_of side (state_of self.old).files) - at)) }
        ensures bytes { IfOk result (λ n.
            take n into.new ≡ take n (drop at (file_of side (state_of self.old).files))) }
        ensures same { self.new ≡ self.old }
    {
        let bytes = self.bytes(side);
        if at >= bytes.len() as u64 {
            return Ok(0);
        }
        let rest = &bytes[at as usize..];
        let count = rest.len().min(into.len());
        into[..count].copy_from_slice(&rest[..count]);
        Ok(count)
    }

    /// Writes the bytes at a place. It fails exactly where it is refused room, and then nothing was
    /// written.
    fn write_at(&mut self, side: Side, at: u64, bytes: &[u8]) -> Result<(), DiskFailed>
        requires { at + length bytes.now ≤ 2 ^ 32 }
        ensures told { Wrote side at bytes.now (state_of self.old).clock (state_of self.new).clock
            (state_of self.old).files (state_of self.new).files result }
        ensures failed { OnErr result (state_of self.new ≡ state_of self.old) }
        ensures count { refused_of self.old ≤ refused_of self.new }
        ensures cause { OnErr result (Rose (refused_of self.old) (refused_of self.new)) }
        ensures exact { CountsFailure result (refused_of self.old) (refused_of self.new) }
        ensures link { link_of self.new ≡ link_of self.old }
    {
        if self.write(side, at, bytes).is_err() {
            self.refused = self.refused.saturating_add(1);
            return Err(DiskFailed);
        }
        Ok(())
    }

    /// Makes what a read gives the synced bytes. It fails exactly where it is refused room, and
    /// then nothing changed.
    fn sync(&mut self, side: Side) -> Result<(), DiskFailed>
        ensures told { Synced side (state_of self.old).clock (state_of self.new).clock
            (state_of self.old).files (state_of self.new).files result }
        ensures failed { OnErr result (state_of self.new ≡ state_of self.old) }
        ensures count { refused_of self.old ≤ refused_of self.new }
        ensures cause { OnErr result (Rose (refused_of self.old) (refused_of self.new)) }
        ensures exact { CountsFailure result (refused_of self.old) (refused_of self.new) }
        ensures link { link_of self.new ≡ link_of self.old }
    {
        if self.settle(side).is_err() {
            self.refused = self.refused.saturating_add(1);
            return Err(DiskFailed);
        }
        Ok(())
    }
}

impl Link for MemDisk {
    ghost use Rattle.std.specs.Prelude.{◌≡◌, ◌≤◌, IsErr};
    ghost use Rattle.world_traits.specs.Calls.{Rose};
    ghost use Rattle.world_traits.specs.Counts.{counted};
    ghost use Rattle.world_traits.specs.LinkState.{failed_link};
    ghost use Rattle.world_traits.specs.Memory.{state_of, refused_of, link_of};

    ghost honest = { λ disk tells c is. absurd tells };

    /// It fails, and only the count of the link's faults goes on.
    fn connect(&mut self) -> Result<(), LinkFailed>
        ensures failed { IsErr result }
        ensures state { state_of self.new ≡ state_of self.old }
        ensures refused { refused_of self.new ≡ refused_of self.old }
        ensures link { link_of self.new ≡ failed_link (counted (link_of self.old).faults) }
        ensures count { (link_of self.old).faults ≤ (link_of self.new).faults }
        ensures cause { Rose (link_of self.old).faults (link_of self.new).faults }
    {
        Err(self.link.fail())
    }

    /// It fails, and only the count of the link's faults goes on.
    fn send(&mut self, _bytes: &[u8]) -> Result<(), LinkFailed>
        ensures failed { IsErr result }
        ensures state { state_of self.new ≡ state_of self.old }
        ensures refused { refused_of self.new ≡ refused_of self.old }
        ensures link { link_of self.new ≡ failed_link (counted (link_of self.old).faults) }
        ensures count { (link_of self.old).faults ≤ (link_of self.new).faults }
        ensures cause { Rose (link_of self.old).faults (link_of self.new).faults }
    {
        Err(self.link.fail())
    }

    /// It fails, and only the count of the link's faults goes on.
    fn recv(&mut self, _into: &mut [u8]) -> Result<usize, LinkFailed>
        ensures failed { IsErr result }
        ensures state { state_of self.new ≡ state_of self.old }
        ensures refused { refused_of self.new ≡ refused_of self.old }
        ensures link { link_of self.new ≡ failed_link (counted (link_of self.old).faults) }
        ensures count { (link_of self.old).faults ≤ (link_of self.new).faults }
        ensures cause { Rose (link_of self.old).faults (link_of self.new).faults }
    {
        Err(self.link.fail())
    }

    /// It changes nothing: there is no connection.
    fn close(&mut self)
        ensures { self.new ≡ self.old }
    {}
}

impl World for MemDisk {}
