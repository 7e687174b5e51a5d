//! The disk that a command runs on: a call fails, or it stops. It tells nothing: what a call says
//! of all moments is dear to carry on.

use crate::files::Files;
use crate::picks::{Pick, Torn, touch};
use cases::Fault;
use std::alloc::{AllocError, Global};
use world_traits::{Clocked, Disk, DiskFailed, Link, LinkFailed, MemDisk, NoLink, Side, World};

/// What befalls a command.
#[derive(Clone, Copy)]
pub enum Fate {
    /// Nothing.
    Calm,
    /// This call of its disk fails.
    Call(u64),
    /// After so many calls of its disk it is stopped.
    Stop(u64),
    /// This write to its output fails.
    Output(u64),
}

/// A disk that this befalls. It keeps what was synced and which places were written since, and
/// counts its calls, its writes and its syncs.
#[derive(Drop)]
pub struct FateDisk {
    alloc: Global,
    disk: MemDisk,
    synced: Files,
    touched: Files,
    fate: Fate,
    calls: u64,
    writes: u64,
    syncs: u64,
    faults: u64,
    link: NoLink,
}

impl FateDisk {
    ghost use Rattle.std.specs.Prelude.{◌≡◌, ◌≤◌};
    ghost use Rattle.world_traits.specs.Calls.{Rose};

    /// A disk with these files, which count as synced.
    pub fn new(alloc: Global, files: &Files, fate: Fate) -> Result<FateDisk, AllocError> {
        let synced = Files::of(alloc, &files.left, &files.right)?;
        Ok(FateDisk {
            alloc,
            disk: files.disk(alloc)?,
            synced,
            touched: Files::empty(alloc),
            fate,
            calls: 0,
            writes: 0,
            syncs: 0,
            faults: 0,
            link: NoLink::new(),
        })
    }

    // Counts a fault, up to the last value of the count.
    fn fail(&mut self) -> DiskFailed
        ensures grows { self.old.faults ≤ self.new.faults }
        ensures rose { Rose self.old.faults self.new.faults }
        ensures link { self.new.link ≡ self.old.link }
    {
        self.faults = self.faults.saturating_add(1);
        DiskFailed
    }

    // Whether this call, the next one, is to fail.
    fn fails(&mut self) -> bool
        ensures faults { self.new.faults ≡ self.old.faults }
        ensures link { self.new.link ≡ self.old.link }
    {
        self.calls = self.calls.saturating_add(1);
        match self.fate {
            Fate::Call(call) => self.calls == call,
            Fate::Stop(calls) => self.calls > calls,
            _ => false,
        }
    }

    /// What the files read as.
    pub fn files(&self) -> Result<Files, AllocError> {
        Files::of(
            self.alloc,
            self.disk.bytes(Side::Left),
            self.disk.bytes(Side::Right),
        )
    }

    /// `13 calls, 2 writes, 4 syncs`
    pub fn cost(&self) -> Result<String, Fault> {
        let (calls, writes, syncs) = (self.calls, self.writes, self.syncs);
        Ok(format!(in self.alloc; "{calls} calls, {writes} writes, {syncs} syncs")?)
    }

    // A file since its last sync.
    fn torn(&self, side: Side) -> Torn<'_> {
        Torn {
            synced: self.synced.file(side),
            now: self.disk.bytes(side),
            touched: self.touched.file(side),
        }
    }

    // What a stop now may leave by a pick.
    fn image(&self, pick: Pick) -> Result<Files, AllocError> {
        let left = self.torn(Side::Left).left_by(self.alloc, pick)?;
        let right = self.torn(Side::Right).left_by(self.alloc, pick)?;
        Ok(Files { left, right })
    }

    /// What a stop now may leave: what was synced, what the files read as, and torn files.
    pub fn images(&self) -> Result<Vec<Files>, AllocError> {
        let mut images = Vec::new(self.alloc);
        images.push(Files::of(self.alloc, &self.synced.left, &self.synced.right)?)?;
        for halves in 0..=2usize {
            for mask in [0, 85] {
                images.push(self.image(Pick::Halves { halves, mask })?)?;
            }
        }
        images.push(self.image(Pick::Ones)?)?;
        for first in 2..=4 {
            images.push(self.image(Pick::Drawn(first))?)?;
        }
        Ok(images)
    }
}

impl Clocked for FateDisk {
    ghost use Rattle.std.specs.Prelude.{[]};
    ghost use Rattle.world_traits.specs.LinkState.{failed_link};
    ghost use Rattle.world_traits.specs.Replay.{start};

    ghost tells_files = { ⊥ };

    ghost tells_server = { ⊥ };

    ghost server_with_files = { λ tells. tells };

    ghost clock = { λ disk. (start [] []).clock };

    ghost disk_faults = { λ disk. disk.faults };

    ghost link = { λ disk. failed_link disk.link };
}

impl Disk for FateDisk {
    ghost use Rattle.std.specs.Prelude.{[]};

    ghost seen = { λ disk. record { left = []; right = [] } };

    ghost seen_is = { λ disk tells. absurd tells };

    fn length(&mut self, side: Side) -> Result<u64, DiskFailed> {
        if self.fails() {
            return Err(self.fail());
        }
        Ok(self.disk.bytes(side).len() as u64)
    }

    fn read(&mut self, side: Side, at: u64, into: &mut [u8]) -> Result<usize, DiskFailed> {
        if self.fails() {
            return Err(self.fail());
        }
        self.disk.read(side, at, into)
    }

    fn write_at(&mut self, side: Side, at: u64, bytes: &[u8]) -> Result<(), DiskFailed> {
        if self.fails() {
            return Err(self.fail());
        }
        if self.disk.write_at(side, at, bytes).is_err() {
            return Err(self.fail());
        }
        if touch(self.touched.file_mut(side), at as usize, bytes.len()).is_err() {
            return Err(self.fail());
        }
        self.writes = self.writes.saturating_add(1);
        Ok(())
    }

    fn sync(&mut self, side: Side) -> Result<(), DiskFailed> {
        if self.fails() {
            return Err(self.fail());
        }
        let Ok(now) = self.disk.bytes(side).to_vec(self.alloc) else {
            return Err(self.fail());
        };
        *self.synced.file_mut(side) = now;
        self.touched.file_mut(side).clear();
        self.syncs = self.syncs.saturating_add(1);
        Ok(())
    }
}

impl Link for FateDisk {
    ghost honest = { λ disk tells c is. absurd tells };

    fn connect(&mut self) -> Result<(), LinkFailed> {
        Err(self.link.fail())
    }

    fn send(&mut self, _bytes: &[u8]) -> Result<(), LinkFailed> {
        Err(self.link.fail())
    }

    fn recv(&mut self, _into: &mut [u8]) -> Result<usize, LinkFailed> {
        Err(self.link.fail())
    }

    fn close(&mut self) {}
}

impl World for FateDisk {}
