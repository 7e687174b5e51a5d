//! The two files of a disk, each between two syncs.

ghost use Rattle.std.specs.Prelude.{◌≡◌, OnOk, OnErr};
ghost use Rattle.world_traits.specs.Files.{Files as FilesOf, put, file_of, with_file};
ghost use Rattle.world_traits.specs.Moments.{Moment};
ghost use Rattle.world_traits.specs.Calls.{written, settled as settled_moment};
ghost use Rattle.world_mem.specs.Torn.{untouched, wrote, settled};
ghost use Rattle.world_mem.specs.Both.{torn_of, with_torn, torn_at};

use crate::Files;
use crate::torn_file::TornFile;
use std::alloc::{AllocError, Global};
use std::marker::Model;
use world_traits::Side;

/// Both files of a disk as the calls so far left them.
#[derive(Drop)]
pub struct TornFiles {
    pub(crate) left: TornFile,
    pub(crate) right: TornFile,
}

impl Model for TornFiles {
    ghost use Rattle.world_mem.specs.Both.{Both};

    ghost Value = { Both };

    ghost view = { λ files. record { left = files.left; right = files.right } };
}

impl TornFiles {
    /// These files, which count as synced. It takes no memory.
    pub fn new(alloc: Global, files: Files) -> TornFiles
        ensures { result
            ≡ record { left = untouched files.left; right = untouched files.right } }
    {
        TornFiles {
            left: TornFile::new(alloc, files.left),
            right: TornFile::new(alloc, files.right),
        }
    }

    /// What a file reads as.
    pub fn bytes(&self, side: Side) -> &[u8]
        ensures { result.now ≡ (torn_of side self.now).reads }
    {
        match side {
            Side::Left => self.left.bytes(),
            Side::Right => self.right.bytes(),
        }
    }

    /// Writes bytes at a place of a file. A gap before it reads as zeros. After an error both are as
    /// before.
    pub fn write(&mut self, side: Side, at: usize, bytes: &[u8]) -> Result<(), AllocError>
        ensures done { OnOk result
            (self.new ≡ with_torn side (wrote at bytes.now (torn_of side self.old)) self.old) }
        ensures moment { (m : Moment) (seen : FilesOf) → self.old ≡ torn_at m seen
            → OnOk result (self.new ≡ torn_at (written side at bytes.now m)
            (with_file side (put at bytes.now (file_of side seen)) seen)) }
        ensures failed { OnErr result (self.new ≡ self.old) }
    {
        match side {
            Side::Left => self.left.write(at, bytes),
            Side::Right => self.right.write(at, bytes),
        }
    }

    /// Makes what a file reads as its synced bytes. It takes no memory.
    pub fn sync(&mut self, side: Side)
        ensures done { self.new ≡ with_torn side (settled (torn_of side self.old)) self.old }
        ensures moment { (m : Moment) (seen : FilesOf) → self.old ≡ torn_at m seen
            → self.new ≡ torn_at (settled_moment side (file_of side seen) m) seen }
    {
        match side {
            Side::Left => self.left.sync(),
            Side::Right => self.right.sync(),
        }
    }
}
