//! The bytes of the two files of a disk in memory.

ghost use Rattle.std.specs.Prelude.{◌≡◌, ◌≤◌, ◌+◌, ◌^◌, length, OnOk, OnErr};
ghost use Rattle.world_traits.specs.Files.{put, file_of, with_file};

use crate::Side;
use crate::mem_file::MemFile;
use std::alloc::AllocError;
use std::marker::Model;

/// What the two files were given and what they hold now.
#[derive(Drop)]
pub struct MemFiles {
    left: MemFile,
    right: MemFile,
}

impl Model for MemFiles {
    ghost use Rattle.world_traits.specs.Content.{Contents};

    ghost Value = { Contents };

    ghost view = { λ files. record {
      given = record { left = files.left.given; right = files.right.given };
      now = record { left = files.left.now; right = files.right.now };
    } };
}

impl MemFiles {
    /// Files of these bytes.
    pub fn new(left: Vec<u8>, right: Vec<u8>) -> MemFiles
        ensures given { result.given ≡ record { left = left.items; right = right.items } }
        ensures now { result.now ≡ record { left = left.items; right = right.items } }
    {
        MemFiles {
            left: MemFile::new(left),
            right: MemFile::new(right),
        }
    }

    /// What a file holds.
    pub fn bytes(&self, side: Side) -> &[u8]
        ensures { result.now ≡ file_of side self.now.now }
    {
        match side {
            Side::Left => self.left.bytes(),
            Side::Right => self.right.bytes(),
        }
    }

    /// Puts bytes at a place of a file. A gap before it reads as zeros. After an error both hold
    /// what they held.
    pub fn put(&mut self, side: Side, at: usize, bytes: &[u8]) -> Result<(), AllocError>
        requires { at + length bytes.now ≤ 2 ^ 32 }
        ensures done { OnOk result (self.new ≡ record self.old {
          now = with_file side (put at bytes.now (file_of side self.old.now)) self.old.now;
        }) }
        ensures failed { OnErr result (self.new ≡ self.old) }
    {
        match side {
            Side::Left => self.left.put(at, bytes),
            Side::Right => self.right.put(at, bytes),
        }
    }
}
