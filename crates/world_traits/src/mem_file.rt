//! The bytes of a file in memory: what it was given and what it holds now.

ghost use Rattle.std.specs.Prelude.{◌≡◌, ◌≤◌, ◌+◌, ◌^◌, length, OnOk, OnErr};
ghost use Rattle.world_traits.specs.Files.{put};

use crate::putting::put_in;
use std::alloc::AllocError;
use std::marker::Model;

/// The bytes of one file. The bytes that it was given are kept beside those that it holds now, from
/// the first write on.
#[derive(Drop)]
pub struct MemFile {
    given: Vec<u8>,
    later: Option<Vec<u8>>,
}

impl Model for MemFile {
    ghost use Rattle.world_traits.specs.Content.{Content, content};

    ghost Value = { Content };

    ghost view = { λ file. record {
      given = file.given.items;
      now = content file.given.items file.later;
    } };
}

impl MemFile {
    /// A file of these bytes.
    pub fn new(given: Vec<u8>) -> MemFile
        ensures { result ≡ record { given = given.items; now = given.items } }
    {
        MemFile { given, later: None }
    }

    /// What it holds.
    pub fn bytes(&self) -> &[u8]
        ensures { result.now ≡ self.now.now }
    {
        match &self.later {
            Some(later) => later,
            None => &self.given,
        }
    }

    /// Puts bytes at a place. A gap before it reads as zeros. The first call copies the file; each
    /// further one costs the bytes and the gap. After an error it holds what it held.
    pub fn put(&mut self, at: usize, bytes: &[u8]) -> Result<(), AllocError>
        requires { at + length bytes.now ≤ 2 ^ 32 }
        ensures done { OnOk result
            (self.new ≡ record self.old { now = put at bytes.now self.old.now }) }
        ensures failed { OnErr result (self.new ≡ self.old) }
    {
        let mut next = match self.later.take() {
            Some(later) => later,
            None => self.given.as_slice().to_vec(*self.given.allocator())?,
        };
        let done = put_in(&mut next, at, bytes);
        self.later = Some(next);
        done
    }
}
