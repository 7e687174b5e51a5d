//! A journal that is open.

ghost use Rattle.std.specs.Prelude.{◌≡◌};

use crate::Version;
use std::marker::Model;
use world_traits::Side;

/// A journal that is open: which side it is, and how far it was read. It keeps no body.
#[derive(Debug, Drop)]
pub struct Journal {
    pub(crate) side: Side,
    pub(crate) version: Version,
    pub(crate) generation: u32,
    pub(crate) place: u64,
    pub(crate) all_read: bool,
    pub(crate) failed: bool,
}

impl Model for Journal {
    ghost use Rattle.journal_core.specs.Standing.{Standing};

    ghost Value = { Standing };

    ghost view = { λ j. record {
      side = j.side;
      version = j.version;
      generation = j.generation;
      place = j.place;
      all_read = j.all_read;
      failed = j.failed;
    } };
}

impl Journal {
    /// The place of the next gate, in bytes from 0.
    pub fn place(&self) -> u64
        ensures { result ≡ self.now.place }
    {
        self.place
    }

    /// The generation of its side, from 1.
    pub fn generation(&self) -> u32
        ensures { result ≡ self.now.generation }
    {
        self.generation
    }

    /// The version of its format.
    pub fn version(&self) -> Version
        ensures { result ≡ self.now.version }
    {
        self.version
    }
}
