//! A listener that refuses what comes behind so many responses.

ghost use Rattle.std.specs.Prelude.{⊤};

use imap_model::{Listen, Response};
use std::alloc::AllocError;

/// How many responses were taken, and how many are before one is refused.
#[derive(Clone, Copy)]
pub struct Few {
    taken: u64,
    most: u64,
}

impl Few {
    /// Nothing was taken yet.
    pub fn new(most: u64) -> Few {
        Few { taken: 0, most }
    }

    /// How many responses were taken.
    pub fn taken(&self) -> u64 {
        self.taken
    }
}

impl Listen for Few {
    ghost Stands = { λ few told. ⊤ };

    fn take(&mut self, response: Response) -> Result<(), AllocError> {
        drop(response);
        if self.taken >= self.most {
            return Err(AllocError);
        }
        self.taken = self.taken.saturating_add(1);
        Ok(())
    }
}
