//! How many comparisons with a plain program there were, and how many differed.

use cases::{Answer, WordFault};

/// How many comparisons there were, and how many differed.
#[derive(Clone, Copy)]
pub struct Alike {
    compared: u64,
    different: u64,
}

impl Alike {
    /// Nothing was compared.
    pub fn new() -> Alike {
        Alike {
            compared: 0,
            different: 0,
        }
    }

    /// There was one comparison, and it differed.
    pub fn differing() -> Alike {
        Alike {
            compared: 1,
            different: 1,
        }
    }

    /// Counts a comparison.
    pub fn count(&mut self, same: bool) {
        self.compared = self.compared.saturating_add(1);
        if !same {
            self.different = self.different.saturating_add(1);
        }
    }

    /// Adds `360 alike`, and how many differed where some did.
    pub fn put(self, answer: &mut Answer) -> Result<(), WordFault> {
        answer.number(self.compared.saturating_sub(self.different))?;
        answer.word("alike")?;
        if self.different == 0 {
            return Ok(());
        }
        answer.number(self.different)?;
        answer.word("different")
    }
}
