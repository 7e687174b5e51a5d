//! A row of words, of which equal ones that stand together are told by their count: `10 before, 1
//! after`.

use crate::texts::owned;
use cases::{Fault, same_text};
use std::alloc::Global;

/// A row of words.
#[derive(Drop)]
pub struct Spans {
    text: String,
    word: String,
    count: u64,
}

impl Spans {
    /// No word.
    pub fn new(alloc: Global) -> Spans {
        Spans {
            text: String::new(alloc),
            word: String::new(alloc),
            count: 0,
        }
    }

    // Ends the words that are equal.
    fn end(&mut self) -> Result<(), Fault> {
        if self.count == 0 {
            return Ok(());
        }
        if !self.text.is_empty() {
            self.text.push_str(", ")?;
        }
        let mut buffer = itoa::Buffer::new();
        self.text.push_str(buffer.format(self.count))?;
        self.text.push(' ')?;
        self.text.push_str(self.word.as_str())?;
        self.count = 0;
        Ok(())
    }

    /// Adds a word.
    pub fn add(&mut self, alloc: Global, word: &str) -> Result<(), Fault> {
        if self.word.as_str() != word {
            self.end()?;
            self.word = owned(alloc, word)?;
        }
        self.count = self.count.saturating_add(1);
        Ok(())
    }

    /// Wants these words.
    pub fn want(mut self, alloc: Global, wanted: &str) -> Result<(), Fault> {
        self.end()?;
        same_text(alloc, wanted, self.text.as_str())
    }
}
