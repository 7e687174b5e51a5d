//! What was told and answered, beside what is wanted.

use cases::{Answer, Fault, differs, same_bytes, same_words};
use std::alloc::{AllocError, Global};

/// What was told in a case, how much of it was wanted so far, and what the last line answered.
#[derive(Drop)]
pub struct Reading {
    alloc: Global,
    told: Vec<u8>,
    read: usize,
    // Whether the last line was one of the server's.
    answered: bool,
    /// What the last line answered, until it is wanted.
    pub answer: Answer,
}

impl Reading {
    /// Nothing was told.
    pub fn new(alloc: Global) -> Reading {
        Reading {
            alloc,
            told: Vec::new(alloc),
            read: 0,
            answered: false,
            answer: Answer::new(alloc),
        }
    }

    /// Takes what is told.
    pub fn put(&mut self, lines: &[u8]) -> Result<(), AllocError> {
        self.told.extend_from_slice(lines)
    }

    /// What was told and wasn't wanted yet.
    pub fn rest(&self) -> &[u8] {
        match self.told.get(self.read..) {
            Some(rest) => rest,
            None => &[],
        }
    }

    /// Wants these bytes next.
    pub fn want(&mut self, wanted: &[u8]) -> Result<(), Fault> {
        self.answered = true;
        if !self.rest().starts_with(wanted) {
            return Err(differs(self.alloc, wanted, self.rest()));
        }
        self.read = self.read.saturating_add(wanted.len());
        Ok(())
    }

    /// Wants nothing more, where a server's line came last.
    pub fn go_on(&mut self) -> Result<(), Fault> {
        if self.answered {
            self.answered = false;
            return self.want_end();
        }
        Ok(())
    }

    /// Wants nothing more.
    pub fn want_end(&self) -> Result<(), Fault> {
        same_bytes(self.alloc, b"", self.rest())
    }

    /// Wants what the last line answered.
    pub fn want_answer(&mut self, wanted: &str) -> Result<(), Fault> {
        same_words(self.alloc, wanted, &self.answer)?;
        self.answer = Answer::new(self.alloc);
        Ok(())
    }

    /// Wants that the last line answered nothing that wasn't wanted.
    pub fn want_no_answer(&self) -> Result<(), Fault> {
        same_bytes(self.alloc, b"", self.answer.as_bytes())
    }
}
