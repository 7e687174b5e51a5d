//! A text that is repeated without end, in pieces that are made without copying.

ghost use Rattle.std.specs.Prelude.{◌≡◌, ◌≤◌, ◌<◌, ◌+◌, length, take};
ghost use Rattle.mail_bench.specs.Repeated.{stretch};

use std::alloc::{AllocError, Global};

/// A text and so much of its repetitions that a piece may begin at each of its bytes.
#[derive(Drop)]
pub struct Block {
    bytes: Vec<u8>,
    /// The size of the text.
    pub period: usize,
    /// The size of the largest piece.
    pub most: usize,
    ghost some: { 0 < period },
    ghost moves: { 0 < most },
    ghost enough: { period + most ≤ length bytes.items },
    ghost repeats: { bytes.items ≡ stretch (take period bytes.items) 0 (length bytes.items) },
}

impl Block {
    ghost use Rattle.std.specs.Prelude.{◌≡◌, ◌≤◌, ◌<◌, ◌+◌, ◌%◌, length, IfOk};
    ghost use Rattle.mail_bench.specs.Blocks.{text_in};
    ghost use Rattle.mail_bench.specs.Repeated.{stretch};

    /// The block of a text, for pieces of at most so many bytes.
    pub fn new(alloc: Global, text: &[u8], most: usize) -> Result<Block, AllocError>
        requires some { 0 < length text.now }
        requires moves { 0 < most }
        requires at_most { most ≤ 65536 }
        ensures text { IfOk result (λ block. text_in block ≡ text.now) }
        ensures most { IfOk result (λ block. block.most ≡ most) }
    {
        let mut bytes = Vec::new(alloc);
        while bytes.len() < text.len() + most {
            bytes.extend_from_slice(text)?;
        }
        Ok(Block {
            bytes,
            period: text.len(),
            most,
        })
    }

    /// The piece of so many bytes that begins at a byte of the text, with the text's repetitions behind it.
    pub fn piece(&self, at: usize, count: usize) -> &[u8]
        requires at { at < self.now.period }
        requires count { count ≤ self.now.most }
        ensures { result.now ≡ stretch (text_in self.now) at count }
    {
        &self.bytes[at..at + count]
    }

    /// The byte of the text at which the next piece begins.
    pub fn behind(&self, at: usize, count: usize) -> usize
        requires at { at < self.now.period }
        requires count { count ≤ self.now.most }
        ensures { result ≡ (at + count) % self.now.period }
    {
        (at + count) % self.period
    }
}
