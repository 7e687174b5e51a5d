//! All texts of a front, four of some pieces, and an end.

use cases::{Input, WordFault};
use std::alloc::{AllocError, Global};

/// Texts of a front, four of the pieces, and an end.
#[derive(Clone, Copy)]
pub struct Fours<'a> {
    pub front: &'a [u8],
    pub pieces: &'a [&'a [u8]],
    pub end: &'a [u8],
}

impl<'a> Fours<'a> {
    /// How many they are.
    pub fn len(self) -> usize {
        let pieces = self.pieces.len();
        let pairs = pieces.saturating_mul(pieces);
        pairs.saturating_mul(pairs)
    }

    /// The text of a number below that.
    pub fn text(self, alloc: Global, number: usize) -> Result<Vec<u8>, AllocError> {
        let mut text = Vec::new(alloc);
        text.extend_from_slice(self.front)?;
        let mut left = number;
        for _ in 0..4 {
            left = add_piece(&mut text, self.pieces, left)?;
        }
        text.extend_from_slice(self.end)?;
        Ok(text)
    }
}

// Adds the piece that the lowest digit of a number names, and gives the other digits.
fn add_piece(text: &mut Vec<u8>, pieces: &[&[u8]], number: usize) -> Result<usize, AllocError> {
    let count = pieces.len();
    if count == 0 {
        return Ok(0);
    }
    if let Some(piece) = pieces.get(number % count) {
        text.extend_from_slice(piece)?;
    }
    Ok(number / count)
}

/// The texts to the end of the step.
pub fn texts<'a>(input: &mut Input<'a>) -> Result<Vec<&'a [u8]>, WordFault> {
    let mut texts = Vec::new(input.alloc);
    for _ in 0..input.len() {
        if input.is_step_done() {
            break;
        }
        texts.push(input.text()?)?;
    }
    input.end_step()?;
    Ok(texts)
}
