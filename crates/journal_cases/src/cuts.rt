//! A file that is cut at each place, or of which one byte after the other is changed.

use crate::bytes::{Names, byte, place};
use crate::commands::{Start, carried_out};
use crate::files::{Files, side_of};
use crate::loops::Trial;
use crate::readings::held;
use crate::spans::Spans;
use crate::texts::split;
use cases::{Fault, Input, WordFault, read_line, words_of};
use std::alloc::{AllocError, Global};
use world_traits::Side;

/// The files with another one in place of one of them are read as the plain slow program reads
/// them.
pub fn read_over(alloc: Global, files: &Files, side: Side, file: &[u8]) -> Result<(), Fault> {
    let files = files.with(alloc, side, file)?;
    held(alloc, &files)?;
    Ok(())
}

/// `left`: each front of the file is read as the plain slow program reads it.
pub fn each_cut(alloc: Global, files: &Files, text: &str) -> Result<(), Fault> {
    let side = side_of(text.as_bytes())?;
    let file = files.file(side);
    for end in 0..file.len().saturating_add(1) {
        read_over(alloc, files, side, file.get(..end).unwrap_or(file))?;
    }
    Ok(())
}

// The file with another byte at a place.
fn with_byte(alloc: Global, file: &[u8], place: usize, byte: u8) -> Result<Vec<u8>, AllocError> {
    let mut file = file.to_vec(alloc)?;
    if let Some(old) = file.get_mut(place) {
        *old = byte;
    }
    Ok(file)
}

// Reads the files with this byte at each place of one of them in turn.
fn each_place(alloc: Global, files: &Files, side: Side, byte: u8) -> Result<(), Fault> {
    let file = files.file(side);
    for place in 0..file.len() {
        let changed = with_byte(alloc, file, place, byte)?;
        read_over(alloc, files, side, &changed)?;
    }
    Ok(())
}

/// `left to 0 1 2`: with each of these bytes at each place of the file it is read as the plain slow
/// program reads it.
pub fn each_change(alloc: Global, files: &Files, text: &str) -> Result<(), Fault> {
    let words = words_of(alloc, text.as_bytes())?;
    let mut input = Input::new(alloc, &words);
    let side = side_of(input.text()?)?;
    input.keyword("to")?;
    for _ in 0..input.len() {
        each_place(alloc, files, side, byte(&mut input)?)?;
    }
    Ok(())
}

// `left by 2 from 34`
#[derive(Clone, Copy, Drop)]
struct Flip {
    side: Side,
    mask: u8,
    first: usize,
}

fn flip_of(input: &mut Input) -> Result<Flip, WordFault> {
    let side = side_of(input.text()?)?;
    input.keyword("by")?;
    let mask = byte(input)?;
    input.keyword("from")?;
    let first = place(input)?;
    Ok(Flip { side, mask, first })
}

// The files with the bits turned round in the byte at a place.
fn flipped(alloc: Global, files: &Files, flip: Flip, place: usize) -> Result<Files, AllocError> {
    let file = files.file(flip.side);
    let byte = file.get(place).copied().unwrap_or(0) ^ flip.mask;
    let file = with_byte(alloc, file, place, byte)?;
    files.with(alloc, flip.side, &file)
}

impl Trial<'_> {
    // Adds the status that the command ends with over the files.
    fn add_status(self, files: &Files, spans: &mut Spans) -> Result<(), Fault> {
        let told = carried_out(self.names, self.command, Start::calm(files))?;
        let answer = told.answer.as_str();
        let status = format!(in self.names.alloc; "status {answer}")?;
        spans.add(self.names.alloc, status.as_str())
    }

    /// `left by 2 from 34 gives 1 status 0, 6 status 9`: how the command ends where these bits are
    /// turned round of one byte after the other.
    pub fn each_flip(self, files: &Files, text: &str) -> Result<(), Fault> {
        let alloc = self.names.alloc;
        let (flip, wanted) = split(text, " gives ")?;
        let flip = read_line(alloc, flip, |input| flip_of(input))?;
        let mut spans = Spans::new(alloc);
        for place in flip.first..files.file(flip.side).len() {
            let files = flipped(alloc, files, flip, place)?;
            self.add_status(&files, &mut spans)?;
        }
        spans.want(alloc, wanted)
    }
}
