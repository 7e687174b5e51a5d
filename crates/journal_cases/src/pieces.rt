//! Journals whose records stand at each place of the piece that is read first, which has 65,536
//! bytes.

use crate::bytes::Names;
use crate::cuts::read_over;
use crate::files::Files;
use cases::{Fault, Input, words_of};
use std::alloc::{AllocError, Global};
use world_traits::Side;

// The most bytes of a record that is made.
const MOST: u32 = 100_000;

// The bytes of a file, a record of so many bytes `a`, and the first bytes of others behind it.
fn grown(alloc: Global, file: &[u8], size: u32, rest: &[u8]) -> Result<Vec<u8>, AllocError> {
    let mut grown = file.to_vec(alloc)?;
    grown.push(1)?;
    grown.extend_from_slice(&size.to_be_bytes())?;
    for _ in 0..size {
        grown.push(b'a')?;
    }
    grown.extend_from_slice(rest)?;
    Ok(grown)
}

// Reads the left file with such a record and each front of the bytes behind it.
fn each_front(alloc: Global, files: &Files, size: u32, rest: &[u8]) -> Result<(), Fault> {
    for end in 0..rest.len().saturating_add(1) {
        let left = grown(alloc, &files.left, size, rest.get(..end).unwrap_or(rest))?;
        read_over(alloc, files, Side::Left, &left)?;
    }
    Ok(())
}

/// `65500 to 65530 before BYTES`: behind the left file stands a record whose body has each of these
/// lengths, and behind that each front of the bytes. They are read as the plain slow program reads
/// them.
pub fn each_length(names: &Names, files: &Files, text: &str) -> Result<(), Fault> {
    let words = words_of(names.alloc, text.as_bytes())?;
    let mut input = Input::new(names.alloc, &words);
    let low = input.short()?;
    input.keyword("to")?;
    let high = input.short()?;
    input.keyword("before")?;
    let rest = names.bytes(&mut input)?;
    if high > MOST {
        return Err(Fault::Form);
    }
    for size in low..high.saturating_add(1) {
        each_front(names.alloc, files, size, &rest)?;
    }
    Ok(())
}
