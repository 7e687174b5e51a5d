//! A plain slow program beside a write of a disk in memory.

use crate::bytes::{Names, place};
use crate::files::Files;
use cases::{Fault, Input, same_bytes};
use std::alloc::{AllocError, Global};
use world_traits::{Disk, MemDisk, Side};

// What a write leaves, byte by byte.
fn put_slowly(alloc: Global, old: &[u8], at: usize, bytes: &[u8]) -> Result<Vec<u8>, AllocError> {
    let mut all = Vec::new(alloc);
    for place in 0..old.len().max(at.saturating_add(bytes.len())) {
        let kept = old.get(place).copied().unwrap_or(0);
        let byte = match place.checked_sub(at) {
            Some(index) => bytes.get(index).copied().unwrap_or(kept),
            None => kept,
        };
        all.push(byte)?;
    }
    Ok(all)
}

// Whether the left file takes bytes at a place.
fn writes<D: Disk>(disk: &mut D, at: usize, bytes: &[u8]) -> bool {
    at <= 65_536 && bytes.len() <= 65_536 && disk.write_at(Side::Left, at as u64, bytes).is_ok()
}

// What a write to a disk with this left file leaves.
fn put(alloc: Global, old: &[u8], at: usize, bytes: &[u8]) -> Result<Files, Fault> {
    let mut disk = MemDisk::new(old.to_vec(alloc)?, Vec::new(alloc));
    if !writes(&mut disk, at, bytes) {
        return Err(Fault::Memory);
    }
    Ok(Files::of(alloc, disk.bytes(Side::Left), disk.bytes(Side::Right))?)
}

// A write to a file leaves what byte by byte would, and the other file empty.
fn is_put(alloc: Global, old: &[u8], at: usize, bytes: &[u8]) -> Result<(), Fault> {
    let slow = put_slowly(alloc, old, at, bytes)?;
    let files = put(alloc, old, at, bytes)?;
    same_bytes(alloc, &slow, &files.left)?;
    same_bytes(alloc, b"", &files.right)
}

// The same of each front of the bytes.
fn each_front(alloc: Global, old: &[u8], at: usize, bytes: &[u8]) -> Result<(), Fault> {
    for size in 0..bytes.len().saturating_add(1) {
        is_put(alloc, old, at, bytes.get(..size).unwrap_or(bytes))?;
    }
    Ok(())
}

// The same at each place below the last one.
fn each_place(alloc: Global, old: &[u8], bytes: &[u8], last: usize) -> Result<(), Fault> {
    for at in 0..last {
        each_front(alloc, old, at, bytes)?;
    }
    Ok(())
}

/// `write BYTES over OLD below 7`: each front of the bytes is written over each front of the old
/// ones, at each place below the last one.
pub fn each_write(names: &Names, input: &mut Input<'_>) -> Result<(), Fault> {
    input.keyword("write")?;
    let bytes = names.bytes(input)?;
    input.keyword("over")?;
    let old = names.bytes(input)?;
    input.keyword("below")?;
    let last = place(input)?;
    for length in 0..old.len().saturating_add(1) {
        each_place(names.alloc, old.get(..length).unwrap_or(&old), &bytes, last)?;
    }
    Ok(())
}
