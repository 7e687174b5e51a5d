//! A plain slow program beside the definition of an image. It keeps for each byte what became of
//! it, walks the bytes, and shares nothing with the code.

use std::alloc::{AllocError, Global};
use world_traits::Side;

/// One byte of a file: the synced byte, if there is one, what it reads as, and whether a write has
/// covered it since.
#[derive(Clone, Copy)]
pub struct Cell {
    kept: Option<u8>,
    reads: u8,
    covered: bool,
}

/// A call on the files.
#[derive(Drop)]
pub enum Call {
    /// A write of bytes at a place.
    Write(Side, usize, Vec<u8>),
    /// A sync.
    Sync(Side),
}

/// The files that these calls leave.
pub fn cells_after(
    alloc: Global,
    given: &[u8],
    side: Side,
    calls: &[Call],
) -> Result<Vec<Cell>, AllocError> {
    let mut cells = Vec::new(alloc);
    for byte in given {
        cells.push(Cell {
            kept: Some(*byte),
            reads: *byte,
            covered: false,
        })?;
    }
    for call in calls {
        match call {
            Call::Write(on, at, bytes) if *on == side => write(&mut cells, *at, bytes)?,
            Call::Sync(on) if *on == side => sync(&mut cells),
            _ => {}
        }
    }
    Ok(cells)
}

// Grows the file to the place, and then takes one byte after the other.
fn write(cells: &mut Vec<Cell>, at: usize, bytes: &[u8]) -> Result<(), AllocError> {
    reach(cells, at)?;
    for (index, byte) in bytes.iter().enumerate() {
        let place = at.saturating_add(index);
        reach(cells, place.saturating_add(1))?;
        if let Some(cell) = cells.get_mut(place) {
            cell.reads = *byte;
            cell.covered = true;
        }
    }
    Ok(())
}

fn reach(cells: &mut Vec<Cell>, length: usize) -> Result<(), AllocError> {
    for _ in cells.len()..length {
        cells.push(Cell {
            kept: None,
            reads: 0,
            covered: false,
        })?;
    }
    Ok(())
}

fn sync(cells: &mut [Cell]) {
    for cell in cells.iter_mut() {
        cell.kept = Some(cell.reads);
        cell.covered = false;
    }
}

/// The image of both files by a pick.
pub fn image(
    alloc: Global,
    left: &[Cell],
    right: &[Cell],
    pick: u64,
) -> Result<(Vec<u8>, Vec<u8>), AllocError> {
    let mut number = (pick & 0xffff_ffff) as u32;
    let first = one_image(alloc, left, pick, &mut number)?;
    let second = one_image(alloc, right, pick, &mut number)?;
    Ok((first, second))
}

fn one_image(
    alloc: Global,
    cells: &[Cell],
    pick: u64,
    number: &mut u32,
) -> Result<Vec<u8>, AllocError> {
    let mut image = Vec::new(alloc);
    for cell in cells {
        if let Some(byte) = fate(*cell, pick, number) {
            image.push(byte)?;
        }
    }
    Ok(image)
}

// What becomes of a byte: `None` where the file ends before it.
fn fate(cell: Cell, pick: u64, number: &mut u32) -> Option<u8> {
    if pick == 0 {
        return cell.kept;
    }
    if pick == 1 {
        return Some(cell.reads);
    }
    let (Some(kept), false) = (cell.kept, cell.covered) else {
        *number = number.wrapping_mul(69_069).wrapping_add(1);
        return Some(match (*number >> 16) % 3 {
            0 => cell.kept.unwrap_or(0),
            1 => cell.reads,
            _ => 1,
        });
    };
    Some(kept)
}
