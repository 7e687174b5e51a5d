//! What a stop may leave of a file, by a pick.

use std::alloc::{AllocError, Global};

/// What befalls the bytes that were written since the last sync.
#[derive(Clone, Copy)]
pub enum Pick {
    /// So many halves of what was added are there, and each byte that changed has these bits turned
    /// round.
    Halves { halves: usize, mask: u8 },
    /// Each is 1, as an open gate is.
    Ones,
    /// By a draw each is as it was, as it was written, or 1. The draws begin at this number.
    Drawn(u32),
}

/// A file between two syncs: the bytes of the last one, what it reads as, and the places that were
/// written since, each of which has a 1.
#[derive(Clone, Copy)]
pub struct Torn<'a> {
    pub synced: &'a [u8],
    pub now: &'a [u8],
    pub touched: &'a [u8],
}

// The next one of the draws.
fn next_draw(state: u32) -> u32 {
    state.wrapping_mul(1_664_525).wrapping_add(1_013_904_223)
}

impl Torn<'_> {
    // How many bytes a stop leaves.
    fn length(&self, pick: Pick) -> usize {
        let Pick::Halves { halves, .. } = pick else {
            return self.now.len();
        };
        let added = self.now.len().saturating_sub(self.synced.len());
        let kept = added.saturating_mul(halves) / 2;
        self.synced.len().saturating_add(kept)
    }

    // What a byte becomes that reads so, by a pick and what was drawn.
    fn torn_byte(&self, at: usize, now: u8, pick: Pick, draw: u32) -> u8 {
        let is_touched = self.touched.get(at) == Some(&1);
        match pick {
            Pick::Halves { mask, .. } if self.synced.get(at) != Some(&now) => now ^ mask,
            Pick::Ones if is_touched => 1,
            Pick::Drawn(_) if is_touched => self.drawn(at, now, draw),
            _ => now,
        }
    }

    fn drawn(&self, at: usize, written: u8, draw: u32) -> u8 {
        match (draw >> 16) % 3 {
            0 => self.synced.get(at).copied().unwrap_or(0),
            1 => written,
            _ => 1,
        }
    }

    /// What a stop leaves of it by a pick.
    pub fn left_by(&self, alloc: Global, pick: Pick) -> Result<Vec<u8>, AllocError> {
        let mut state = match pick {
            Pick::Drawn(first) => first,
            _ => 0,
        };
        let length = self.length(pick);
        let mut left = Vec::new(alloc);
        for (at, byte) in self.now.iter().enumerate() {
            if at >= length {
                break;
            }
            state = next_draw(state);
            left.push(self.torn_byte(at, *byte, pick, state))?;
        }
        Ok(left)
    }
}

/// Puts a 1 at so many places from this one on.
pub fn touch(touched: &mut Vec<u8>, at: usize, size: usize) -> Result<(), AllocError> {
    let end = at.saturating_add(size);
    if touched.len() < end {
        touched.resize(end, 0)?;
    }
    for place in at..end {
        if let Some(mark) = touched.get_mut(place) {
            *mark = 1;
        }
    }
    Ok(())
}
