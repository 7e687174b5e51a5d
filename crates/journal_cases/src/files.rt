//! The two files of a disk.

use cases::WordFault;
use std::alloc::{AllocError, Global};
use world_traits::{MemDisk, Side};

/// What both files hold.
#[derive(Drop)]
pub struct Files {
    pub left: Vec<u8>,
    pub right: Vec<u8>,
}

impl Files {
    /// Two empty files.
    pub fn empty(alloc: Global) -> Files {
        Files {
            left: Vec::new(alloc),
            right: Vec::new(alloc),
        }
    }

    /// Copies of these.
    pub fn of(alloc: Global, left: &[u8], right: &[u8]) -> Result<Files, AllocError> {
        let left = left.to_vec(alloc)?;
        let right = right.to_vec(alloc)?;
        Ok(Files { left, right })
    }

    /// What a file holds.
    pub fn file(&self, side: Side) -> &[u8] {
        match side {
            Side::Left => self.left.as_slice(),
            Side::Right => self.right.as_slice(),
        }
    }

    /// A file, to be changed.
    pub fn file_mut(&mut self, side: Side) -> &mut Vec<u8> {
        match side {
            Side::Left => &mut self.left,
            Side::Right => &mut self.right,
        }
    }

    /// Whether both are the same.
    pub fn are(&self, others: &Files) -> bool {
        self.left.as_slice() == others.left.as_slice()
            && self.right.as_slice() == others.right.as_slice()
    }

    /// The same with another file in place of one of them.
    pub fn with(&self, alloc: Global, side: Side, file: &[u8]) -> Result<Files, AllocError> {
        match side {
            Side::Left => Files::of(alloc, file, &self.right),
            Side::Right => Files::of(alloc, &self.left, file),
        }
    }

    /// A disk that has them, and on which they count as synced.
    pub fn disk(&self, alloc: Global) -> Result<MemDisk, AllocError> {
        let left = self.left.to_vec(alloc)?;
        let right = self.right.to_vec(alloc)?;
        Ok(MemDisk::new(left, right))
    }
}

/// The file of a name.
pub fn side_of(word: &[u8]) -> Result<Side, WordFault> {
    match word {
        b"left" => Ok(Side::Left),
        b"right" => Ok(Side::Right),
        _ => Err(WordFault::Form),
    }
}
