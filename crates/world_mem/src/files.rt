//! The bytes of the two files of a disk.

ghost use Rattle.std.specs.Prelude.{◌≡◌, IfOk};

use mail_base::Bytes;
use std::alloc::AllocError;

/// The bytes of both files: those that a world begins with, or those that a stop leaves.
#[derive(Drop)]
pub struct Files {
    /// The left file's bytes.
    pub left: Bytes,
    /// The right file's bytes.
    pub right: Bytes,
}

impl Files {
    /// The same files once more, or want of memory.
    pub fn copy(&self) -> Result<Files, AllocError>
        ensures { IfOk result (λ files. files ≡ self.now) }
    {
        Ok(Files {
            left: self.left.copy()?,
            right: self.right.copy()?,
        })
    }
}
