//! A list of bytes on the heap.

ghost use Rattle.std.specs.Prelude.{◌≡◌, [], ◌∷◌, ◌++◌, OnOk, OnErr, IfOk};

use std::alloc::{AllocError, Global};
use std::marker::Model;

/// Bytes that a value holds. Contracts see them as a list.
#[derive(Drop)]
pub struct Bytes {
    content: Vec<u8>,
}

impl Model for Bytes {
    ghost use Rattle.std.specs.Prelude.{List, ℕ};

    ghost Value = { List ℕ };

    ghost view = { λ bytes. bytes.content.items };
}

impl Bytes {
    /// No bytes. It takes no memory.
    pub fn new(alloc: Global) -> Bytes
        ensures { result ≡ [] }
    {
        Bytes {
            content: Vec::new(alloc),
        }
    }

    /// The bytes of a `Vec`, which the value then holds. It takes no memory.
    pub fn of(content: Vec<u8>) -> Bytes
        ensures { result ≡ content.items }
    {
        Bytes { content }
    }

    /// The bytes, to read them.
    pub fn as_slice(&self) -> &[u8]
        ensures { result.now ≡ self.now }
    {
        &self.content
    }

    /// Adds bytes at the end. On want of memory nothing is added.
    pub fn extend(&mut self, more: &[u8]) -> Result<(), AllocError>
        ensures done { OnOk result (self.new ≡ self.old ++ more.now) }
        ensures kept { OnErr result (self.new ≡ self.old) }
    {
        self.content.extend_from_slice(more)
    }

    /// The same bytes once more, or want of memory.
    pub fn copy(&self) -> Result<Bytes, AllocError>
        ensures { IfOk result (λ bytes. bytes ≡ self.now) }
    {
        let content = self.content.clone()?;
        Ok(Bytes { content })
    }
}
