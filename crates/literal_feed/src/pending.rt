//! Bytes that came and were not yet taken.

ghost use Rattle.std.specs.Prelude.{◌≡◌, ◌≤◌, [], ◌++◌, length, drop, OnOk, OnErr};

use std::alloc::{AllocError, Global};
use std::marker::Model;

/// Bytes that wait, of which the first ones may be given up.
#[derive(Drop)]
pub(crate) struct Pending {
    bytes: Vec<u8>,
    given_up: usize,
}

impl Model for Pending {
    ghost use Rattle.std.specs.Prelude.{List, ℕ, ◌≤◌, drop, length};

    ghost Value = { List ℕ };

    ghost view = { λ pending. drop pending.given_up pending.bytes.items };

    ghost invariant = { λ pending. pending.given_up ≤ length pending.bytes.items };
}

impl Pending {
    /// No bytes. It takes no memory.
    pub(crate) fn new(alloc: Global) -> Pending
        ensures { result ≡ [] }
    {
        Pending {
            bytes: Vec::new(alloc),
            given_up: 0,
        }
    }

    /// The bytes, to read them.
    pub(crate) fn as_slice(&self) -> &[u8]
        ensures { result.now ≡ self.now }
    {
        &self.bytes[self.given_up..]
    }

    /// Adds bytes at the end. On want of memory nothing is added.
    pub(crate) fn extend(&mut self, more: &[u8]) -> Result<(), AllocError>
        ensures done { OnOk result (self.new ≡ self.old ++ more.now) }
        ensures kept { OnErr result (self.new ≡ self.old) }
    {
        self.bytes.extend_from_slice(more)
    }

    /// Gives up the first bytes. What is left moves only where it is no more than what was given up since it last moved,
    /// so that each byte moves seldom.
    pub(crate) fn give_up(&mut self, count: usize)
        requires { count ≤ length self.old }
        ensures { self.new ≡ drop count self.old }
    {
        self.given_up += count;
        if self.given_up >= self.bytes.len() - self.given_up {
            self.bytes.drain(..self.given_up);
            self.given_up = 0;
        }
    }
}
