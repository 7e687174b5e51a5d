//! A list of values on the heap.

ghost use Rattle.std.specs.Prelude.{◌≡◌, ◌<◌, [], ◌∷◌, ◌++◌, OnOk, OnErr, length, slice_set};

use std::alloc::{AllocError, Global};
use std::marker::Model;

/// Values in order. Contracts see them as a list. A type that holds one copies it item by item.
#[derive(Drop)]
pub struct List<T> {
    content: Vec<T>,
}

impl<T> Model for List<T> {
    ghost use Rattle.std.specs.Prelude.{List};

    ghost Value = { List T };

    ghost view = { λ list. list.content.items };
}

impl<T> List<T> {
    /// No items. It takes no memory.
    pub fn new(alloc: Global) -> Self
        ensures { result ≡ [] }
    {
        List {
            content: Vec::new(alloc),
        }
    }

    /// The items of a `Vec`, which the value then holds. It takes no memory.
    pub fn of(content: Vec<T>) -> Self
        ensures { result ≡ content.items }
    {
        List { content }
    }

    /// How many items there are.
    pub fn len(&self) -> usize
        ensures { result ≡ length self.now }
    {
        self.content.len()
    }

    /// The items, to read them.
    pub fn as_slice(&self) -> &[T]
        ensures { result.now ≡ self.now }
    {
        &self.content
    }

    /// The allocator that the list keeps.
    pub fn allocator(&self) -> Global {
        *self.content.allocator()
    }

    /// The items, given up to change them.
    pub fn into_vec(self) -> Vec<T>
        ensures { result.items ≡ self }
    {
        self.content
    }
}

impl<T: Drop> List<T> {
    /// Adds an item at the end. On want of memory the list stays, and the item is given up.
    pub fn push(&mut self, item: T) -> Result<(), AllocError>
        ensures done { OnOk result (self.new ≡ self.old ++ item ∷ []) }
        ensures kept { OnErr result (self.new ≡ self.old) }
    {
        self.content.push(item)?;
        Ok(())
    }

    /// Puts an item in place of the one there, counted from 0. It takes no memory.
    pub fn put(&mut self, at: usize, item: T)
        requires { at < length self.old }
        ensures { self.new ≡ slice_set self.old at item }
    {
        self.content[at] = item;
    }
}
