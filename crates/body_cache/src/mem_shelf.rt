//! A shelf in memory.

ghost use Rattle.std.specs.Prelude.{◌≡◌, ◌≤◌, [], ◌∷◌, OnErr, OnOk, option_map};
ghost use Rattle.world_traits.specs.Calls.{Rose};
ghost use Rattle.world_traits.specs.Counts.{counted};
ghost use Rattle.body_cache.specs.Shelf.{text_at};

use crate::{GetFault, KeptText, Key, Shelf, ShelfFailed};
use mail_base::Bytes;
use std::alloc::{AllocError, Global};
use std::marker::Model;

/// A shelf in memory, for tests. A call fails where memory is wanting for it.
///
/// Contracts see its texts, the one that was put last in front, and how often it was refused memory for a text that was to be put.
#[derive(Drop)]
pub struct MemShelf {
    alloc: Global,
    // The one that was put last in front. The first one of a key counts.
    texts: Vec<KeptText>,
    refused: u64,
}

impl Model for MemShelf {
    ghost use Rattle.body_cache.specs.MemTexts.{MemTexts};

    ghost Value = { MemTexts };

    ghost view = { λ shelf. record { texts = shelf.texts.items; refused = shelf.refused } };
}

impl MemShelf {
    /// A shelf with no text. It takes no memory.
    pub fn new(alloc: Global) -> MemShelf
        ensures { result ≡ record { texts = []; refused = 0 } }
    {
        MemShelf {
            alloc,
            texts: Vec::new(alloc),
            refused: 0,
        }
    }

    /// How often memory was wanting for a text that was to be put. The count stays at 2^64 - 1, its last value.
    pub fn refused(&self) -> u64
        ensures { result ≡ self.now.refused }
    {
        self.refused
    }

    /// All texts that were put, the last one in front. Of one key the first one counts.
    pub fn texts(&self) -> &[KeptText]
        ensures { result.now ≡ self.now.texts }
    {
        &self.texts
    }

    // Puts a copy of a text in front of the others.
    fn push(&mut self, key: &Key, text: &[u8]) -> Result<(), AllocError>
        ensures done { OnOk result (self.new ≡ record self.old
            { texts = record { key = key.now; text = text.now } ∷ self.old.texts }) }
        ensures kept { OnErr result (self.new ≡ self.old) }
    {
        let copy = Vec::from_slice(self.alloc, text)?;
        let kept = KeptText {
            key: key.copy(),
            text: Bytes::of(copy),
        };
        self.texts.insert(0, kept)?;
        Ok(())
    }

    // Counts that memory was wanting for a text that was to be put.
    fn count(&mut self)
        ensures counts { self.new ≡ record self.old { refused = counted self.old.refused } }
        ensures rose { Rose self.old.refused self.new.refused }
        ensures count { self.old.refused ≤ self.new.refused }
    {
        self.refused = self.refused.saturating_add(1);
    }
}

impl Shelf for MemShelf {
    ghost use Rattle.std.specs.Prelude.{◌≡◌};

    ghost tells = { Unit {0} };

    ghost texts = { λ shelf. shelf.texts };

    ghost shelf_faults = { λ shelf. shelf.refused };

    fn put(&mut self, key: &Key, text: &[u8]) -> Result<(), ShelfFailed> {
        match self.push(key, text) {
            Ok(()) => Ok(()),
            Err(AllocError) => {
                self.count();
                Err(ShelfFailed)
            }
        }
    }

    fn get(&mut self, key: &Key) -> Result<Option<Vec<u8>>, GetFault> {
        match text_in(&self.texts, key) {
            Some(text) => match Vec::from_slice(self.alloc, text) {
                Ok(copy) => Ok(Some(copy)),
                Err(AllocError) => Err(GetFault::Memory),
            },
            None => Ok(None),
        }
    }
}

// The first text of a key.
fn text_in<'a>(texts: &'a [KeptText], key: &Key) -> Option<&'a [u8]>
    ensures { option_map (λ text. text.now) result ≡ text_at key.now texts.now }
{
    for kept in texts {
        if kept.key.is_same(key) {
            return Some(kept.text.as_slice());
        }
    }
    None
}
