//! A shelf in memory of which given calls fail.

ghost use Rattle.std.specs.Prelude.{◌≡◌, ◌≤◌, []};
ghost use Rattle.world_traits.specs.Calls.{Rose};
ghost use Rattle.world_traits.specs.Counts.{counted};

use crate::{GetFault, KeptText, Key, MemShelf, Shelf, ShelfFailed};
use std::alloc::Global;
use std::marker::Model;

/// A `MemShelf` whose calls are numbered from 1, and fail where their number is given or memory is wanting for a text that is to be put. A failure
/// changes no text. A number stands still at 2^64 - 1.
#[derive(Drop)]
pub struct FaultyShelf {
    shelf: MemShelf,
    fails: Vec<u64>,
    calls: u64,
    faults: u64,
}

impl Model for FaultyShelf {
    ghost use Rattle.body_cache.specs.MemTexts.{FaultyTexts};

    ghost Value = { FaultyTexts };

    ghost view = { λ faulty. record {
      shelf = faulty.shelf;
      faults = faulty.faults;
    } };
}

impl FaultyShelf {
    /// A shelf with no text. The calls with these numbers fail. It takes no memory.
    pub fn new(alloc: Global, fails: Vec<u64>) -> FaultyShelf
        ensures shelf { result.shelf ≡ record { texts = []; refused = 0 } }
        ensures faults { result.faults ≡ 0 }
    {
        FaultyShelf {
            shelf: MemShelf::new(alloc),
            fails,
            calls: 0,
            faults: 0,
        }
    }

    /// Gives other calls that are to fail, whose numbers count from now on.
    pub fn plan(&mut self, fails: Vec<u64>)
        ensures { self.new ≡ self.old }
    {
        self.fails = fails;
        self.calls = 0;
    }

    /// How often memory was wanting for a text that was to be put. The count stays at 2^64 - 1, its last value.
    pub fn refused(&self) -> u64
        ensures { result ≡ self.now.shelf.refused }
    {
        self.shelf.refused()
    }

    /// All texts that were put, the last one in front. Of one key the first one counts.
    pub fn texts(&self) -> &[KeptText]
        ensures { result.now ≡ self.now.shelf.texts }
    {
        self.shelf.texts()
    }

    // Counts a call, and says whether it is to fail.
    fn is_planned(&mut self) -> bool
        ensures { self.new ≡ self.old }
    {
        self.calls = self.calls.saturating_add(1);
        self.fails.contains(&self.calls)
    }

    // Counts a failure.
    fn count(&mut self)
        ensures counts { self.new ≡ record self.old { faults = counted self.old.faults } }
        ensures rose { Rose self.old.faults self.new.faults }
        ensures count { self.old.faults ≤ self.new.faults }
    {
        self.faults = self.faults.saturating_add(1);
    }
}

impl Shelf for FaultyShelf {
    ghost tells = { Unit {0} };

    ghost texts = { λ faulty. faulty.shelf.texts };

    ghost shelf_faults = { λ faulty. faulty.faults };

    fn put(&mut self, key: &Key, text: &[u8]) -> Result<(), ShelfFailed> {
        if self.is_planned() {
            self.count();
            return Err(ShelfFailed);
        }
        match self.shelf.put(key, text) {
            Ok(()) => Ok(()),
            Err(ShelfFailed) => {
                self.count();
                Err(ShelfFailed)
            }
        }
    }

    fn get(&mut self, key: &Key) -> Result<Option<Vec<u8>>, GetFault> {
        if self.is_planned() {
            self.count();
            return Err(GetFault::Failed);
        }
        match self.shelf.get(key) {
            Ok(text) => Ok(text),
            Err(_) => Err(GetFault::Memory),
        }
    }
}
