//! The keys of a set, of which one alone lies in the value itself.

ghost use Rattle.std.specs.Prelude.{◌≡◌, ◌≤◌, [], ◌∷◌, insert, length, IfOk, OnErr, OnOk};

use crate::flag_key::FlagKey;
use crate::key_runs::copied;
use std::alloc::{AllocError, Global};
use std::marker::Model;
use std::slice;

/// Keys in order. No key and one key take no memory of their own.
#[derive(Debug, Drop)]
pub(crate) struct KeyList {
    kept: Kept,
}

// Where the keys lie.
#[derive(Debug, Drop)]
enum Kept {
    One(FlagKey),
    Several(Vec<FlagKey>),
}

impl Model for KeyList {
    ghost use Rattle.std.specs.Prelude.{List, ℕ};
    ghost use Rattle.flag_set.specs.KeyRuns.{kept_keys};

    ghost Value = { List (List ℕ) };

    ghost view = { λ list. kept_keys list.kept };
}

impl KeyList {
    /// No keys.
    pub(crate) fn new(alloc: Global) -> KeyList
        ensures { result ≡ [] }
    {
        KeyList::of(Vec::new(alloc))
    }

    /// The keys of a `Vec`.
    pub(crate) fn of(keys: Vec<FlagKey>) -> KeyList
        ensures { result ≡ keys.items }
    {
        KeyList {
            kept: Kept::Several(keys),
        }
    }

    /// The keys, to read them.
    pub(crate) fn as_slice(&self) -> &[FlagKey]
        ensures { result.now ≡ self.now }
    {
        match &self.kept {
            Kept::One(key) => slice::from_ref(key),
            Kept::Several(keys) => keys,
        }
    }

    /// The allocator of the keys.
    pub(crate) fn allocator(&self) -> Global {
        match &self.kept {
            Kept::One(key) => key.allocator(),
            Kept::Several(keys) => *keys.allocator(),
        }
    }

    /// Puts a key at a place. On want of memory nothing changes.
    pub(crate) fn insert(&mut self, at: usize, key: FlagKey) -> Result<(), AllocError>
        requires { at ≤ length self.old }
        ensures done { OnOk result (self.new ≡ insert self.old at key) }
        ensures kept { OnErr result (self.new ≡ self.old) }
    {
        if self.as_slice().is_empty() {
            self.kept = Kept::One(key);
            return Ok(());
        }
        match &mut self.kept {
            Kept::Several(keys) => {
                keys.insert(at, key)?;
            }
            Kept::One(only) => {
                let both = beside(only, at, key)?;
                self.kept = Kept::Several(both);
            }
        }
        Ok(())
    }

    /// The same keys once more. Fails for want of memory alone.
    pub(crate) fn copy(&self) -> Result<KeyList, AllocError>
        ensures { IfOk result (λ list. list ≡ self.now) }
    {
        let kept = match &self.kept {
            Kept::One(key) => Kept::One(key.copy()?),
            Kept::Several(keys) => Kept::Several(copied(*keys.allocator(), keys)?),
        };
        Ok(KeyList { kept })
    }
}

// A key and, at a place before or behind it, another one.
fn beside(only: &FlagKey, at: usize, key: FlagKey) -> Result<Vec<FlagKey>, AllocError>
    requires { at ≤ 1 }
    ensures { IfOk result (λ both. both.items ≡ insert (only.now ∷ []) at key) }
{
    let mut both = Vec::with_capacity(only.allocator(), 4)?;
    both.push(only.copy()?)?;
    both.insert(at, key)?;
    Ok(both)
}
