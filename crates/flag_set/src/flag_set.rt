//! A set of flags: the keys of the flags that a message has (RFC 9051, section 2.3.2).

ghost use Rattle.std.specs.Prelude.{◌≡◌, ◌↔◌, ◌⊎◌, ◌≤◌, ℕ, List, [], ◌∷◌, All, Contains, IsTrue, not, true, None, Some, IfErr, IfOk, OnOk, is_ok, length, if◌then◌else◌};
ghost use Rattle.std.specs.Cmp.{partial_equiv_from_equiv};
ghost use Rattle.std.specs.Cmp.Lexicographic.{lists_equiv, nat_list_eq_equiv, pointwise};
ghost use Rattle.std.specs.List.{list_all};
ghost use Rattle.std.specs.Str.{bytes_eq};
ghost use Rattle.flag_set.specs.FlagKey.{recent};
ghost use Rattle.flag_set.specs.FlagList.{HasNoFault, IsFirstFault, excess, first_fault_of, flags_of, keep, set_of};
ghost use Rattle.flag_set.specs.FlagSet.{IsFlagSet, IsGap, has, put, union, minus};
ghost use Rattle.flag_set.specs.FlagText.{list_text};

use crate::flag_fault::{FlagFault, MAX_FLAGS};
use crate::flag_key::FlagKey;
use crate::flag_list::first_flag;
use crate::key_list::KeyList;
use crate::key_runs::{joined, lacking, merged};
use std::alloc::{AllocError, Global};
use std::marker::Model;

/// A set of flags, seen as the list of its keys, which rises by their bytes.
#[derive(Debug, Drop)]
pub struct FlagSet {
    keys: KeyList,
}

impl Model for FlagSet {
    ghost Value = { List (List ℕ) };

    ghost view = { λ set. set.keys };

    ghost invariant = { λ set. IsFlagSet set.keys };
}

impl FlagSet {
    /// The empty set, which takes no memory.
    pub fn none(alloc: Global) -> FlagSet
        ensures { result ≡ [] }
    {
        FlagSet {
            keys: KeyList::new(alloc),
        }
    }

    /// Reads the text between the parentheses of a flag list (RFC 9051, section 9, flag-list): flags with one or more
    /// spaces between them. `\Recent` is dropped, and no bytes are the empty set. The first flag that is refused is
    /// told: by `TooLong` or `BadFlag` of that flag, or by `TooMany` where its key is one above `MAX_FLAGS`. A space at
    /// an end stands beside an empty flag, which is `BadFlag` 0. Each flag takes a binary search and one insertion.
    pub fn read_list(alloc: Global, text: &[u8]) -> Result<FlagSet, FlagFault>
        ensures value { IfOk result (λ set. set ≡ set_of (flags_of text.now)) }
        ensures few { IfOk result (λ set. length set ≤ MAX_FLAGS) }
        ensures accepted { OnOk result (HasNoFault (flags_of text.now)) }
        ensures refused { IfErr result (λ fault.
            IsFirstFault (flags_of text.now) fault ⊎ (fault ≡ FlagFault.Memory)) }

        // The same as an equation, for a reader that stands on this one.
        ensures none { OnOk result (first_fault_of (flags_of text.now) ≡ None) }
        ensures some { IfErr result (λ fault.
            (first_fault_of (flags_of text.now) ≡ Some fault) ⊎ (fault ≡ FlagFault.Memory)) }
    {
        let mut set = FlagSet::none(alloc);
        let mut left = if text.is_empty() { None } else { Some(text) };
        while let Some(list) = left {
            let (flag, later) = first_flag(list);
            set.keep(FlagKey::new(alloc, flag)?)?;
            left = later;
        }
        Ok(set)
    }

    // Takes a flag of a list that is read.
    pub(crate) fn keep(&mut self, key: FlagKey) -> Result<(), FlagFault>
        requires { length self.old ≤ MAX_FLAGS }
        ensures value { OnOk result (self.new ≡ keep key self.old) }
        ensures within { OnOk result (length self.new ≤ MAX_FLAGS) }
        ensures accepted { OnOk result (excess (keep key self.old) ≡ None) }
        ensures refused { IfErr result (λ fault.
            (excess (keep key self.old) ≡ Some fault) ⊎ (fault ≡ FlagFault.Memory)) }
    {
        if key.is_recent() {
            return Ok(());
        }
        self.add(key)?;
        if self.len() > MAX_FLAGS {
            return Err(FlagFault::TooMany {
                count: MAX_FLAGS + 1,
            });
        }
        Ok(())
    }

    /// The keys, rising by their bytes.
    pub fn keys(&self) -> &[FlagKey]
        ensures value { result.now ≡ self.now }
        ensures set { IsFlagSet self.now }
    {
        self.keys.as_slice()
    }

    /// How many keys the set has.
    pub fn len(&self) -> usize
        ensures { result ≡ length self.now }
    {
        self.keys.as_slice().len()
    }

    /// Whether the set has no key.
    pub fn is_empty(&self) -> bool
        ensures { IsTrue result ↔ (self.now ≡ []) }
    {
        self.keys.as_slice().is_empty()
    }

    /// Whether the set has the key: a binary search.
    pub fn holds(&self, key: &FlagKey) -> bool
        ensures value { result ≡ has self.now key.now }
        ensures member { IsTrue result ↔ Contains self.now key.now }
    {
        self.place(key).is_ok()
    }

    /// Whether the set has each key of the other: a binary search for each of these.
    pub fn holds_all(&self, other: &FlagSet) -> bool
        ensures value { result ≡ list_all (λ key. has self.now key) other.now }
        ensures members { IsTrue result ↔ All (λ key. Contains self.now key) other.now }
    {
        self.holds_each(other.keys())
    }

    fn holds_each(&self, keys: &[FlagKey]) -> bool
        ensures { result ≡ list_all (λ key. has self.now key) keys.now }
    {
        keys.iter().all(|key| self.holds(key))
    }

    /// Whether the set has no key of the other: a binary search for each of these.
    pub fn holds_none(&self, other: &FlagSet) -> bool
        ensures value { result ≡ list_all (λ key. not (has self.now key)) other.now }
        ensures members { IsTrue result ↔ All (λ key. ¬ Contains self.now key) other.now }
    {
        self.lacks_each(other.keys())
    }

    fn lacks_each(&self, keys: &[FlagKey]) -> bool
        ensures { result ≡ list_all (λ key. not (has self.now key)) keys.now }
    {
        keys.iter().all(|key| !self.holds(key))
    }

    /// Adds a key: a binary search, and one insertion where it isn't there. For want of memory the set stays as it was.
    pub fn add(&mut self, key: FlagKey) -> Result<(), AllocError>
        ensures value { self.new ≡ (if is_ok result then put key self.old else self.old) }
        ensures members { OnOk result ((k : List ℕ) → Contains self.new k ↔ ((k ≡ key) ⊎ Contains self.old k)) }
    {
        if let Err(at) = self.place(&key) {
            self.keys.insert(at, key)?;
        }
        Ok(())
    }

    /// The keys of either set: one merge. Fails for want of memory alone.
    pub fn with(&self, other: &FlagSet) -> Result<FlagSet, AllocError>
        ensures value { IfOk result (λ set. set ≡ union self.now other.now) }
        ensures members { IfOk result (λ set.
            (k : List ℕ) → Contains set k ↔ (Contains self.now k ⊎ Contains other.now k)) }
    {
        Ok(FlagSet {
            keys: KeyList::of(merged(self.keys.allocator(), self.keys(), other.keys())?),
        })
    }

    /// The keys of this set that the other doesn't have: a binary search in the other for each. Fails for want of
    /// memory alone.
    pub fn without(&self, other: &FlagSet) -> Result<FlagSet, AllocError>
        ensures value { IfOk result (λ set. set ≡ minus self.now other.now) }
        ensures members { IfOk result (λ set.
            (k : List ℕ) → Contains set k ↔ (Contains self.now k × (¬ Contains other.now k))) }
    {
        Ok(FlagSet {
            keys: KeyList::of(lacking(self.keys.allocator(), self.keys(), other)?),
        })
    }

    /// The flags as they are written, with one space between, which `read_list` reads again. Fails for want of memory
    /// alone.
    pub fn text(&self) -> Result<Vec<u8>, AllocError>
        ensures value { IfOk result (λ text. text.items ≡ list_text self.now) }

        // What is read again is this set, but for `\Recent`, which a list doesn't keep.
        ensures again { IfOk result (λ text. set_of (flags_of text.items) ≡ minus self.now (recent ∷ [])) }
        ensures readable { length self.now ≤ MAX_FLAGS → IfOk result (λ text. HasNoFault (flags_of text.items)) }
    {
        joined(self.keys.allocator(), self.keys())
    }

    /// A set with the same keys. Fails for want of memory alone.
    pub fn copy(&self) -> Result<FlagSet, AllocError>
        ensures { IfOk result (λ set. set ≡ self.now) }
    {
        Ok(FlagSet {
            keys: self.keys.copy()?,
        })
    }

    // Where the key stands, or where it would go.
    fn place(&self, key: &FlagKey) -> Result<usize, usize>
        ensures found { OnOk result (has self.now key.now ≡ true) }
        ensures gap { IfErr result (IsGap self.now key.now) }
        ensures set { IsFlagSet self.now }
    {
        self.keys.as_slice().binary_search(key)
    }
}

/// Sets are equal where they have the same keys.
impl PartialEq for FlagSet {
    ghost eq = { pointwise bytes_eq };

    ghost laws = { partial_equiv_from_equiv (lists_equiv nat_list_eq_equiv) };

    fn eq(&self, other: &FlagSet) -> bool
        ensures value { result ≡ pointwise bytes_eq self.now other.now }
        ensures same { IsTrue result ↔ (self.now ≡ other.now) }
        ensures members { IsTrue result ↔ ((k : List ℕ) → Contains self.now k ↔ Contains other.now k) }
    {
        self.keys.as_slice() == other.keys.as_slice()
    }
}

impl Eq for FlagSet {
    ghost laws = { lists_equiv nat_list_eq_equiv };
}
