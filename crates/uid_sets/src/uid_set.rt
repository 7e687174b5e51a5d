//! A set of UIDs as its rising list of ranges (RFC 9051, sections 2.3.1.1 and 9).

ghost use Rattle.std.specs.Prelude.{◌≡◌, ◌≤◌, ◌↔◌, ◌⊎◌, ℕ, List, [], IsTrue, OnOk, OnErr, IfOk, IfErr, IfSome, IfNone, IsErrOf};
ghost use Rattle.uid_sets.specs.UidSet.{Member, IsCanonical, IsOnly};
ghost use Rattle.uid_sets.specs.SequenceSet.{Spells, Refuses, items_of};
ghost use Rattle.uid_sets.specs.Spelling.{set_text};
ghost use Rattle.uid_sets.specs.declared.uid.UidRange.{UidRange};
ghost use Rattle.uid_sets.specs.declared.set_fault.SetFault.{SetFault};

use super::canonical::is_canonical;
use super::join::join;
use super::merge::{difference_of, rest_of, union_of};
use super::search::holds;
use super::sequence_set::ranges_of;
use super::set_fault::SetFault;
use super::spelling::text_of;
use super::uid::{Uid, UidRange};
use std::alloc::{AllocError, Global};
use std::marker::Model;

/// A set of UIDs. It keeps the ranges of its members, rising, so that no two overlap or touch, and never a list of
/// the members: `1:4294967295` costs one range.
#[derive(Debug, Drop)]
pub struct UidSet {
    ranges: Vec<UidRange>,
}

impl Model for UidSet {
    ghost Value = { List UidRange };

    ghost view = { λ set. set.ranges.items };

    ghost invariant = { λ set. IsCanonical set.ranges.items };
}

impl UidSet {
    /// The empty set. It takes no memory.
    pub fn none(alloc: Global) -> UidSet
        ensures { result ≡ [] }
    {
        UidSet {
            ranges: Vec::new(alloc),
        }
    }

    /// The set of these ranges, where they are the list of one: they rise, each of nonzero UIDs with its ends in order, and
    /// between neighbours there is a UID that neither has. It takes no memory.
    pub fn of(ranges: Vec<UidRange>) -> Option<UidSet>
        ensures some { IfSome result (λ set. (set ≡ ranges.items) × IsCanonical ranges.items) }
        ensures none { IfNone result (¬ IsCanonical ranges.items) }
    {
        if is_canonical(&ranges) {
            Some(UidSet { ranges })
        } else {
            None
        }
    }

    /// Reads a sequence-set without `*`: numbers, and ranges with their ends in either order, in any order.
    pub fn read(alloc: Global, text: &[u8]) -> Result<UidSet, SetFault>
        ensures value { IfOk result (Spells text.now) }
        ensures fault { IfErr result (Refuses text.now) }
        ensures empty { IsErrOf result SetFault.Empty ↔ (text.now ≡ []) }
    {
        if text.is_empty() {
            return Err(SetFault::Empty);
        }
        let ranges = ranges_of(alloc, text)?;
        Ok(UidSet { ranges })
    }

    /// The ranges of the members, rising.
    pub fn ranges(&self) -> &[UidRange]
        ensures value { result.now ≡ self.now }
        ensures canonical { IsCanonical self.now }
    {
        &self.ranges
    }

    /// Whether the set has no member.
    pub fn is_empty(&self) -> bool
        ensures value { IsTrue result ↔ (self.now ≡ []) }
        ensures members { IsTrue result ↔ ((uid : ℕ) → ¬ Member self.now uid) }
    {
        self.ranges.is_empty()
    }

    /// Whether the UID is a member, by a binary search.
    pub fn contains(&self, uid: Uid) -> bool
        ensures { IsTrue result ↔ Member self.now uid }
    {
        holds(&self.ranges, uid.number())
    }

    /// The member, where there is exactly one.
    pub fn only(&self) -> Option<Uid>
        ensures value { IfSome result (IsOnly self.now) }
        ensures none { IfNone result ((uid : ℕ) → ¬ IsOnly self.now uid) }
    {
        if self.ranges.len() != 1 {
            return None;
        }
        let range = self.ranges[0];
        if range.low != range.high {
            return None;
        }
        Uid::new(range.low)
    }

    /// The one text of the set: its ranges in order with commas between, a range of one as one number, and no number
    /// with leading zeros. That of the empty set has no bytes.
    pub fn text(&self) -> Result<Vec<u8>, AllocError>
        ensures text { IfOk result (λ text. text.items ≡ set_text self.now) }
        ensures spells { IfOk result (λ text. ¬ (self.now ≡ []) → Spells text.items self.now) }
    {
        text_of(*self.ranges.allocator(), &self.ranges)
    }

    /// An equal set.
    pub fn copy(&self) -> Result<UidSet, AllocError>
        ensures { IfOk result (λ copy. copy ≡ self.now) }
    {
        let ranges = Vec::from_slice(*self.ranges.allocator(), &self.ranges)?;
        Ok(UidSet { ranges })
    }

    /// Adds a UID: in constant time where none of the ranges begins behind it, and else in one walk over them.
    pub fn add(&mut self, uid: Uid) -> Result<(), AllocError>
        ensures canonical { IsCanonical self.new }
        ensures members { OnOk result ((other : ℕ) → Member self.new other
            ↔ (Member self.old other ⊎ (other ≡ uid))) }
        ensures kept { OnErr result (self.new ≡ self.old) }
    {
        let range = UidRange {
            low: uid.number(),
            high: uid.number(),
        };
        let count = self.ranges.len();
        if count == 0 || self.ranges[count - 1].low <= range.low {
            return join(&mut self.ranges, range);
        }
        self.ranges = union_of(*self.ranges.allocator(), &self.ranges, &[range])?;
        Ok(())
    }

    /// The members of either set, in one walk over both.
    pub fn union(&self, other: &UidSet) -> Result<UidSet, AllocError>
        ensures canonical { IfOk result IsCanonical }
        ensures members { IfOk result (λ union. (uid : ℕ) → Member union uid
            ↔ (Member self.now uid ⊎ Member other.now uid)) }
    {
        let ranges = union_of(*self.ranges.allocator(), &self.ranges, &other.ranges)?;
        Ok(UidSet { ranges })
    }

    /// The members that `other` lacks, in one walk over both.
    pub fn minus(&self, other: &UidSet) -> Result<UidSet, AllocError>
        ensures canonical { IfOk result IsCanonical }
        ensures members { IfOk result (λ rest. (uid : ℕ) → Member rest uid
            ↔ (Member self.now uid × ¬ Member other.now uid)) }
    {
        let ranges = difference_of(*self.ranges.allocator(), &self.ranges, &other.ranges)?;
        Ok(UidSet { ranges })
    }

    /// The members of at least `low`.
    pub fn from(&self, low: Uid) -> Result<UidSet, AllocError>
        ensures canonical { IfOk result IsCanonical }
        ensures members { IfOk result (λ rest. (uid : ℕ) → Member rest uid
            ↔ (Member self.now uid × (low ≤ uid))) }
    {
        let ranges = rest_of(*self.ranges.allocator(), &self.ranges, low.number())?;
        Ok(UidSet { ranges })
    }
}

/// Two canonical lists with the same members are one list, so a clause on the members pins a set whole.
pub fn one_form()
    ensures { (left right : List UidRange) → IsCanonical left → IsCanonical right
        → ((uid : ℕ) → Member left uid ↔ Member right uid) → left ≡ right }
{}

/// A text spells one set at most, so what is read is the set that the text spells, and no text has a fault beside it.
pub fn one_reading()
    ensures same { (text : List ℕ) (left right : List UidRange) → Spells text left → Spells text right → left ≡ right }
    ensures refused { (text : List ℕ) (ranges : List UidRange) (fault : SetFault) → Spells text ranges
        → ¬ (items_of text ≡ Err fault) }
{}
