//! Numbers with a name and a range: UIDVALIDITY (RFC 9051, section 2.3.1.1), mod-sequences (RFC 7162, section 3.1),
//! and the numbers of the user's actions.

ghost use Rattle.std.specs.Prelude.{◌≡◌, ◌<◌, ◌↔◌, ◌⊎◌, ◌≤◌, ◌^◌, ℕ, IsNone, IfSome};

use std::marker::Model;

/// The UIDVALIDITY of a mailbox: a nonzero 32-bit number. UIDs mean the same messages only while it stays the same.
#[derive(Clone, Copy, Debug, PartialEq, Eq, PartialOrd, Ord, Hash)]
pub struct Validity {
    number: u32,
}

impl Model for Validity {
    ghost Value = { ℕ };

    ghost view = { λ validity. validity.number };

    ghost invariant = { λ validity. 0 < validity.number };

    ghost inverse = { λ n. record { number = n } };
}

impl Validity {
    /// The UIDVALIDITY of this number. `None` exactly at 0.
    pub fn new(number: u32) -> Option<Validity>
        ensures zero { IsNone result ↔ (number ≡ 0) }
        ensures value { IfSome result (λ validity. validity ≡ number) }
    {
        if number == 0 {
            None
        } else {
            Some(Validity { number })
        }
    }

    /// Its number.
    pub fn number(self) -> u32
        ensures value { result ≡ self }
        ensures nonzero { 0 < result }
    {
        self.number
    }
}

/// A mod-sequence: a number from 1 to 2^63 - 1. Each change to a message gives it a greater one.
#[derive(Clone, Copy, Debug, PartialEq, Eq, PartialOrd, Ord, Hash)]
pub struct ModSeq {
    number: u64,
}

impl Model for ModSeq {
    ghost Value = { ℕ };

    ghost view = { λ modseq. modseq.number };

    ghost invariant = { λ modseq. (0 < modseq.number) × (modseq.number < 2 ^ 63) };

    ghost inverse = { λ n. record { number = n } };
}

impl ModSeq {
    /// The mod-sequence of this number. `None` exactly at 0 and above 2^63 - 1.
    pub fn new(number: u64) -> Option<ModSeq>
        ensures outside { IsNone result ↔ ((number ≡ 0) ⊎ (2 ^ 63 ≤ number)) }
        ensures value { IfSome result (λ modseq. modseq ≡ number) }
    {
        if number == 0 || number >= 1 << 63 {
            None
        } else {
            Some(ModSeq { number })
        }
    }

    /// Its number.
    pub fn number(self) -> u64
        ensures value { result ≡ self }
        ensures nonzero { 0 < result }
        ensures within { result < 2 ^ 63 }
    {
        self.number
    }
}

/// The number of an accepted action: 1 for the first one of a journal, and one more for each further one.
#[derive(Clone, Copy, Debug, PartialEq, Eq, PartialOrd, Ord, Hash)]
pub struct ActionId {
    number: u32,
}

impl Model for ActionId {
    ghost Value = { ℕ };

    ghost view = { λ id. id.number };

    ghost invariant = { λ id. 0 < id.number };

    ghost inverse = { λ n. record { number = n } };
}

impl ActionId {
    /// The action of this number. `None` exactly at 0.
    pub fn new(number: u32) -> Option<ActionId>
        ensures zero { IsNone result ↔ (number ≡ 0) }
        ensures value { IfSome result (λ id. id ≡ number) }
    {
        if number == 0 {
            None
        } else {
            Some(ActionId { number })
        }
    }

    /// Its number.
    pub fn number(self) -> u32
        ensures value { result ≡ self }
        ensures nonzero { 0 < result }
    {
        self.number
    }
}
