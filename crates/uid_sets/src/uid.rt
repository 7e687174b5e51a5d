//! The UIDs of one mailbox under one UIDVALIDITY (RFC 9051, section 2.3.1.1).

ghost use Rattle.std.specs.Prelude.{◌≡◌, ◌<◌, ◌≤◌, ◌↔◌, ◌^◌, ℕ, IsTrue, IsNone, IfSome};
ghost use Rattle.uid_sets.specs.Uid.{IsWithin};

use std::marker::Model;

/// A message's unique identifier: a nonzero 32-bit number.
#[derive(Clone, Copy, Debug, PartialEq, Eq, PartialOrd, Ord, Hash)]
pub struct Uid {
    number: u32,
}

impl Model for Uid {
    ghost Value = { ℕ };

    ghost view = { λ uid. uid.number };

    ghost invariant = { λ uid. (0 < uid.number) × (uid.number < 2 ^ 32) };

    ghost inverse = { λ n. record { number = n } };
}

impl Uid {
    /// The UID of this number: `None` exactly at 0.
    pub fn new(number: u32) -> Option<Uid>
        ensures zero { IsNone result ↔ (number ≡ 0) }
        ensures value { IfSome result (λ uid. uid ≡ number) }
    {
        if number == 0 {
            None
        } else {
            Some(Uid { number })
        }
    }

    /// Its number, which is not 0.
    pub fn number(self) -> u32
        ensures value { result ≡ self }
        ensures nonzero { 0 < self }
        ensures fits { self < 2 ^ 32 }
    {
        self.number
    }
}

/// The UIDs from `low` to `high`, both included (`seq-range` of RFC 9051, section 9).
#[derive(Clone, Copy, Debug, PartialEq, Eq)]
pub struct UidRange {
    /// The least UID.
    pub low: u32,
    /// The greatest UID.
    pub high: u32,
}

impl UidRange {
    /// Whether the UID is one of the range, whose ends belong to it.
    pub fn contains(&self, uid: Uid) -> bool
        ensures { IsTrue result ↔ IsWithin self.now.low self.now.high uid }
    {
        self.low <= uid.number && uid.number <= self.high
    }
}
