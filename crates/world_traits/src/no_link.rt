//! A link to no server.

ghost use Rattle.std.specs.Prelude.{◌≡◌, ◌≤◌};
ghost use Rattle.world_traits.specs.Calls.{Rose};
ghost use Rattle.world_traits.specs.Counts.{counted};

use crate::LinkFailed;
use std::marker::Model;

/// The count of faults of a link to no server, each call of which fails. It serves objects that
/// have a disk alone.
#[derive(Drop)]
pub struct NoLink {
    faults: u64,
}

impl Model for NoLink {
    ghost use Rattle.std.specs.Prelude.{ℕ};

    ghost Value = { ℕ };

    ghost view = { λ link. link.faults };
}

impl NoLink {
    /// A link that has not failed yet.
    pub fn new() -> NoLink
        ensures { result ≡ 0 }
    {
        NoLink { faults: 0 }
    }

    /// How often it has failed. The count never falls, and stays at 2^64 - 1, its last value.
    pub fn faults(&self) -> u64
        ensures { result ≡ self.now }
    {
        self.faults
    }

    /// Counts a fault, and gives it as the answer of a call.
    pub fn fail(&mut self) -> LinkFailed
        ensures counts { self.new ≡ counted self.old }
        ensures count { self.old ≤ self.new }
        ensures rose { Rose self.old self.new }
    {
        self.faults = self.faults.saturating_add(1);
        LinkFailed
    }
}
