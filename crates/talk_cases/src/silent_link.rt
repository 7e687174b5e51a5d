//! The link of a world of a script, of which nothing is told.

ghost use Rattle.std.specs.Prelude.{◌≡◌, ◌≤◌};
ghost use Rattle.world_traits.specs.Calls.{Rose};
ghost use Rattle.world_traits.specs.Counts.{counted};

use std::marker::Model;
use world_mem::ScriptWorld;
use world_traits::{Clocked, Link, LinkFailed};

/// A link over which a script comes. It tells neither files nor a server, as the real one does, so
/// a caller owes no proof of how the connection stands. Contracts see its count of faults.
#[derive(Drop)]
pub struct SilentLink {
    world: ScriptWorld,
    faults: u64,
}

impl Model for SilentLink {
    ghost use Rattle.std.specs.Prelude.{ℕ};

    ghost Value = { ℕ };

    ghost view = { λ link. link.faults };
}

impl SilentLink {
    /// The link of this world.
    pub fn new(world: ScriptWorld) -> SilentLink {
        SilentLink { world, faults: 0 }
    }

    /// The bytes sent in the present connection, or in the last one where there is none.
    pub fn sent(&self) -> &[u8] {
        self.world.sent()
    }

    // Counts a fault of the link, and gives it as the answer of a call.
    fn failed(&mut self) -> LinkFailed
        ensures counts { self.new ≡ counted self.old }
        ensures count { self.old ≤ self.new }
        ensures rose { Rose self.old self.new }
    {
        self.faults = self.faults.saturating_add(1);
        LinkFailed
    }
}

impl Clocked for SilentLink {
    ghost use Rattle.std.specs.Prelude.{[]};
    ghost use Rattle.world_traits.specs.LinkState.{failed_link};
    ghost use Rattle.world_traits.specs.Replay.{start};

    ghost tells_files = { ⊥ };

    ghost tells_server = { ⊥ };

    ghost server_with_files = { λ tells. tells };

    ghost clock = { λ _. (start [] []).clock };

    ghost disk_faults = { λ _. 0 };

    ghost link = { λ link. failed_link link };
}

impl Link for SilentLink {
    ghost honest = { λ link tells c is. absurd tells };

    fn connect(&mut self) -> Result<(), LinkFailed> {
        match self.world.connect() {
            Ok(()) => Ok(()),
            Err(_) => Err(self.failed()),
        }
    }

    fn send(&mut self, bytes: &[u8]) -> Result<(), LinkFailed> {
        match self.world.send(bytes) {
            Ok(()) => Ok(()),
            Err(_) => Err(self.failed()),
        }
    }

    fn recv(&mut self, into: &mut [u8]) -> Result<usize, LinkFailed> {
        match self.world.recv(into) {
            Ok(count) => Ok(count),
            Err(_) => Err(self.failed()),
        }
    }

    fn close(&mut self) {
        self.world.close();
    }
}
