//! The world that a run works on.

ghost use Rattle.std.specs.Prelude.{◌≡◌, ◌≤◌};
ghost use Rattle.world_traits.specs.Calls.{Rose};
ghost use Rattle.world_traits.specs.Counts.{counted};

use crate::any_world::AnyWorld;
use std::marker::Model;
use world_mem::Plan;
use world_traits::{Clocked, Disk, DiskFailed, Link, LinkFailed, Side, World};

/// A world that tells neither files nor a server, as the real one does: a run over it owes no proof
/// of how the connection stands. Contracts see how often its disk and its link failed.
#[derive(Drop)]
pub struct SilentWorld {
    world: AnyWorld,
    disk_faults: u64,
    link_faults: u64,
    // Whether the link was called since the run began.
    is_linked: bool,
}

impl Model for SilentWorld {
    ghost use Rattle.mail_scenario.specs.Silent.{Faults};

    ghost Value = { Faults };

    ghost view = { λ silent. record { disk = silent.disk_faults; link = silent.link_faults } };
}

impl SilentWorld {
    /// This world, in which no call has failed.
    pub fn new(world: AnyWorld) -> SilentWorld {
        SilentWorld {
            world,
            disk_faults: 0,
            link_faults: 0,
            is_linked: false,
        }
    }

    /// The world, of which more is told.
    pub fn world(&self) -> &AnyWorld {
        &self.world
    }

    /// The world, to be changed between runs.
    pub fn world_mut(&mut self) -> &mut AnyWorld {
        &mut self.world
    }

    /// The world alone.
    pub fn into_world(self) -> AnyWorld {
        self.world
    }

    /// Begins a run, in which this goes wrong.
    pub fn begin_run(&mut self, plan: Plan) {
        self.world.plan(plan);
        self.is_linked = false;
    }

    /// Ends a run. A run leaves its connection as it ended, so where the link was called it is
    /// closed here, as the run's last call of it. Then nothing goes wrong any more, by this plan.
    pub fn end_run(&mut self, plan: Plan) {
        if self.is_linked {
            self.world.close();
        }
        self.world.plan(plan);
    }

    // Counts a fault of the disk, and gives it as the answer of a call.
    fn fail_disk(&mut self) -> DiskFailed
        ensures counts { self.new.disk ≡ counted self.old.disk }
        ensures count { self.old.disk ≤ self.new.disk }
        ensures rose { Rose self.old.disk self.new.disk }
        ensures link { self.new.link ≡ self.old.link }
    {
        self.disk_faults = self.disk_faults.saturating_add(1);
        DiskFailed
    }

    // Counts a fault of the link, and gives it as the answer of a call.
    fn fail_link(&mut self) -> LinkFailed
        ensures counts { self.new.link ≡ counted self.old.link }
        ensures count { self.old.link ≤ self.new.link }
        ensures rose { Rose self.old.link self.new.link }
        ensures disk { self.new.disk ≡ self.old.disk }
    {
        self.link_faults = self.link_faults.saturating_add(1);
        LinkFailed
    }
}

impl Clocked for SilentWorld {
    ghost use Rattle.std.specs.Prelude.{[]};
    ghost use Rattle.world_traits.specs.LinkState.{failed_link};
    ghost use Rattle.world_traits.specs.Replay.{start};

    ghost tells_files = { ⊥ };

    ghost tells_server = { ⊥ };

    ghost server_with_files = { λ tells. tells };

    ghost clock = { λ silent. (start [] []).clock };

    ghost disk_faults = { λ silent. silent.disk };

    ghost link = { λ silent. failed_link silent.link };
}

impl Disk for SilentWorld {
    ghost use Rattle.std.specs.Prelude.{[]};

    ghost seen = { λ silent. record { left = []; right = [] } };

    ghost seen_is = { λ silent tells. absurd tells };

    fn length(&mut self, side: Side) -> Result<u64, DiskFailed> {
        match self.world.length(side) {
            Ok(length) => Ok(length),
            Err(_) => Err(self.fail_disk()),
        }
    }

    fn read(&mut self, side: Side, at: u64, into: &mut [u8]) -> Result<usize, DiskFailed> {
        match self.world.read(side, at, into) {
            Ok(count) => Ok(count),
            Err(_) => Err(self.fail_disk()),
        }
    }

    fn write_at(&mut self, side: Side, at: u64, bytes: &[u8]) -> Result<(), DiskFailed> {
        match self.world.write_at(side, at, bytes) {
            Ok(()) => Ok(()),
            Err(_) => Err(self.fail_disk()),
        }
    }

    fn sync(&mut self, side: Side) -> Result<(), DiskFailed> {
        match self.world.sync(side) {
            Ok(()) => Ok(()),
            Err(_) => Err(self.fail_disk()),
        }
    }
}

impl Link for SilentWorld {
    ghost honest = { λ silent tells c is. absurd tells };

    fn connect(&mut self) -> Result<(), LinkFailed> {
        self.is_linked = true;
        match self.world.connect() {
            Ok(()) => Ok(()),
            Err(_) => Err(self.fail_link()),
        }
    }

    fn send(&mut self, bytes: &[u8]) -> Result<(), LinkFailed> {
        self.is_linked = true;
        match self.world.send(bytes) {
            Ok(()) => Ok(()),
            Err(_) => Err(self.fail_link()),
        }
    }

    fn recv(&mut self, into: &mut [u8]) -> Result<usize, LinkFailed> {
        self.is_linked = true;
        match self.world.recv(into) {
            Ok(count) => Ok(count),
            Err(_) => Err(self.fail_link()),
        }
    }

    // A run that closes its connection by itself needs no further call.
    fn close(&mut self) {
        self.is_linked = false;
        self.world.close();
    }
}

impl World for SilentWorld {}
