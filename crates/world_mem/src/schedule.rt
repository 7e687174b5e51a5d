//! A plan, and how far it has come.

ghost use Rattle.std.specs.Prelude.{◌≡◌, ◌↔◌, IsTrue};
ghost use Rattle.world_mem.specs.Planned.{unbegun, next_disk, next_link, loss_in, IsStopped, DiskIsToFail};

use crate::{Loss, Plan};
use imap_model::Change;
use mail_base::{BoxName, List};
use std::marker::Model;

/// A plan, with the calls of the disk, those of the link, and all calls since it was given. The counts stay at 2^64 - 1, their last value.
#[derive(Drop)]
pub(crate) struct Schedule {
    plan: Plan,
    disk: u64,
    link: u64,
    all: u64,
}

impl Model for Schedule {
    ghost use Rattle.world_mem.specs.Planned.{Planned};

    ghost Value = { Planned };

    ghost view = { λ s. record { plan = s.plan; disk = s.disk; link = s.link; all = s.all } };
}

impl Schedule {
    /// A plan in which no call was counted.
    pub fn new(plan: Plan) -> Schedule
        ensures { result ≡ unbegun plan }
    {
        Schedule {
            plan,
            disk: 0,
            link: 0,
            all: 0,
        }
    }

    // Whether the last call came after the world had stopped.
    fn is_stopped(&self) -> bool
        ensures { IsTrue result ↔ IsStopped self.now }
    {
        match self.plan.stop_after {
            Some(calls) => self.all > calls,
            None => false,
        }
    }

    /// Counts a call of the disk, and says whether it is to fail.
    pub fn next_disk(&mut self) -> bool
        ensures next { self.new ≡ next_disk self.old }
        ensures planned { IsTrue result ↔ DiskIsToFail self.new }
    {
        self.disk = self.disk.saturating_add(1);
        self.all = self.all.saturating_add(1);
        if self.is_stopped() {
            return true;
        }
        self.plan.disk_fails.as_slice().contains(&self.disk)
    }

    /// Counts a call of the link, and says whether the world had stopped before it.
    pub fn next_link(&mut self) -> bool
        ensures next { self.new ≡ next_link self.old }
        ensures stopped { IsTrue result ↔ IsStopped self.new }
    {
        self.link = self.link.saturating_add(1);
        self.all = self.all.saturating_add(1);
        self.is_stopped()
    }

    /// How the connection is lost in the last call of the link, if it is.
    pub fn loss(&self) -> Option<Loss>
        ensures { result ≡ loss_in self.now.plan.link_fails self.now.link }
    {
        first_loss(self.plan.link_fails.as_slice(), self.link)
    }

    /// What others change, each with the number of its call of the link.
    pub fn foreign(&self) -> &[(u64, BoxName, Change)]
        ensures { result.now ≡ self.now.plan.foreign }
    {
        self.plan.foreign.as_slice()
    }

    /// The number of the last call of the link.
    pub fn link(&self) -> u64
        ensures { result ≡ self.now.link }
    {
        self.link
    }
}

// The first of these losses that is planned for a call.
fn first_loss(losses: &[(u64, Loss)], call: u64) -> Option<Loss>
    ensures { result ≡ loss_in losses.now call }
{
    for (number, loss) in losses {
        if *number == call {
            return Some(*loss);
        }
    }
    None
}
