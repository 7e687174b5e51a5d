//! Which calls of an object in memory are to fail.

ghost use Rattle.std.specs.Prelude.{◌≡◌, ◌↔◌, IsTrue};
ghost use Rattle.world_traits.specs.Counts.{unbegun, next_call, IsPlanned};

use std::marker::Model;

/// The numbers of the calls that are to fail, counted from 1, and how many calls there were.
#[derive(Drop)]
pub struct FailPlan {
    fails: Vec<u64>,
    calls: u64,
}

impl Model for FailPlan {
    ghost use Rattle.world_traits.specs.Counts.{Plan};

    ghost Value = { Plan };

    ghost view = { λ plan. record { fails = plan.fails.items; calls = plan.calls } };
}

impl FailPlan {
    /// A plan that no call has counted in.
    pub fn new(fails: Vec<u64>) -> FailPlan
        ensures { result ≡ unbegun fails.items }
    {
        FailPlan { fails, calls: 0 }
    }

    /// Counts a call, and says whether it is to fail. The cost is the length of the list.
    pub fn next(&mut self) -> bool
        ensures next { self.new ≡ next_call self.old }
        ensures planned { IsTrue result ↔ IsPlanned self.new }
    {
        self.calls = self.calls.saturating_add(1);
        self.fails.contains(&self.calls)
    }
}
