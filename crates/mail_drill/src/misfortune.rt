//! What goes wrong in a round.

ghost use Rattle.std.specs.Prelude.{◌≡◌, ◌<◌, IfOk, Some};
ghost use Rattle.world_mem.specs.Draws.{next};
ghost use Rattle.mail_drill.specs.Misfortunes.{misfortune_at, loss_of, plan_of, pick_of, nothing_fails};

use mail_base::List;
use std::alloc::{AllocError, Global};
use world_mem::{Draws, Loss, Plan};

/// A plan by which nothing goes wrong. It takes no memory.
pub fn no_plan(alloc: Global) -> Plan
    ensures { result ≡ nothing_fails }
{
    Plan {
        disk_fails: List::new(alloc),
        link_fails: List::new(alloc),
        foreign: List::new(alloc),
        stop_after: None,
    }
}

/// What goes wrong in a round.
#[derive(Clone, Copy, Debug, PartialEq, Eq)]
pub enum Misfortune {
    /// The program stops after so many calls, and a pick says what the stop leaves of the files.
    Stop { calls: u64, pick: u64 },
    /// The connection is lost in the call of the link of this number.
    Lost { call: u64, loss: Loss },
}

/// What goes wrong in the round of this number: each fourth one is stopped.
pub fn drawn_misfortune(draws: &mut Draws, round: u32) -> Misfortune
    ensures misfortune { result ≡ misfortune_at round draws.old }
    ensures draws { draws.new ≡ next (next draws.old) }
{
    let call = 1 + u64::from(draws.below(400));
    let second = draws.below(3);
    if round % 4 == 0 {
        return Misfortune::Stop {
            calls: call,
            pick: u64::from(second),
        };
    }
    Misfortune::Lost {
        call,
        loss: loss_of(second),
    }
}

// How much of a call arrives.
fn loss_of(draw: u32) -> Loss
    ensures { result ≡ loss_of draw }
{
    match draw {
        0 => Loss::Nothing,
        1 => Loss::Part(10),
        _ => Loss::All,
    }
}

impl Misfortune {
    /// The round's plan.
    pub fn plan(&self, alloc: Global) -> Result<Plan, AllocError>
        ensures { IfOk result (λ plan. plan ≡ plan_of self.now) }
    {
        let mut plan = no_plan(alloc);
        match self {
            Misfortune::Stop { calls, .. } => plan.stop_after = Some(*calls),
            Misfortune::Lost { call, loss } => plan.link_fails.push((*call, *loss))?,
        }
        Ok(plan)
    }

    /// The pick by which the next round begins, where this one was stopped.
    pub fn pick(&self) -> Option<u64>
        ensures { result ≡ pick_of self.now }
    {
        match self {
            Misfortune::Stop { pick, .. } => Some(*pick),
            Misfortune::Lost { .. } => None,
        }
    }
}
