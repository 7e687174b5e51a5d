//! The last round of a drill, in which nothing goes wrong.

ghost use Rattle.std.specs.Prelude.{◌≡◌, IfOk};
ghost use Rattle.action_queue.specs.Book.{Meaning};
ghost use Rattle.mail_top.specs.CompletePlay.{HasEachBox};
ghost use Rattle.mail_top.specs.KeptNow.{IsKeptNow};
ghost use Rattle.mail_drill.specs.Connected.{Untouched};
ghost use Rattle.mail_drill.specs.Held.{CameToItsEnd};
ghost use Rattle.mail_drill.specs.Rounds.{EndsIn, IsLastRound, IsOver, RunsLast};
ghost use Rattle.mail_drill.specs.Standing.{PlaysOn, clock_of, now_of, seen_of};

use crate::calm_world::CalmWorld;
use crate::misfortune::no_plan;
use crate::orders::words_of;
use crate::played::{Broken, carried_out_calmly};
use crate::quiet_world::QuietWorld;
use crate::rounds::Ended;
use mail_base::{Account, Status};
use std::alloc::{AllocError, Global};

/// The round behind the hundred in which something goes wrong: it goes on from what the stop of the last one left, and plays all.
pub fn last_round(
    alloc: Global,
    account: &Account,
    world: Box<QuietWorld>,
    pick: u64,
) -> Result<(Box<QuietWorld>, Ended), AllocError>
    ensures ends { (b : Meaning) → PlaysOn b world.value → IfOk result (λ both. EndsIn b both.1 both.0.value) }
    ensures over { (b : Meaning) → PlaysOn b world.value → IfOk result (λ both. IsOver both.1) }
    ensures round { IfOk result (λ both. IsLastRound pick world.value.world both.1 both.0.value.world) }
{
    let begun = Box::into_inner(world).restart(pick, no_plan(alloc))?;
    let mut calm = Box::new(alloc, CalmWorld::new(begun))?;
    let ended = played_out(alloc, account, &mut calm)?;
    let left = Box::new(alloc, Box::into_inner(calm).into_quiet())?;
    Ok((left, ended))
}

// Plays once, in a world in which nothing fails.
fn played_out(alloc: Global, account: &Account, world: &mut CalmWorld) -> Result<Ended, AllocError>
    ensures ends { (b : Meaning) → PlaysOn b world.old.quiet → IfOk result (λ ended. EndsIn b ended world.new.quiet) }
    ensures over { IsKeptNow (now_of world.old.quiet) → Untouched (clock_of world.old.quiet)
        → HasEachBox (seen_of world.old.quiet) (now_of world.old.quiet).outside.server → IfOk result IsOver }
    ensures runs { IfOk result (λ ended. RunsLast ended world.old.quiet.world world.new.quiet.world) }
{
    let words = words_of(alloc, &["play"])?;
    match carried_out_calmly(alloc, account, &words, Vec::new(alloc), world) {
        Ok(status) => Ok(ended_by(status)),
        Err(Broken::Limit(line)) => Ok(Ended::Limit(line)),
        Err(Broken::Unforeseen(status)) => Ok(Ended::Unfinished(status)),
        Err(Broken::Memory) => Err(AllocError),
    }
}

// How the round ends by the status of its `play`.
fn ended_by(status: Status) -> Ended
    ensures ended { CameToItsEnd status → result ≡ Ended.Played }
    ensures unfinished { (CameToItsEnd status → ⊥) → result ≡ Ended.Unfinished status }
{
    if status == Status::Done {
        return Ended::Played;
    }
    if status == Status::Conflicts {
        return Ended::Played;
    }
    Ended::Unfinished(status)
}
