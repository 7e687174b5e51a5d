//! The rounds in which the actions are played back.

ghost use Rattle.std.specs.Prelude.{◌≡◌, [], IfOk, OnOk};
ghost use Rattle.action_queue.specs.Book.{Meaning};
ghost use Rattle.world_mem.specs.Draws.{next};
ghost use Rattle.mail_drill.specs.Misfortunes.{misfortune_at, nothing_fails, pick_of, plan_of};
ghost use Rattle.mail_drill.specs.Came.{Begins};
ghost use Rattle.mail_drill.specs.Held.{CameToItsEnd};
ghost use Rattle.mail_drill.specs.Rounds.{EndsIn, IsOver, RoundsEnd, RunsTo, TurnsTo};
ghost use Rattle.mail_drill.specs.Standing.{PlaysOn};

use crate::last_round::last_round;
use crate::misfortune::drawn_misfortune;
use crate::orders::words_of;
use crate::played::{Broken, carried_out};
use crate::quiet_world::QuietWorld;
use mail_base::{Account, Bytes, Status};
use std::alloc::{AllocError, Global};
use world_mem::{Draws, Plan};

/// The rounds in which something goes wrong.
pub const MAX_ROUNDS: u32 = 100;

/// How the rounds end.
#[derive(Drop)]
pub enum Ended {
    /// All is played.
    Played,
    /// A limit was passed, and this line was printed.
    Limit(Bytes),
    /// The last round didn't come to its end: its status. Where the actions are those of a drill, that doesn't come.
    Unfinished(Status),
}

// How a round ends.
#[derive(Drop)]
enum Turn {
    Ended(Ended),
    // Something went wrong: it is to be played again.
    Again,
}

/// Plays until all is played: in the first `MAX_ROUNDS` rounds something goes wrong, and then nothing more.
pub fn play_through(
    alloc: Global,
    account: &Account,
    draws: &mut Draws,
    world: Box<QuietWorld>,
) -> Result<(Box<QuietWorld>, Ended), AllocError>
    ensures ends { (b : Meaning) → PlaysOn b world.value → IfOk result (λ both. EndsIn b both.1 both.0.value) }
    ensures over { (b : Meaning) → PlaysOn b world.value → IfOk result (λ both. IsOver both.1) }
    ensures rounds { IfOk result (λ both. RoundsEnd world.value.world draws.old both.1 both.0.value.world) }
{
    let mut world = world;
    let mut pick = None;
    for round in 1..=MAX_ROUNDS {
        let (begun, next) = begun_round(alloc, draws, round, world, pick)?;
        world = begun;
        pick = next;
        match played(alloc, account, &mut world)? {
            Turn::Ended(ended) => return Ok((world, ended)),
            Turn::Again => {}
        }
    }
    // The hundredth round is one of those that are stopped.
    let Some(pick) = pick else { unreachable!() };
    last_round(alloc, account, world, pick)
}

// The world as the round of this number begins, and the pick by which the next one begins, where this one is to be stopped.
fn begun_round(
    alloc: Global,
    draws: &mut Draws,
    round: u32,
    world: Box<QuietWorld>,
    pick: Option<u64>,
) -> Result<(Box<QuietWorld>, Option<u64>), AllocError>
    ensures begins { IfOk result (λ both. Begins pick (plan_of (misfortune_at round draws.old)) world.value.world both.0.value.world) }
    ensures pick { IfOk result (λ both. both.1 ≡ pick_of (misfortune_at round draws.old)) }
    ensures draws { OnOk result (draws.new ≡ next (next draws.old)) }
    ensures plays { (b : Meaning) → PlaysOn b world.value → IfOk result (λ both. PlaysOn b both.0.value) }
{
    let misfortune = drawn_misfortune(draws, round);
    let plan = misfortune.plan(alloc)?;
    let world = entered(alloc, world, pick, plan)?;
    Ok((world, misfortune.pick()))
}

// The world as a round begins: by the pick it goes on from what a stop left.
fn entered(
    alloc: Global,
    world: Box<QuietWorld>,
    pick: Option<u64>,
    plan: Plan,
) -> Result<Box<QuietWorld>, AllocError>
    requires quiet { plan.foreign ≡ [] }
    requires fails { plan ≡ nothing_fails → ⊥ }
    ensures begins { IfOk result (λ new. Begins pick plan world.value.world new.value.world) }
    ensures plays { (b : Meaning) → PlaysOn b world.value → IfOk result (λ new. PlaysOn b new.value) }
{
    match pick {
        Some(pick) => Ok(Box::new(alloc, Box::into_inner(world).restart(pick, plan)?)?),
        None => {
            let mut world = world;
            world.plan(plan);
            Ok(world)
        }
    }
}

// Plays once.
fn played(alloc: Global, account: &Account, world: &mut QuietWorld) -> Result<Turn, AllocError>
    ensures turns { (b : Meaning) → PlaysOn b world.old → IfOk result (λ turn. TurnsTo b turn world.new) }
    ensures runs { IfOk result (λ turn. RunsTo turn world.old.world world.new.world) }
{
    let words = words_of(alloc, &["play"])?;
    match carried_out(alloc, account, &words, Vec::new(alloc), world) {
        Ok(status) => Ok(turn_by(status)),
        Err(Broken::Limit(line)) => Ok(Turn::Ended(Ended::Limit(line))),
        Err(Broken::Unforeseen(status)) => Ok(Turn::Ended(Ended::Unfinished(status))),
        Err(Broken::Memory) => Err(AllocError),
    }
}

// How a round ends whose `play` answered by this status.
fn turn_by(status: Status) -> Turn
    ensures ended { CameToItsEnd status → result ≡ Turn.Ended Ended.Played }
    ensures again { (CameToItsEnd status → ⊥) → result ≡ Turn.Again }
{
    if status == Status::Done {
        return Turn::Ended(Ended::Played);
    }
    if status == Status::Conflicts {
        return Turn::Ended(Ended::Played);
    }
    Turn::Again
}
