//! What a drill does before its rounds: the journal is set up, the mailboxes are fetched, and the commands are given.

ghost use Rattle.std.specs.Prelude.{◌≡◌, ◌+◌, ◌*◌, ◌≤◌, ◌<◌, ℕ, List, [], false, not, length, map, IfOk, IfErr, OnOk};
ghost use Rattle.action_queue.specs.Book.{Meaning};
ghost use Rattle.mail_drill.specs.Accepted.{accepted};
ghost use Rattle.mail_drill.specs.Answering.{Answers, Awaits};
ghost use Rattle.mail_drill.specs.Counted.{one_more_if};
ghost use Rattle.mail_drill.specs.Orders.{orders_from, behind_orders};
ghost use Rattle.mail_drill.specs.Came.{Runs};
ghost use Rattle.mail_drill.specs.Foreseen.{IsForeseen, NothingAgainst};
ghost use Rattle.mail_drill.specs.Held.{Gives, PassesLimit};
ghost use Rattle.mail_drill.specs.Ran.{Ran};
ghost use Rattle.mail_drill.specs.Standing.{HasAsked, HasOne, IsBrokenAs, Knows};
ghost use Rattle.mail_drill.specs.Beginning.{IsNew};
ghost use Rattle.mail_drill.specs.Texts.{input_of, words_of as order_words};
ghost use Rattle.mail_drill.specs.declared.orders.Order.{Order as AnyOrder};
ghost use Rattle.mail_base.specs.declared.status.Status.{Status as AnyStatus};

use crate::calm_world::CalmWorld;
use crate::orders::{Order, drawn_order, words_of};
use crate::played::{Broken, carried_out_calmly};
use crate::tally::Given;
use mail_base::{Account, Status};
use std::alloc::Global;
use world_mem::Draws;

/// Sets up the journal of both mailboxes, and fetches them.
pub fn set_up(alloc: Global, account: &Account, world: &mut CalmWorld) -> Result<(), Broken>
    ensures done { (size : ℕ) → IsNew size world.old.quiet.world → world.old.quiet.short ≡ false →
        OnOk result ((b : Meaning) × HasOne b world.new.quiet × Knows size b × (b.queue ≡ [])) }
    ensures gives { (size seed : ℕ) → IsNew size world.old.quiet.world → OnOk result (Gives size seed 1 seed world.new.quiet.world) }
    ensures broken { (size seed : ℕ) → IsNew size world.old.quiet.world →
        IfErr result (IsBrokenAs (PassesLimit size seed world.new.quiet.world)) }
    ensures foreseen { (size : ℕ) → IsNew size world.old.quiet.world → IfErr result IsForeseen }
{
    carry_out_well(alloc, account, &["init", "INBOX", "Archive"], world)?;
    carry_out_well(alloc, account, &["play"], world)
}

// Carries out a command that nothing is to be against: it ends with 0.
fn carry_out_well(
    alloc: Global,
    account: &Account,
    texts: &[&str],
    world: &mut CalmWorld,
) -> Result<(), Broken>
    ensures done { OnOk result (Ran account.now (map (λ text. text.now) texts.now) [] world.old.quiet world.new.quiet Status.Done) }
    ensures broken { IfErr result (IsBrokenAs
        (Runs (map (λ text. text.now) texts.now) [] world.old.quiet.world world.new.quiet.world Status.Limit)) }
    ensures foreseen { NothingAgainst account.now (map (λ text. text.now) texts.now) world.old.quiet world.new.quiet → IfErr result IsForeseen }
{
    let words = words_of(alloc, texts)?;
    match carried_out_calmly(alloc, account, &words, Vec::new(alloc), world)? {
        Status::Done => Ok(()),
        status => Err(Broken::Unforeseen(status)),
    }
}

/// Gives twice as many commands as INBOX had messages.
pub fn give_all(
    alloc: Global,
    account: &Account,
    draws: &mut Draws,
    size: u32,
    world: &mut CalmWorld,
) -> Result<Given, Broken>
    requires some { 1 ≤ size }
    requires most { size ≤ 2000 }
    ensures done { (b : Meaning) → HasOne b world.old.quiet → Knows size b → b.queue ≡ [] → IfOk result (λ given. (c : Meaning)
        × HasOne c world.new.quiet × HasAsked (accepted [] (orders_from size (2 * size) 1 draws.old)) c
        × (given.accepted ≡ length c.queue) × (given.accepted + given.refused ≡ 2 * size)) }
    ensures draws { OnOk result (draws.new ≡ behind_orders (2 * size) draws.old) }
    ensures gives { (seed : ℕ) → Gives size seed 1 draws.old world.old.quiet.world →
        OnOk result (Gives size seed (2 * size + 1) draws.new world.new.quiet.world) }
    ensures broken { (seed : ℕ) → Gives size seed 1 draws.old world.old.quiet.world →
        IfErr result (IsBrokenAs (PassesLimit size seed world.new.quiet.world)) }
    ensures foreseen { (b : Meaning) → HasOne b world.old.quiet → Knows size b → b.queue ≡ [] → IfErr result IsForeseen }
{
    let mut given = Given {
        accepted: 0,
        refused: 0,
    };
    for number in 1..2 * size + 1 {
        let order = drawn_order(draws, size, number);
        let accepted = is_accepted(alloc, account, &order, world)?;
        given = counted(given, accepted);
    }
    Ok(given)
}

// Gives one command. Answers whether it was accepted, and not refused for a reason of the book's.
fn is_accepted(
    alloc: Global,
    account: &Account,
    order: &Order,
    world: &mut CalmWorld,
) -> Result<bool, Broken>
    ensures done { IfOk result (λ yes. (size : ℕ) (os : List AnyOrder) (b : Meaning) → Awaits size os order.now b world.old.quiet
        → Answers yes os order.now b world.new.quiet) }
    ensures runs { OnOk result ((s : AnyStatus) × (text : List ℕ)
        × Runs (order_words order.now) (input_of order.now) world.old.quiet.world world.new.quiet.world s text) }
    ensures broken { IfErr result (IsBrokenAs
        (Runs (order_words order.now) (input_of order.now) world.old.quiet.world world.new.quiet.world Status.Limit)) }
    ensures foreseen { (size : ℕ) (os : List AnyOrder) (b : Meaning) → Awaits size os order.now b world.old.quiet → IfErr result IsForeseen }
{
    let words = order.words(alloc)?;
    let input = order.input(alloc)?;
    match carried_out_calmly(alloc, account, &words, input, world)? {
        Status::Done => Ok(true),
        Status::Reason => Ok(false),
        status => Err(Broken::Unforeseen(status)),
    }
}

// The counts with one command more.
fn counted(given: Given, accepted: bool) -> Given
    requires { given.accepted + given.refused < 4000 }
    ensures accepted { result.accepted ≡ one_more_if accepted given.accepted }
    ensures refused { result.refused ≡ one_more_if (not accepted) given.refused }
    ensures all { result.accepted + result.refused ≡ given.accepted + given.refused + 1 }
{
    if accepted {
        return Given {
            accepted: given.accepted + 1,
            refused: given.refused,
        };
    }
    Given {
        accepted: given.accepted,
        refused: given.refused + 1,
    }
}
