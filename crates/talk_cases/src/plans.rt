//! What befalls a world.

use cases::{Input, WordFault, change};
use mail_base::List;
use std::alloc::Global;
use world_mem::{Loss, Plan};

/// A plan by which nothing befalls the world.
pub fn no_plan(alloc: Global) -> Plan {
    Plan {
        disk_fails: List::new(alloc),
        link_fails: List::new(alloc),
        foreign: List::new(alloc),
        stop_after: None,
    }
}

/// `nothing`, `part 3`, `all`, `waits done` or `waits dropped`
pub fn loss(input: &mut Input) -> Result<Loss, WordFault> {
    match input.word()? {
        "nothing" => Ok(Loss::Nothing),
        "part" => Ok(Loss::Part(input.short()?)),
        "all" => Ok(Loss::All),
        "waits" => Ok(Loss::Waits {
            carried: is_done(input)?,
        }),
        _ => Err(WordFault::Form),
    }
}

// Whether what waits is `done` or `dropped`.
fn is_done(input: &mut Input) -> Result<bool, WordFault> {
    match input.word()? {
        "done" => Ok(true),
        "dropped" => Ok(false),
        _ => Err(WordFault::Form),
    }
}

// `drop INBOX 42`
fn add_other(plan: &mut Plan, call: u64, input: &mut Input) -> Result<(), WordFault> {
    let foreign = change(input)?;
    Ok(plan.foreign.push((call, foreign.name, foreign.change))?)
}

/// Adds `link 5 all`, `disk 2`, `other 2 drop INBOX 42` or `stop 2`.
pub fn add_to_plan(plan: &mut Plan, word: &str, input: &mut Input) -> Result<(), WordFault> {
    let call = input.number()?;
    match word {
        "link" => plan.link_fails.push((call, loss(input)?))?,
        "disk" => plan.disk_fails.push(call)?,
        "other" => add_other(plan, call, input)?,
        "stop" => plan.stop_after = Some(call),
        _ => return Err(WordFault::Form),
    }
    Ok(())
}

/// A plan by which the connection is lost in one call.
pub fn losing(alloc: Global, call: u64, loss: Loss) -> Result<Plan, WordFault> {
    let mut plan = no_plan(alloc);
    plan.link_fails.push((call, loss))?;
    Ok(plan)
}
