//! An exchange over a world that is cut in one call and made again in full.

use crate::acts::appended;
use crate::plans::{losing, no_plan};
use crate::said::{Who, said, whose};
use crate::setup::Setup;
use crate::world_calls::{closes, connects, receives, restarted, sends};
use cases::{Fault, Line, WordFault, differs};
use std::alloc::Global;
use world_mem::{Loss, MemWorld};

// Receives once.
fn answers(world: &mut MemWorld) -> bool {
    let mut into = [0; 1024];
    receives(world, &mut into).is_some()
}

// Makes the call of a line. The first of the server's lines behind another line is a call; the next
// ones come in it.
fn calls(
    alloc: Global,
    world: &mut MemWorld,
    text: &str,
    answered: bool,
) -> Result<bool, WordFault> {
    match whose(text) {
        Some(Who::Client) => Ok(sends(world, &said(alloc, text)?)),
        Some(Who::Server) => Ok(answered || answers(world)),
        None if text == "connect" => Ok(connects(world)),
        None if text == "close" => {
            closes(world);
            Ok(true)
        }
        None => Ok(true),
    }
}

// Whether each call of the lines is made.
fn exchange(alloc: Global, world: &mut MemWorld, lines: &[Line]) -> Result<bool, WordFault> {
    let mut answered = false;
    for line in lines {
        let text = line.text.as_str();
        if !calls(alloc, world, text, answered)? {
            return Ok(false);
        }
        answered = matches!(whose(text), Some(Who::Server));
    }
    Ok(true)
}

// Makes the exchange up to the call that fails.
fn breaks_off(alloc: Global, world: &mut MemWorld, lines: &[Line]) -> Result<(), Fault> {
    if exchange(alloc, world, lines)? {
        return Err(differs(alloc, b"a failure", b"an exchange"));
    }
    Ok(())
}

// Makes it in full, and says how many messages came.
fn is_made(alloc: Global, world: &mut MemWorld, lines: &[Line]) -> Result<u64, Fault> {
    if !exchange(alloc, world, lines)? {
        return Err(differs(alloc, b"an exchange", b"a failure"));
    }
    Ok(appended(world.server()))
}

/// Cuts the exchange of a case in one call, makes it again behind that, and says how many messages
/// came in both.
pub fn cut(
    alloc: Global,
    mut setup: Setup,
    lines: &[Line],
    call: u64,
    loss: Loss,
) -> Result<u64, Fault> {
    setup.plan = losing(alloc, call, loss)?;
    let mut world = setup.into_world()?;
    breaks_off(alloc, &mut world, lines)?;
    let mut world = restarted(alloc, world, 0, no_plan(alloc))?;
    is_made(alloc, &mut world, lines)
}
