//! One call of a top call, and what is shown of it.

use crate::any_world::AnyWorld;
use crate::muted_run::run_muted;
use crate::next_run::{NextRun, no_plan};
use crate::playing::is_line_end;
use crate::stand::Stand;
use body_cache::read_run;
use cases::{Answer, WordFault};
use mail_base::Status;
use mail_top::run;
use std::alloc::Global;
use world_traits::{FaultySink, FaultySource, Link};

/// Runs the top call that the words pick in a world, whose server and files may go wrong by the
/// plan, and shows what came of it.
pub fn run_in(
    alloc: Global,
    stand: &mut Stand,
    words: &[String],
    next: NextRun,
    page: &mut Answer,
) -> Result<(), WordFault> {
    let NextRun {
        input,
        plan,
        source_fails,
        sink_fails,
        shelf_fails,
    } = next;
    let mut input = FaultySource::new(input, source_fails);
    let mut out = FaultySink::new(alloc, sink_fails);
    stand.world.begin_run(plan);
    stand.shelf.plan(shelf_fails);
    let status = called(alloc, words, stand, &mut input, &mut out);
    stand.world.end_run(no_plan(alloc));
    if stand.world.world().refused() > 0 || stand.shelf.refused() > 0 {
        return Err(WordFault::Memory);
    }
    show_run(page, words, status, &out)
}

// The top call that the first word picks, as in the program.
fn called(
    alloc: Global,
    words: &[String],
    stand: &mut Stand,
    input: &mut FaultySource,
    out: &mut FaultySink,
) -> Status {
    if is_reading(words) {
        read_run(
            alloc,
            words,
            &stand.account,
            &mut stand.world,
            &mut stand.shelf,
            out,
        )
    } else {
        played(alloc, words, stand, input, out)
    }
}

// Whether the words ask for a text, or for what is kept of it.
fn is_reading(words: &[String]) -> bool {
    match words.first() {
        Some(first) => matches!(first.as_str(), "fetch" | "show" | "dates"),
        None => false,
    }
}

// The top call, without its clauses but at a muted server, whose connection is closed here.
fn played(
    alloc: Global,
    words: &[String],
    stand: &mut Stand,
    input: &mut FaultySource,
    out: &mut FaultySink,
) -> Status {
    match stand.world.world_mut() {
        AnyWorld::Muted(world) => {
            let status = run_muted(alloc, words, &stand.account, input, world, out);
            world.close();
            status
        }
        AnyWorld::Served(_) | AnyWorld::Scripted(_) => {
            run(alloc, words, &stand.account, input, &mut stand.world, out)
        }
    }
}

// What is shown of a run. Where the output was refused room, what it has isn't what was printed.
fn show_run(
    page: &mut Answer,
    words: &[String],
    status: Status,
    out: &FaultySink,
) -> Result<(), WordFault> {
    if out.refused() > 0 {
        return Err(WordFault::Memory);
    }
    put_command(page, words)?;
    put_printed(page, out.bytes())?;
    page.word("=")?;
    page.number(u64::from(status.code()))?;
    page.end_line()
}

fn put_command(page: &mut Answer, words: &[String]) -> Result<(), WordFault> {
    page.word(">")?;
    for word in words {
        page.text(word.as_bytes())?;
    }
    page.end_line()
}

// Each printed line, as it stands. The last one may be without its LF.
fn put_printed(page: &mut Answer, printed: &[u8]) -> Result<(), WordFault> {
    let lines = match printed {
        [] => return Ok(()),
        [lines @ .., b'\n'] => lines,
        lines => lines,
    };
    for line in lines.split(is_line_end) {
        page.raw(b"| ")?;
        page.raw(line)?;
        page.end_line()?;
    }
    Ok(())
}
