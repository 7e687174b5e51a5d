//! The drill.

ghost use Rattle.std.specs.Prelude.{◌≡◌, ◌⊎◌, ◌↔◌, ◌≤◌, ◌+◌, ◌*◌, ◌++◌, ℕ, List, [], false, None, Some, IfOk, IfErr, OnOk, IsSome, length, map, string_bytes};
ghost use Rattle.mail_base.specs.Lines.{error_memory, error_words};
ghost use Rattle.world_traits.specs.Calls.{Rose};
ghost use Rattle.world_mem.specs.declared.mem_world.MemWorld.{MemWorld as AnyWorld};
ghost use Rattle.mail_drill.specs.Drilled.{EndsBy, IsDrilled};
ghost use Rattle.mail_drill.specs.Foreseen.{IsForeseen};
ghost use Rattle.mail_drill.specs.Held.{Gives, PassesLimit};
ghost use Rattle.action_queue.specs.Book.{Meaning};
ghost use Rattle.mail_drill.specs.Accepted.{accepted};
ghost use Rattle.mail_drill.specs.Beginning.{IsNew};
ghost use Rattle.mail_drill.specs.Orders.{orders_from, orders_of};
ghost use Rattle.mail_drill.specs.Standing.{HasAsked, HasOne, IsBrokenAs};
ghost use Rattle.mail_drill.specs.Tasks.{WritesTask};
ghost use Rattle.mail_drill.specs.declared.task.Task.{Task as AnyTask};

use crate::account::account_of;
use crate::beginning::{give_all, set_up};
use crate::calm_world::CalmWorld;
use crate::examining::{counts_in, vec_of};
use crate::played::Broken;
use crate::quiet_world::QuietWorld;
use crate::rounds::{Ended, play_through};
use crate::served::world_of;
use crate::tally::Given;
use crate::task::{Task, task_of};
use crate::telling::line_of;
use mail_base::{Account, Bytes, Line, Status};
use std::alloc::{AllocError, Global};
use world_mem::{Draws, MemWorld};
use world_traits::Sink;

// A drill that came to an end: its last world, the line to print, and the status.
#[derive(Drop)]
struct Ending {
    world: Box<QuietWorld>,
    line: Vec<u8>,
    status: Status,
}

/// Makes a mailbox of N messages and 2N commands that the seed decides, plays them through lost connections and stops, and prints
/// what became of the actions: `actions A refused R settled S twice T missing M`. The words are the seed and N.
///
/// The status is 0; 2 for other words; 11 where memory is wanting; 12 where the line can't be printed; or 14 where a limit was passed.
/// The world as the last run left it is given at 0 and 14. A run that ended as none does at a server and over a disk like these, or files
/// without a book at the end, would give a status of their own: so `status` says that they don't come. Each action is played by this
/// client's profile of RFC 4549, section 4.2.
pub fn drill<S: Sink>(alloc: Global, words: &[String], out: &mut S) -> (Status, Option<MemWorld>)
    // The words ask for no drill.
    ensures words { (result.0 ≡ Status.Words) ↔ ((task : AnyTask) → WritesTask (map string_bytes words.now) task → ⊥) }

    // What the line says is so in the world that is given, where the drill came to its end.
    ensures done { result.0 ≡ Status.Done → (world : AnyWorld) × (result.1 ≡ Some world) × (task : AnyTask)
        × WritesTask (map string_bytes words.now) task
        × (text : List ℕ) × IsDrilled task world text
        × (S.tells → S.written out.new ≡ S.written out.old ++ text) }

    // A limit comes from the last run alone.
    ensures limit { result.0 ≡ Status.Limit → (world : AnyWorld) × (result.1 ≡ Some world) × (task : AnyTask)
        × WritesTask (map string_bytes words.now) task
        × (text : List ℕ) × PassesLimit task.size task.seed world text
        × (S.tells → (S.written out.new ≡ S.written out.old ++ text) ⊎ Rose (S.sink_faults out.old) (S.sink_faults out.new)) }

    // What is printed where there is no drill.
    ensures no_drill { S.tells → result.0 ≡ Status.Words →
        (S.written out.new ≡ S.written out.old ++ error_words) ⊎ Rose (S.sink_faults out.old) (S.sink_faults out.new) }
    ensures no_memory { S.tells → result.0 ≡ Status.Memory →
        (S.written out.new ≡ S.written out.old ++ error_memory) ⊎ Rose (S.sink_faults out.old) (S.sink_faults out.new) }

    // There is no other world, and no other status.
    ensures given { IsSome result.1 → (result.0 ≡ Status.Done) ⊎ (result.0 ≡ Status.Limit) }
    ensures output { result.0 ≡ Status.Output → Rose (S.sink_faults out.old) (S.sink_faults out.new) }
    ensures status { (result.0 ≡ Status.Done) ⊎ (result.0 ≡ Status.Words) ⊎ (result.0 ≡ Status.Memory) ⊎ (result.0 ≡ Status.Output) ⊎ (result.0 ≡ Status.Limit) }
    ensures count { S.sink_faults out.old ≤ S.sink_faults out.new }
{
    let Some(task) = task_of(words) else {
        return refused(out, Status::Words, &Line::error_words());
    };
    match drilled(alloc, task) {
        Ok(ending) => told(out, ending),
        Err(AllocError) => refused(out, Status::Memory, &Line::error_memory()),
    }
}

// Prints the line of a drill that came to an end.
fn told<S: Sink>(out: &mut S, ending: Ending) -> (Status, Option<MemWorld>)
    ensures printed { result.0 ≡ ending.status → (result.1 ≡ Some ending.world.value.world)
        × (S.tells → (S.written out.new ≡ S.written out.old ++ ending.line.items) ⊎ Rose (S.sink_faults out.old) (S.sink_faults out.new)) }
    ensures whole { S.tells → result.0 ≡ Status.Done → S.written out.new ≡ S.written out.old ++ ending.line.items }
    ensures output { (result.0 ≡ ending.status) ⊎ ((result.0 ≡ Status.Output) × (result.1 ≡ None) × (ending.status ≡ Status.Done)
        × Rose (S.sink_faults out.old) (S.sink_faults out.new)) }
    ensures count { S.sink_faults out.old ≤ S.sink_faults out.new }
{
    let Ending {
        world,
        line,
        status,
    } = ending;
    if out.write(&line).is_err() && status == Status::Done {
        return (Status::Output, None);
    }
    (status, Some(Box::into_inner(world).into_world()))
}

// Prints the line of a drill that wasn't held.
fn refused<S: Sink>(out: &mut S, status: Status, line: &Line) -> (Status, Option<MemWorld>)
    ensures status { result.0 ≡ status }
    ensures none { result.1 ≡ None }
    ensures printed { S.tells → (S.written out.new ≡ S.written out.old ++ line.now) ⊎ Rose (S.sink_faults out.old) (S.sink_faults out.new) }
    ensures count { S.sink_faults out.old ≤ S.sink_faults out.new }
{
    let _ = out.write(line.as_bytes());
    (status, None)
}

// Holds a drill.
fn drilled(alloc: Global, task: Task) -> Result<Ending, AllocError>
    requires some { 1 ≤ task.size }
    requires most { task.size ≤ 2000 }
    ensures { IfOk result (λ ending. EndsBy task ending.status ending.world.value.world ending.line.items) }
{
    let account = account_of(alloc)?;
    let mut draws = Draws::new(u64::from(task.seed));
    let new = world_of(alloc, task.size)?;
    let mut calm = Box::new(alloc, CalmWorld::new(QuietWorld::new(new)))?;
    let answer = begun(alloc, &account, &mut draws, task.size, &mut calm);
    let world = Box::new(alloc, Box::into_inner(calm).into_quiet())?;
    match answer {
        Ok(given) => finished(alloc, &account, draws, world, given),
        Err(Broken::Limit(line)) => limited(alloc, world, line),
        Err(Broken::Unforeseen(status)) => Ok(unforeseen(alloc, world, status)),
        Err(Broken::Memory) => Err(AllocError),
    }
}

// Sets up the journal and gives the commands, where nothing fails.
fn begun(
    alloc: Global,
    account: &Account,
    draws: &mut Draws,
    size: u32,
    world: &mut CalmWorld,
) -> Result<Given, Broken>
    requires new { IsNew size world.old.quiet.world }
    requires sufficed { world.old.quiet.short ≡ false }
    requires some { 1 ≤ size }
    requires most { size ≤ 2000 }
    ensures done { IfOk result (λ given. (b : Meaning) × HasOne b world.new.quiet
        × HasAsked (accepted [] (orders_from size (2 * size) 1 draws.old)) b
        × (given.accepted ≡ length b.queue) × (given.accepted + given.refused ≡ 2 * size)) }
    ensures gives { OnOk result (Gives size draws.old (2 * size + 1) draws.new world.new.quiet.world) }
    ensures broken { IfErr result (IsBrokenAs (PassesLimit size draws.old world.new.quiet.world)) }
    ensures foreseen { IfErr result IsForeseen }
{
    set_up(alloc, account, world)?;
    give_all(alloc, account, draws, size, world)
}

// Plays all, and counts what became of it.
fn finished(
    alloc: Global,
    account: &Account,
    draws: Draws,
    world: Box<QuietWorld>,
    given: Given,
) -> Result<Ending, AllocError>
    ensures { (task : AnyTask) (b : Meaning) → HasOne b world.value → HasAsked (accepted [] (orders_of task)) b →
        Gives task.size task.seed (2 * task.size + 1) draws world.value.world →
        given.accepted ≡ length b.queue → given.accepted + given.refused ≡ 2 * task.size →
        IfOk result (λ ending. EndsBy task ending.status ending.world.value.world ending.line.items) }
{
    let mut draws = draws;
    let both = play_through(alloc, account, &mut draws, world)?;
    let (world, ended) = both;
    match ended {
        Ended::Limit(line) => limited(alloc, world, line),
        Ended::Unfinished(status) => Ok(unforeseen(alloc, world, status)),
        Ended::Played => {
            let told = counts_in(alloc, &world)?;
            let Some(counts) = told else {
                return Ok(unforeseen(alloc, world, Status::Journal));
            };
            let line = line_of(alloc, &given, &counts)?;
            Ok(Ending {
                world,
                line,
                status: Status::Done,
            })
        }
    }
}

// The ending where a limit was passed.
fn limited(alloc: Global, world: Box<QuietWorld>, line: Bytes) -> Result<Ending, AllocError>
    ensures { (task : AnyTask) → PassesLimit task.size task.seed world.value.world line →
        IfOk result (λ ending. EndsBy task ending.status ending.world.value.world ending.line.items) }
{
    let line = vec_of(alloc, line)?;
    Ok(Ending {
        world,
        line,
        status: Status::Limit,
    })
}

// The ending by a status that doesn't come.
fn unforeseen(alloc: Global, world: Box<QuietWorld>, status: Status) -> Ending {
    Ending {
        world,
        line: Vec::new(alloc),
        status,
    }
}
