//! The top call at a server that leaves APPENDUID out.

ghost use Rattle.std.specs.Prelude.{ℕ, List, map, string_bytes};
ghost use Rattle.mail_scenario.specs.Muted.{clock_of, course_between, files_of, link_of};
ghost use Rattle.mail_top.specs.AnyServer.{IsWhole, StaysWhole};
ghost use Rattle.mail_top.specs.Going.{Goes};
ghost use Rattle.mail_top.specs.Headline.{Finishes};
ghost use Rattle.mail_top.specs.Leaving.{LosesNone};
ghost use Rattle.mail_top.specs.Played.{CameThrough};
ghost use Rattle.mail_top.specs.Printing.{Prints};
ghost use Rattle.mail_top.specs.Resting.{KeepsOneSide};
ghost use Rattle.mail_top.specs.Words.{WritesPlay};
ghost use Rattle.play_driver.specs.SendsOnce.{SendsOnce};

use crate::muted_world::MutedWorld;
use mail_base::{Account, Status};
use mail_top::run;
use std::alloc::Global;
use world_traits::{FaultySink, FaultySource};

/// Runs the top call. What it promises of the files it keeps, though the server isn't a lawful one:
/// what each status says of them and of what is printed, what a stop leaves at each moment, that
/// nothing accepted is lost, and that a journal that is whole stays whole. And no command of an
/// action is sent twice.
pub fn run_muted(
    alloc: Global,
    words: &[String],
    account: &Account,
    input: &mut FaultySource,
    world: &mut MutedWorld,
    out: &mut FaultySink,
) -> Status
    ensures goes { (text : List ℕ) × Goes account.now (map string_bytes words.now) input.old.rest
        (course_between world.old world.new) result text
        × Prints result text out.old.sink.bytes out.new.sink.bytes out.old.faults out.new.faults }
    ensures held { LosesNone (clock_of world.old).now (clock_of world.new).now }
    ensures sides { KeepsOneSide (clock_of world.old) (clock_of world.new) }
    ensures finishes { WritesPlay (map string_bytes words.now) → CameThrough result
        → Finishes (files_of world.old) (files_of world.new) (clock_of world.new).now }
    ensures any_server { (IsWhole (clock_of world.old).now
        → StaysWhole (clock_of world.old) (clock_of world.new))
        × SendsOnce (link_of world.old) (link_of world.new) }
{
    run(alloc, words, account, input, world, out)
}
