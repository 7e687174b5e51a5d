//! One call of the top call.

ghost use Rattle.std.specs.Prelude.{◌≡◌, IfOk, IfErr, map, string_bytes};
ghost use Rattle.mail_drill.specs.Came.{Runs};
ghost use Rattle.mail_drill.specs.Foreseen.{IsForeseen, RanCalmly};
ghost use Rattle.mail_drill.specs.Ran.{Ran};
ghost use Rattle.mail_drill.specs.Standing.{IsBrokenAs};

use crate::calm_world::CalmWorld;
use crate::quiet_world::QuietWorld;
use mail_base::{Account, Bytes, Status};
use mail_top::run;
use std::alloc::{AllocError, Global};
use world_traits::{MemSink, MemSource};

/// Why a drill ends before its time.
#[derive(Drop)]
pub enum Broken {
    /// Memory is wanting.
    Memory,
    /// A limit was passed, and this line was printed.
    Limit(Bytes),
    /// A command ended by this status, as none does at a drill's server and over its disk.
    Unforeseen(Status),
}

impl From<AllocError> for Broken {
    ghost use Rattle.std.specs.Prelude.{◌≡◌};
    ghost use Rattle.mail_drill.specs.declared.played.Broken.TheVariants as brokens;

    ghost from_gives = { λ _ broken. broken ≡ brokens.Memory };

    fn from(_: AllocError) -> Broken {
        Broken::Memory
    }
}

/// Carries out a command in the world, and gives its status. A fault for want of memory counts as that.
pub fn carried_out(
    alloc: Global,
    account: &Account,
    words: &[String],
    input: Vec<u8>,
    world: &mut QuietWorld,
) -> Result<Status, Broken>
    ensures done { IfOk result (Ran account.now (map string_bytes words.now) input.items world.old world.new) }
    ensures no_limit { IfOk result (λ s. s ≡ Status.Limit → ⊥) }
    ensures broken { IfErr result (IsBrokenAs (Runs (map string_bytes words.now) input.items world.old.world world.new.world Status.Limit)) }
    ensures foreseen { IfErr result IsForeseen }
{
    let mut input = MemSource::new(input);
    let mut out = MemSink::new(alloc);
    let status = run(alloc, words, account, &mut input, world, &mut out);
    if world.is_short() || out.refused() > 0 {
        return Err(Broken::Memory);
    }
    match status {
        Status::Memory => Err(Broken::Memory),
        Status::Limit => Err(Broken::Limit(Bytes::of(out.bytes().to_vec(alloc)?))),
        status => Ok(status),
    }
}

/// Carries out a command in a world in which nothing fails, and gives its status. A fault for want of memory counts as that.
pub fn carried_out_calmly(
    alloc: Global,
    account: &Account,
    words: &[String],
    input: Vec<u8>,
    world: &mut CalmWorld,
) -> Result<Status, Broken>
    ensures done { IfOk result (RanCalmly account.now (map string_bytes words.now) input.items world.old.quiet world.new.quiet) }
    ensures broken { IfErr result (IsBrokenAs (Runs (map string_bytes words.now) input.items world.old.quiet.world world.new.quiet.world Status.Limit)) }
    ensures foreseen { IfErr result IsForeseen }
{
    let mut input = MemSource::new(input);
    let mut out = MemSink::new(alloc);
    let status = run(alloc, words, account, &mut input, world, &mut out);
    if world.is_short() || out.refused() > 0 {
        return Err(Broken::Memory);
    }
    match status {
        Status::Memory => Err(Broken::Memory),
        Status::Limit => Err(Broken::Limit(Bytes::of(out.bytes().to_vec(alloc)?))),
        status => Ok(status),
    }
}
