//! The bodies that a journal goes on with on its other side.

ghost use Rattle.std.specs.Prelude.{◌<◌, IfOk, OnOk, length};
ghost use Rattle.journal_core.specs.Creating.{NoneEmpty};

use crate::bytes::Names;
use crate::journals::turn;
use crate::undone::Undone;
use cases::{Input, WordFault};
use mail_base::Bytes;
use std::alloc::{AllocError, Global};
use world_traits::Disk;

// The most bodies of one part.
const MOST: u64 = 1_000;

// `times 3 "abc"`, or `"abc"`: how often.
fn count(input: &mut Input<'_>) -> Result<u64, WordFault> {
    if input.skips("times") {
        return input.number();
    }
    Ok(1)
}

// Adds a body.
fn put_body(bodies: &mut Vec<Bytes>, body: Bytes) -> Result<(), AllocError>
    requires full { 0 < length body }
    requires others { NoneEmpty bodies.old.items }
    ensures { OnOk result (NoneEmpty bodies.new.items) }
{
    bodies.push(body)?;
    Ok(())
}

// Adds so many bodies of these bytes.
fn put_many(
    alloc: Global,
    bodies: &mut Vec<Bytes>,
    body: &[u8],
    count: u64,
) -> Result<(), AllocError>
    requires full { 0 < length body.now }
    requires others { NoneEmpty bodies.old.items }
    ensures { OnOk result (NoneEmpty bodies.new.items) }
{
    for _ in 0..count {
        let copy = body.to_vec(alloc)?;
        put_body(bodies, Bytes::of(copy))?;
    }
    Ok(())
}

// Adds the bodies of a part.
fn put_part(names: &Names, bodies: &mut Vec<Bytes>, input: &mut Input<'_>) -> Result<(), WordFault>
    requires others { NoneEmpty bodies.old.items }
    ensures { OnOk result (NoneEmpty bodies.new.items) }
{
    let count = count(input)?;
    let body = names.bytes(input)?;
    if body.is_empty() || count > MOST {
        return Err(WordFault::Form);
    }
    put_many(names.alloc, bodies, &body, count)?;
    Ok(())
}

/// `"abc" ; times 3 "defg"`: four bodies, none of which is empty.
pub fn bodies(names: &Names, input: &mut Input<'_>) -> Result<Vec<Bytes>, WordFault>
    ensures { IfOk result (λ bodies. NoneEmpty bodies.items) }
{
    let mut bodies = Vec::new(names.alloc);
    for _ in 0..input.len() {
        put_part(names, &mut bodies, input)?;
        if !input.skips(";") {
            break;
        }
    }
    Ok(bodies)
}

/// Goes on on the other side with the bodies that the next words tell.
pub fn turn_on<D: Disk>(names: &Names, input: &mut Input<'_>, disk: &mut D) -> Result<(), Undone> {
    let bodies = bodies(names, input)?;
    if bodies.is_empty() {
        return Err(Undone::Unfit);
    }
    let done = turn(names.alloc, disk, &bodies);
    drop(bodies);
    done
}
