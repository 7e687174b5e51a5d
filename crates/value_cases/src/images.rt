//! Calls that compare the images of a world in memory with the plain slow program: `write left 0
//! BYTES` and `sync right` are what the world is asked, and `images LEFT RIGHT` compares, of files
//! that have these bytes at first, the images at each moment of it.

ghost use Rattle.std.specs.Prelude.{◌≡◌, false, IfSome};

use crate::alike::Alike;
use crate::plain_images::{Call, Cell, cells_after, image};
use cases::{Answer, Input, WordFault};
use mail_base::{Bytes, List, Words};
use server_mem::{MemServer, is_well_formed};
use std::alloc::{AllocError, Global};
use world_mem::{Files, MemWorld, Plan};
use world_traits::{Disk, Side};

// The picks whose images are compared.
const PICKS: [u64; 10] = [0, 1, 2, 3, 4, 5, 77, 65_536, 4_294_967_295, 4_294_967_297];

/// Answers a call of this module, or tells that it is none.
pub fn answers(
    call: &str,
    calls: &mut Vec<Call>,
    input: &mut Input,
    answer: &mut Answer,
) -> Result<bool, WordFault> {
    match call {
        "write" => add_write(calls, input),
        "sync" => add_sync(calls, input),
        "images" => put_images(calls, input, answer),
        _ => return Ok(false),
    }?;
    Ok(true)
}

fn add_write(calls: &mut Vec<Call>, input: &mut Input) -> Result<(), WordFault> {
    let side = side(input)?;
    let at = input.short()? as usize;
    let bytes = input.text()?.to_vec(input.alloc)?;
    calls.push(Call::Write(side, at, bytes))?;
    Ok(())
}

fn add_sync(calls: &mut Vec<Call>, input: &mut Input) -> Result<(), WordFault> {
    calls.push(Call::Sync(side(input)?))?;
    Ok(())
}

fn side(input: &mut Input) -> Result<Side, WordFault> {
    match input.word()? {
        "left" => Ok(Side::Left),
        "right" => Ok(Side::Right),
        _ => Err(WordFault::Form),
    }
}

fn put_images(calls: &[Call], input: &mut Input, answer: &mut Answer) -> Result<(), WordFault> {
    let (left, right) = (input.text()?, input.text()?);
    compare_files(input.alloc, calls, left, right)?.put(answer)
}

// Compares the images of these files. A call that isn't made differs.
fn compare_files(
    alloc: Global,
    calls: &[Call],
    left: &[u8],
    right: &[u8],
) -> Result<Alike, AllocError> {
    let Some(world) = world_after(alloc, calls, left, right) else {
        return Ok(Alike::differing());
    };
    let compared = compare_world(alloc, &world, calls, left, right);
    drop(world);
    compared
}

// A world of these files in which all calls were made.
fn world_after(alloc: Global, calls: &[Call], left: &[u8], right: &[u8]) -> Option<Box<MemWorld>> {
    let mut world = world(alloc, left, right)?;
    if are_made(&mut world, calls) {
        Some(world)
    } else {
        None
    }
}

// A server without mailboxes.
fn server(alloc: Global) -> Option<MemServer>
    ensures { IfSome result (λ server. server.muted ≡ false) }
{
    let boxes = Vec::new(alloc);
    if !is_well_formed(&boxes) {
        return None;
    }
    MemServer::new(alloc, boxes, Words::new(alloc)).ok()
}

// A plan by which nothing befalls the world.
fn no_plan(alloc: Global) -> Plan {
    Plan {
        disk_fails: List::new(alloc),
        link_fails: List::new(alloc),
        foreign: List::new(alloc),
        stop_after: None,
    }
}

fn files(alloc: Global, left: &[u8], right: &[u8]) -> Option<Files> {
    let left = Bytes::of(left.to_vec(alloc).ok()?);
    let right = Bytes::of(right.to_vec(alloc).ok()?);
    Some(Files { left, right })
}

// A world with these files.
fn world(alloc: Global, left: &[u8], right: &[u8]) -> Option<Box<MemWorld>> {
    let files = files(alloc, left, right)?;
    let server = server(alloc)?;
    let world = MemWorld::new(alloc, server, files, no_plan(alloc)).ok()?;
    Box::new(alloc, world).ok()
}

fn writes(world: &mut MemWorld, side: Side, at: usize, bytes: &[u8]) -> bool {
    if at > 1_000 || bytes.len() > 1_000 {
        return false;
    }
    world.write_at(side, at as u64, bytes).is_ok()
}

fn syncs(world: &mut MemWorld, side: Side) -> bool {
    world.sync(side).is_ok()
}

fn is_made(world: &mut MemWorld, call: &Call) -> bool {
    match call {
        Call::Write(side, at, bytes) => writes(world, *side, *at, bytes),
        Call::Sync(side) => syncs(world, *side),
    }
}

// Makes the calls.
fn are_made(world: &mut MemWorld, calls: &[Call]) -> bool {
    for call in calls {
        if !is_made(world, call) {
            return false;
        }
    }
    true
}

// Whether the image at a moment by a pick has these bytes.
fn is_image(world: &MemWorld, moment: u64, pick: u64, left: &[u8], right: &[u8]) -> bool {
    match world.images_at(moment, pick) {
        Ok(files) => files.left.as_slice() == left && files.right.as_slice() == right,
        Err(_) => false,
    }
}

// Compares the images at a moment of files that are so then.
fn compare_moment(
    alloc: Global,
    world: &MemWorld,
    moment: u64,
    left: &[Cell],
    right: &[Cell],
    alike: &mut Alike,
) -> Result<(), AllocError> {
    for pick in PICKS {
        let (left, right) = image(alloc, left, right, pick)?;
        alike.count(is_image(world, moment, pick, &left, &right));
    }
    Ok(())
}

// Compares the images at each moment of the calls, in a world in which all of them were made.
fn compare_world(
    alloc: Global,
    world: &MemWorld,
    calls: &[Call],
    left: &[u8],
    right: &[u8],
) -> Result<Alike, AllocError> {
    let mut alike = Alike::new();
    for moment in 0..=calls.len() {
        let done = calls.get(..moment).unwrap_or(calls);
        let left = cells_after(alloc, left, Side::Left, done)?;
        let right = cells_after(alloc, right, Side::Right, done)?;
        compare_moment(alloc, world, moment as u64, &left, &right, &mut alike)?;
    }
    Ok(alike)
}
