//! A journal is created, records are appended to it, and it goes on on its other side.

ghost use Rattle.std.specs.Prelude.{◌≡◌, ◌<◌, ◌≤◌, ◌^◌, IfOk, IsTrue, false, length};
ghost use Rattle.mail_base.specs.Bodies.{frame_of};
ghost use Rattle.journal_core.specs.Appending.{IsFrame};
ghost use Rattle.journal_core.specs.Creating.{NoneEmpty};

use crate::undone::Undone;
use journal_core::{Journal, WRITTEN};
use mail_base::Bytes;
use std::alloc::{AllocError, Global};
use world_traits::Disk;

/// Creates a journal with this body.
pub fn create<D: Disk>(alloc: Global, disk: &mut D, body: Bytes) -> Result<(), Undone>
    requires { 0 < length body }
{
    let _journal = Journal::create(alloc, disk, &[body])?;
    Ok(())
}

// The length of a body, the body, and a closed gate.
fn frame_bytes(alloc: Global, body: &[u8]) -> Result<Vec<u8>, AllocError>
    requires { length body.now < 2 ^ 32 }
    ensures { IfOk result (λ frame. frame.items ≡ frame_of body.now) }
{
    let mut frame = Vec::new(alloc);
    frame.extend_from_slice(&(body.len() as u32).to_be_bytes())?;
    frame.extend_from_slice(body)?;
    frame.push(0)?;
    Ok(frame)
}

/// The frame of a body.
pub fn framed(alloc: Global, body: &[u8]) -> Result<Vec<u8>, AllocError>
    requires some { 0 < length body.now }
    requires fits { length body.now ≤ 65536 }
    ensures { IfOk result (λ frame. IsFrame frame.items) }
{
    let bytes = frame_bytes(alloc, body)?;
    Ok(bytes)
}

// A journal that was read to its end, which isn't far.
fn read_whole<D: Disk>(alloc: Global, disk: &mut D) -> Result<Journal, Undone>
    ensures { IfOk result (λ journal. IsTrue journal.all_read × (journal.failed ≡ false)) }
{
    let mut journal = Journal::open(disk)?;
    for _ in 0..1_000u16 {
        let next = journal.next(alloc, disk)?;
        if next.is_none() {
            return Ok(journal);
        }
    }
    Err(Undone::Unfit)
}

/// Appends a frame behind the last record, under this limit.
pub fn append<D: Disk>(alloc: Global, disk: &mut D, frame: &[u8], limit: u64) -> Result<(), Undone>
    requires frame { IsFrame frame.now }
    requires limit { limit ≤ 2 ^ 30 }
{
    let mut journal = read_whole(alloc, disk)?;
    if journal.version() == WRITTEN {
        return Ok(journal.append(disk, frame, limit)?);
    }
    Err(Undone::Older)
}

/// Goes on on the other side with these bodies.
pub fn turn<D: Disk>(alloc: Global, disk: &mut D, bodies: &[Bytes]) -> Result<(), Undone>
    requires some { 0 < length bodies.now }
    requires sizes { NoneEmpty bodies.now }
{
    let mut journal = read_whole(alloc, disk)?;
    if journal.generation() == u32::MAX {
        return Err(Undone::Last);
    }
    Ok(journal.turn(disk, bodies)?)
}
