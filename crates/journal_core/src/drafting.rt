//! Bytes are put behind a closed gate piece by piece, and count once it is open.

ghost use Rattle.std.specs.Prelude.{◌≡◌, ◌≤◌, ◌+◌, ◌^◌, ◌++◌, ℕ, List, length, IfOk, IsTrue};
ghost use Rattle.journal_core.specs.Blames.{Blames};
ghost use Rattle.journal_core.specs.Records.{open_record, records};
ghost use Rattle.journal_core.specs.Drafts.{Drafts, Gathers, IsDraft, OpensDraft};
ghost use Rattle.journal_core.specs.OneSide.{IsAside};

use crate::gated::OPEN;
use arrayvec::ArrayVec;
use mail_base::Bytes;
use world_traits::{Clocked, Disk, DiskFailed, Side};

// The bytes that are held back at most.
const PIECE: usize = 4096;

/// Puts bytes at a place behind a closed gate. Gives the place behind them.
pub fn put_more<D: Disk>(disk: &mut D, side: Side, at: u64, more: &[u8]) -> Result<u64, DiskFailed>
    requires room { at + length more.now ≤ 2 ^ 32 }
    ensures value { IfOk result (λ next. next ≡ at + length more.now) }
    ensures told { D.tells_files → Drafts side at more.now (D.clock disk.old) (D.clock disk.new)
        (D.seen disk.old) (D.seen disk.new) result }
    ensures aside { D.tells_files → IsAside side (D.clock disk.old) (D.clock disk.new) }
    ensures blames { Blames D.Clocked disk.old disk.new result }
{
    disk.write_at(side, at, more)?;
    Ok(at + more.len() as u64)
}

/// Puts a record with an open gate.
pub fn put_record<D: Disk>(
    disk: &mut D,
    side: Side,
    at: u64,
    body: &[u8],
) -> Result<u64, DiskFailed>
    requires room { at + length (open_record body.now) ≤ 2 ^ 32 }
    ensures value { IfOk result (λ next. next ≡ at + length (open_record body.now)) }
    ensures told { D.tells_files → Drafts side at (open_record body.now) (D.clock disk.old) (D.clock disk.new)
        (D.seen disk.old) (D.seen disk.new) result }
    ensures aside { D.tells_files → IsAside side (D.clock disk.old) (D.clock disk.new) }
    ensures blames { Blames D.Clocked disk.old disk.new result }
{
    let size = (body.len() as u32).to_be_bytes();
    let head = [OPEN, size[0], size[1], size[2], size[3]];
    let next = put_more(disk, side, at, &head)?;
    put_more(disk, side, next, body)
}

/// Puts records of these bodies one behind the other. Short ones are held back, and written together.
pub fn put_records<D: Disk>(
    disk: &mut D,
    side: Side,
    at: u64,
    bodies: &[Bytes],
) -> Result<u64, DiskFailed>
    requires { at + length (records bodies.now) ≤ 2 ^ 32 }
    ensures value { IfOk result (λ next. next ≡ at + length (records bodies.now)) }
    ensures told { D.tells_files → Drafts side at (records bodies.now) (D.clock disk.old) (D.clock disk.new)
        (D.seen disk.old) (D.seen disk.new) result }
    ensures aside { D.tells_files → IsAside side (D.clock disk.old) (D.clock disk.new) }
    ensures blames { Blames D.Clocked disk.old disk.new result }
{
    let mut piece = ArrayVec::new();
    let mut place = at;
    for body in bodies {
        place = gather(disk, side, place, &mut piece, body.as_slice())?;
    }
    put_more(disk, side, place, piece.as_slice())
}

// Puts a record behind the bytes that are held back at a place: it is held back as well where it fits, and else they are
// put, and it behind them. Gives the place of what is held back then.
fn gather<D: Disk>(
    disk: &mut D,
    side: Side,
    at: u64,
    piece: &mut ArrayVec<u8, PIECE>,
    body: &[u8],
) -> Result<u64, DiskFailed>
    requires room { at + length piece.old.items + length (open_record body.now) ≤ 2 ^ 32 }
    ensures value { IfOk result (λ next.
        next + length piece.new.items ≡ at + length piece.old.items + length (open_record body.now)) }
    ensures told { D.tells_files → Gathers side at piece.old.items (open_record body.now) piece.new.items
        (D.clock disk.old) (D.clock disk.new) (D.seen disk.old) (D.seen disk.new) result }
    ensures aside { D.tells_files → IsAside side (D.clock disk.old) (D.clock disk.new) }
    ensures blames { Blames D.Clocked disk.old disk.new result }
{
    if has_room(piece, body) {
        hold_back(piece, body);
        return Ok(at);
    }
    let next = put_more(disk, side, at, piece.as_slice())?;
    piece.clear();
    put_record(disk, side, next, body)
}

// Whether a record of this body fits behind the bytes that are held back.
fn has_room(piece: &ArrayVec<u8, PIECE>, body: &[u8]) -> bool
    ensures { IsTrue result → length piece.now.items + 5 + length body.now ≤ 4096 }
{
    body.len() < piece.remaining_capacity().saturating_sub(4)
}

// Holds back a record with an open gate.
fn hold_back(piece: &mut ArrayVec<u8, PIECE>, body: &[u8])
    requires { length piece.old.items + 5 + length body.now ≤ 4096 }
    ensures { piece.new.items ≡ piece.old.items ++ open_record body.now }
{
    let _ = piece.try_push(OPEN);
    let _ = piece.try_extend_from_slice(&(body.len() as u32).to_be_bytes());
    let _ = piece.try_extend_from_slice(body);
}

/// Opens the gate of a draft at a place.
///
/// What stands behind the gate is durable before it opens, so a stop leaves it whole or not counted.
pub fn open_draft<D: Disk>(disk: &mut D, side: Side, place: u64) -> Result<(), DiskFailed>
    requires room { place + 1 ≤ 2 ^ 32 }
    ensures told { D.tells_files → (others front fresh : List ℕ) →
        IsDraft side others front fresh (D.clock disk.old).now (D.seen disk.old) → place ≡ length front →
        OpensDraft side others front fresh (D.clock disk.old) (D.clock disk.new) (D.seen disk.new) result }
    ensures aside { D.tells_files → IsAside side (D.clock disk.old) (D.clock disk.new) }
    ensures blames { Blames D.Clocked disk.old disk.new result }
{
    disk.sync(side)?;
    disk.write_at(side, place, &[OPEN])?;
    disk.sync(side)
}
