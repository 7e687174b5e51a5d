//! A side of the journal is set up, so that a stop leaves it not begun or with all its records.

ghost use Rattle.std.specs.Prelude.{◌≡◌, ◌≤◌, ◌+◌, ◌^◌, ◌∷◌, ◌++◌, [], ℕ, List, length, IfOk, OnOk, OnErr};
ghost use Rattle.journal_core.specs.Blames.{Blames};
ghost use Rattle.journal_core.specs.Creating.{ClosesHead, SetsUp, set_up_bytes};
ghost use Rattle.journal_core.specs.Drafts.{BeginsDraft, Drafts, IsDraft, OpensDraft};
ghost use Rattle.journal_core.specs.OneSide.{IsAside};
ghost use Rattle.journal_core.specs.Records.{records};
ghost use Rattle.journal_core.specs.Sides.{header_of, version_written};
ghost use Rattle.journal_core.specs.declared.version.Version.{Version};

use crate::drafting::{open_draft, put_more, put_records};
use crate::gated::{CLOSED, OPEN, write_gated};
use crate::heads::HEAD;
use crate::version::MAGIC;
use mail_base::Bytes;
use world_traits::{Clocked, Disk, DiskFailed, Side};

/// Sets up a side with these bytes from place 1 on: its header, its records, and a closed gate. The
/// other side stays as it is.
pub fn set_up<D: Disk>(disk: &mut D, side: Side, fresh: &[u8]) -> Result<(), DiskFailed>
    requires room { 1 + length fresh.now ≤ 2 ^ 32 }
    ensures told { D.tells_files → (version : Version) (generation : ℕ) (bodies : List (List ℕ)) →
        fresh.now ≡ set_up_bytes version generation bodies →
        SetsUp side version generation bodies (D.clock disk.old) (D.clock disk.new)
        (D.seen disk.old) (D.seen disk.new) result }
    ensures aside { D.tells_files → IsAside side (D.clock disk.old) (D.clock disk.new) }
    ensures blames { Blames D.Clocked disk.old disk.new result }
{
    close_head(disk, side)?;
    write_gated(disk, side, 0, fresh)
}

/// Sets up a side with these bodies, piece by piece. It takes no memory. The other side stays as it is.
pub fn draw_up<D: Disk>(
    disk: &mut D,
    side: Side,
    generation: u32,
    bodies: &[Bytes],
) -> Result<(), DiskFailed>
    requires { 14 + length (records bodies.now) ≤ 2 ^ 32 }
    ensures told { D.tells_files → SetsUp side version_written generation bodies.now (D.clock disk.old)
        (D.clock disk.new) (D.seen disk.old) (D.seen disk.new) result }
    ensures aside { D.tells_files → IsAside side (D.clock disk.old) (D.clock disk.new) }
    ensures blames { Blames D.Clocked disk.old disk.new result }
{
    let first = begin_draft(disk, side, generation)?;
    let end = put_records(disk, side, first, bodies)?;
    end_draft(disk, side, end)
}

// Closes the head gate of a side where that is due, and puts its header behind it. Gives the place of the first record.
fn begin_draft<D: Disk>(disk: &mut D, side: Side, generation: u32) -> Result<u64, DiskFailed>
    ensures value { IfOk result (λ next. next ≡ 13) }
    ensures told { D.tells_files → BeginsDraft side (header_of version_written generation) (D.clock disk.old)
        (D.clock disk.new) (D.seen disk.old) (D.seen disk.new) result }
    ensures aside { D.tells_files → IsAside side (D.clock disk.old) (D.clock disk.new) }
    ensures blames { Blames D.Clocked disk.old disk.new result }
{
    close_head(disk, side)?;
    put_header(disk, side, generation)
}

// Puts the header of a generation behind the head gate.
fn put_header<D: Disk>(disk: &mut D, side: Side, generation: u32) -> Result<u64, DiskFailed>
    ensures value { IfOk result (λ next. next ≡ 13) }
    ensures told { D.tells_files → Drafts side 1 (header_of version_written generation) (D.clock disk.old)
        (D.clock disk.new) (D.seen disk.old) (D.seen disk.new) result }
    ensures aside { D.tells_files → IsAside side (D.clock disk.old) (D.clock disk.new) }
    ensures blames { Blames D.Clocked disk.old disk.new result }
{
    let next = put_more(disk, side, 1, &MAGIC)?;
    put_more(disk, side, next, &generation.to_be_bytes())
}

// Puts a closed gate behind the records of a draft, and opens its head gate.
fn end_draft<D: Disk>(disk: &mut D, side: Side, end: u64) -> Result<(), DiskFailed>
    requires { end + 1 ≤ 2 ^ 32 }
    ensures told { D.tells_files → (others fresh : List ℕ) →
        IsDraft side others [] fresh (D.clock disk.old).now (D.seen disk.old) → end ≡ 1 + length fresh →
        OpensDraft side others [] (fresh ++ 0 ∷ []) (D.clock disk.old) (D.clock disk.new) (D.seen disk.new) result }
    ensures aside { D.tells_files → IsAside side (D.clock disk.old) (D.clock disk.new) }
    ensures blames { Blames D.Clocked disk.old disk.new result }
{
    put_more(disk, side, end, &[CLOSED])?;
    open_draft(disk, side, 0)
}

// Closes the head gate of a side where it is open or the side has fewer than 14 bytes.
fn close_head<D: Disk>(disk: &mut D, side: Side) -> Result<(), DiskFailed>
    ensures told { D.tells_files → ClosesHead side (D.clock disk.old) (D.clock disk.new)
        (D.seen disk.old) (D.seen disk.new) result }
    ensures aside { D.tells_files → IsAside side (D.clock disk.old) (D.clock disk.new) }
    ensures blames { Blames D.Clocked disk.old disk.new result }
{
    let mut front = [0; HEAD];
    let count = disk.read(side, 0, &mut front)?;
    if count == HEAD && front[0] != OPEN {
        return Ok(());
    }
    disk.write_at(side, 0, &[CLOSED])?;
    disk.sync(side)
}
