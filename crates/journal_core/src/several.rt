//! Several records of an open journal are read by one call of the disk.

ghost use Rattle.std.specs.Prelude.{◌≡◌, ◌≤◌, ◌+◌, ◌-◌, ◌<◌, ◌++◌, [], List, ℕ, drop, length, unwrap_or, OnOk};
ghost use Rattle.std.specs.Prelude.{IfNone, IfOk, IfSome, IsErrOf, IsTrue, OnErr};
ghost use Rattle.journal_core.specs.Blames.{Blames, BlamesWhere};
ghost use Rattle.world_traits.specs.Files.{file_of};
ghost use Rattle.journal_core.specs.Records.{From};
ghost use Rattle.journal_core.specs.Standing.{IsStill};
ghost use Rattle.journal_core.specs.Reading.{OnlyLooks};
ghost use Rattle.journal_core.specs.Several.{GoesFew, IsFrontOf, NextAre, TakesFew};
ghost use Rattle.journal_core.specs.declared.fault.Place9.{Place9};
ghost use Rattle.journal_core.specs.declared.fault.OpenFault.TheVariants as faults;

use crate::bodies::{is_shut, missing_in};
use crate::reading::{read_there, read_up_to};
use crate::{Bodies, Journal, OpenFault};
use mail_base::Bytes;
use std::alloc::Global;
use world_traits::{Clocked, Disk, DiskFailed, Side};

// The bytes that are read by one call.
const PIECE: u32 = 65_536;

impl Journal {
    /// Gives the bodies of the next records, one at least, or `None` at the closed gate behind the last one.
    ///
    /// It reads 64 KiB at a time, and what is missing of the record that they cut off. So each byte is read once, but for
    /// the gate behind a piece and a front of five bytes that is cut off. It takes memory for those bytes. After a fault
    /// the journal is as it was.
    pub fn next_few<D: Disk>(
        &mut self,
        alloc: Global,
        disk: &mut D,
    ) -> Result<Option<Bodies>, OpenFault>
        ensures value { D.tells_files → NextAre self.old (file_of self.old.side (D.seen disk.old))
            self.new result }

        // The same by all the bodies that stand from the journal's place on, and by those that it
        // has read.
        ensures first { D.tells_files → (bodies : List (List ℕ)) →
            From self.old.place bodies (file_of self.old.side (D.seen disk.old)) →
            IfOk result (TakesFew bodies (file_of self.old.side (D.seen disk.old)) self.new) }
        ensures still { D.tells_files → (bodies : List (List ℕ)) →
            IsStill self.old bodies (D.clock disk.old).now (D.seen disk.old) →
            IfOk result (λ next. IsStill self.new (bodies ++ unwrap_or next [])
            (D.clock disk.new).now (D.seen disk.new)) }
        ensures kept { OnErr result (self.new ≡ self.old) }

        // Whatever the disk tells: there is one body at least, each takes the journal on, and at
        // none all were read.
        ensures some { IfOk result (λ next. IfSome next (λ few. 0 < length few)) }
        ensures advances { IfOk result (λ next. IfSome next (λ few.
            self.old.place + length few ≤ self.new.place)) }
        ensures ended { IfOk result (λ next. IfNone next (IsTrue self.new.all_read)) }
        ensures sound { self.new.failed ≡ self.old.failed }
        ensures version { self.new.version ≡ self.old.version }
        ensures told { D.tells_files → OnlyLooks (D.clock disk.old) (D.clock disk.new)
            (D.seen disk.old) (D.seen disk.new) }
        ensures blames { BlamesWhere D.Clocked disk.old disk.new (IsErrOf result faults.Disk) }
    {
        self.next_within(alloc, disk, PIECE)
    }

    /// The same by pieces of so many bytes.
    pub(crate) fn next_within<D: Disk>(
        &mut self,
        alloc: Global,
        disk: &mut D,
        size: u32,
    ) -> Result<Option<Bodies>, OpenFault>
        requires { 0 < size }
        ensures value { D.tells_files → NextAre self.old (file_of self.old.side (D.seen disk.old))
            self.new result }
        ensures first { D.tells_files → (bodies : List (List ℕ)) →
            From self.old.place bodies (file_of self.old.side (D.seen disk.old)) →
            IfOk result (TakesFew bodies (file_of self.old.side (D.seen disk.old)) self.new) }
        ensures still { D.tells_files → (bodies : List (List ℕ)) →
            IsStill self.old bodies (D.clock disk.old).now (D.seen disk.old) →
            IfOk result (λ next. IsStill self.new (bodies ++ unwrap_or next [])
            (D.clock disk.new).now (D.seen disk.new)) }
        ensures goes { GoesFew self.old self.new result }
        ensures told { D.tells_files → OnlyLooks (D.clock disk.old) (D.clock disk.new)
            (D.seen disk.old) (D.seen disk.new) }
        ensures blames { BlamesWhere D.Clocked disk.old disk.new (IsErrOf result faults.Disk) }
    {
        let piece = read_piece(alloc, disk, self.side, self.place, size)?;
        if is_shut(piece.as_slice()) {
            self.all_read = true;
            return Ok(None);
        }
        let (few, end) = Bodies::cut(alloc, piece)?;
        if few.len() == 0 || u64::MAX - self.place < end as u64 {
            return self.next_alone(alloc, disk);
        }
        self.place += end as u64;
        Ok(Some(few))
    }

    // The next record alone.
    fn next_alone<D: Disk>(
        &mut self,
        alloc: Global,
        disk: &mut D,
    ) -> Result<Option<Bodies>, OpenFault>
        ensures value { D.tells_files → NextAre self.old (file_of self.old.side (D.seen disk.old))
            self.new result }
        ensures first { D.tells_files → (bodies : List (List ℕ)) →
            From self.old.place bodies (file_of self.old.side (D.seen disk.old)) →
            IfOk result (TakesFew bodies (file_of self.old.side (D.seen disk.old)) self.new) }
        ensures still { D.tells_files → (bodies : List (List ℕ)) →
            IsStill self.old bodies (D.clock disk.old).now (D.seen disk.old) →
            IfOk result (λ next. IsStill self.new (bodies ++ unwrap_or next [])
            (D.clock disk.new).now (D.seen disk.new)) }
        ensures goes { GoesFew self.old self.new result }
        ensures told { D.tells_files → OnlyLooks (D.clock disk.old) (D.clock disk.new)
            (D.seen disk.old) (D.seen disk.new) }
        ensures blames { BlamesWhere D.Clocked disk.old disk.new (IsErrOf result faults.Disk) }
    {
        let room = Vec::with_capacity(alloc, 1)?;
        match self.next(alloc, disk)? {
            None => Ok(None),
            Some(body) => Ok(Some(Bodies::one(room, body))),
        }
    }
}

// Reads so many bytes from a place on, and what is missing of the record that they cut off.
fn read_piece<D: Disk>(
    alloc: Global,
    disk: &mut D,
    side: Side,
    at: u64,
    size: u32,
) -> Result<Bytes, OpenFault>
    requires { 0 < size }
    ensures value { D.tells_files →
        IfOk result (λ piece. IsFrontOf piece (drop at (file_of side (D.seen disk.old)))) }
    ensures only { (why : Place9) → IsErrOf result (faults.NotAJournal why) → ⊥ }
    ensures told { D.tells_files → OnlyLooks (D.clock disk.old) (D.clock disk.new)
        (D.seen disk.old) (D.seen disk.new) }
    ensures blames { BlamesWhere D.Clocked disk.old disk.new (IsErrOf result faults.Disk) }
{
    let mut piece = read_up_to(alloc, disk, side, at, size)?;
    let Some(next) = at.checked_add(size as u64) else {
        return Ok(piece);
    };
    let missing = missing_there(disk, side, next, piece.as_slice())?;
    if missing == 0 {
        return Ok(piece);
    }
    let more = read_there(alloc, disk, side, next, missing)?;
    piece.extend(more.as_slice())?;
    Ok(piece)
}

// How many bytes from a place on are missing of the record that a piece cuts off. None are where the file has fewer of
// them: such a record is torn, and it takes no memory for what it claims. The length is asked for once a piece, and only
// where a record is cut off, so it costs nothing beside the read.
fn missing_there<D: Disk>(
    disk: &mut D,
    side: Side,
    next: u64,
    piece: &[u8],
) -> Result<u32, DiskFailed>
    ensures there { D.tells_files → IfOk result (λ missing.
        missing ≤ length (file_of side (D.seen disk.old)) - next) }
    ensures told { D.tells_files → OnlyLooks (D.clock disk.old) (D.clock disk.new)
        (D.seen disk.old) (D.seen disk.new) }
    ensures blames { Blames D.Clocked disk.old disk.new result }
{
    let missing = missing_in(piece);
    if missing == 0 {
        return Ok(0);
    }
    let total = disk.length(side)?;
    if total.saturating_sub(next) < missing as u64 {
        return Ok(0);
    }
    Ok(missing)
}
