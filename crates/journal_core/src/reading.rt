//! The records of an open journal are read one by one.

ghost use Rattle.std.specs.Prelude.{◌≡◌, ◌≤◌, ◌+◌, ◌-◌, ◌^◌, ◌++◌, List, ℕ, min, take, drop, length, OnOk};
ghost use Rattle.std.specs.Prelude.{◌<◌, IfNone, IfOk, IsErrOf, IsTrue, OnErr, OnSome};
ghost use Rattle.journal_core.specs.Blames.{Blames, BlamesWhere};
ghost use Rattle.world_traits.specs.Files.{file_of};
ghost use Rattle.journal_core.specs.Fronts.{FrontIs, FrontFits};
ghost use Rattle.journal_core.specs.Reading.{OnlyLooks};
ghost use Rattle.journal_core.specs.declared.fault.Place9.{Place9};
ghost use Rattle.journal_core.specs.declared.fault.OpenFault.TheVariants as faults;

use crate::gated::OPEN;
use crate::{Journal, OpenFault, Place9};
use mail_base::Bytes;
use std::alloc::Global;
use world_traits::{Clocked, Disk, DiskFailed, Side};

/// The bytes of the longest body.
pub const MAX_BODY: u32 = 1_073_741_824;

/// What stands at the place of a gate.
#[derive(Clone, Copy, Debug, PartialEq, Eq)]
pub enum Front {
    /// A closed gate.
    Closed,
    /// An open gate, and no whole record behind it.
    Torn,
    /// A whole record, and the gate behind it.
    Whole {
        /// The bytes of its body.
        size: u32,
    },
}

impl Journal {
    ghost use Rattle.std.specs.Prelude.{option_to_list};
    ghost use Rattle.journal_core.specs.Records.{From};
    ghost use Rattle.journal_core.specs.Standing.{IsStill};
    ghost use Rattle.journal_core.specs.Reading.{HasRecord, NextIs, TakesFirst};

    /// Gives the body of the next record, or `None` at the closed gate behind the last one.
    ///
    /// It takes memory for that one body. After a fault the journal is as it was.
    pub fn next<D: Disk>(&mut self, alloc: Global, disk: &mut D) -> Result<Option<Bytes>, OpenFault>
        ensures value { D.tells_files → NextIs self.old (file_of self.old.side (D.seen disk.old))
            self.new result }

        // The same by all the bodies that stand from the journal's place on, and by those that it
        // has read.
        ensures first { D.tells_files → (bodies : List (List ℕ)) →
            From self.old.place bodies (file_of self.old.side (D.seen disk.old)) →
            IfOk result (TakesFirst bodies (file_of self.old.side (D.seen disk.old)) self.new) }
        ensures still { D.tells_files → (bodies : List (List ℕ)) →
            IsStill self.old bodies (D.clock disk.old).now (D.seen disk.old) →
            IfOk result (λ next. IsStill self.new (bodies ++ option_to_list next)
            (D.clock disk.new).now (D.seen disk.new)) }
        ensures kept { OnErr result (self.new ≡ self.old) }

        // Memory is taken only where a record stands whole.
        ensures memory { D.tells_files → IsErrOf result faults.Memory →
            HasRecord self.old.place (file_of self.old.side (D.seen disk.old)) }

        // Whatever the disk tells: a record takes the journal on, and at none all were read.
        ensures advances { IfOk result (λ next. OnSome next (self.old.place < self.new.place)) }
        ensures ended { IfOk result (λ next. IfNone next (IsTrue self.new.all_read)) }
        ensures sound { self.new.failed ≡ self.old.failed }
        ensures version { self.new.version ≡ self.old.version }
        ensures told { D.tells_files → OnlyLooks (D.clock disk.old) (D.clock disk.new)
            (D.seen disk.old) (D.seen disk.new) }
        ensures blames { BlamesWhere D.Clocked disk.old disk.new (IsErrOf result faults.Disk) }
    {
        match read_front(disk, self.side, self.place) {
            Err(_failed) => Err(OpenFault::Disk),
            Ok(Front::Closed) => {
                self.all_read = true;
                Ok(None)
            }
            Ok(Front::Torn) => Err(OpenFault::NotAJournal {
                why: Place9::Record { at: self.place },
            }),
            Ok(Front::Whole { size }) => {
                let body = read_there(alloc, disk, self.side, self.place + 5, size)?;
                self.place += size as u64 + 5;
                Ok(Some(body))
            }
        }
    }
}

// What stands at the place.
fn read_front<D: Disk>(disk: &mut D, side: Side, place: u64) -> Result<Front, DiskFailed>
    ensures value { D.tells_files → IfOk result (λ front.
        FrontIs front (drop place (file_of side (D.seen disk.old)))) }
    ensures fits { IfOk result (FrontFits place (2 ^ 64)) }
    ensures told { D.tells_files → OnlyLooks (D.clock disk.old) (D.clock disk.new)
        (D.seen disk.old) (D.seen disk.new) }
    ensures blames { Blames D.Clocked disk.old disk.new result }
{
    let mut bytes = [0; 5];
    let count = disk.read(side, place, &mut bytes)?;
    let total = disk.length(side)?;
    Ok(front_in(&bytes[..count], total.saturating_sub(place)))
}

/// What the first bytes of a record say of it, of which at most 5 stand here, where so many bytes
/// stand in the file from the record on.
pub fn front_in(bytes: &[u8], left: u64) -> Front
    ensures value { (rest : List ℕ) → length bytes.now ≡ min 5 (length rest) → left ≡ length rest →
        bytes.now ≡ take (length bytes.now) rest → FrontIs result rest }
    ensures fits { FrontFits 0 (left + 1) result }
{
    if bytes.len() == 0 || bytes[0] != OPEN {
        return Front::Closed;
    }
    if bytes.len() < 5 {
        return Front::Torn;
    }
    let size = u32::from_be_bytes([bytes[1], bytes[2], bytes[3], bytes[4]]);
    if size == 0 || size > MAX_BODY || left < size as u64 + 6 {
        return Front::Torn;
    }
    Front::Whole { size }
}

/// Reads so many bytes from a place on, or as many as there are.
pub fn read_up_to<D: Disk>(
    alloc: Global,
    disk: &mut D,
    side: Side,
    at: u64,
    size: u32,
) -> Result<Bytes, OpenFault>
    ensures value { D.tells_files →
        IfOk result (λ body. body ≡ take size (drop at (file_of side (D.seen disk.old)))) }
    ensures only { (why : Place9) → IsErrOf result (faults.NotAJournal why) → ⊥ }
    ensures told { D.tells_files → OnlyLooks (D.clock disk.old) (D.clock disk.new)
        (D.seen disk.old) (D.seen disk.new) }
    ensures blames { BlamesWhere D.Clocked disk.old disk.new (IsErrOf result faults.Disk) }
{
    let mut body = Vec::new(alloc);
    body.resize(size as usize, 0)?;
    let count = disk.read(side, at, &mut body)?;
    body.truncate(count);
    Ok(Bytes::of(body))
}

/// Reads so many bytes from a place on, of which the file has as many. What a record claims is read by this alone: so
/// memory is taken for a claim only after it was compared with the file's length.
pub fn read_there<D: Disk>(
    alloc: Global,
    disk: &mut D,
    side: Side,
    at: u64,
    size: u32,
) -> Result<Bytes, OpenFault>
    requires there { D.tells_files → size ≤ length (file_of side (D.seen disk.old)) - at }
    ensures value { D.tells_files →
        IfOk result (λ body. body ≡ take size (drop at (file_of side (D.seen disk.old)))) }
    ensures only { (why : Place9) → IsErrOf result (faults.NotAJournal why) → ⊥ }
    ensures told { D.tells_files → OnlyLooks (D.clock disk.old) (D.clock disk.new)
        (D.seen disk.old) (D.seen disk.new) }
    ensures blames { BlamesWhere D.Clocked disk.old disk.new (IsErrOf result faults.Disk) }
{
    read_up_to(alloc, disk, side, at, size)
}
