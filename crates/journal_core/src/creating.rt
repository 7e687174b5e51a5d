//! A journal is created with its first bodies.

ghost use Rattle.std.specs.Prelude.{◌≡◌, ◌≤◌, ◌<◌, ◌+◌, ◌^◌, ◌++◌, ℕ, IsErr, IfOk, IsErrOf};
ghost use Rattle.std.specs.Prelude.{length, OnOk, IsNone, IfSome};
ghost use Rattle.journal_core.specs.Blames.{BlamesWhere};
ghost use Rattle.world_traits.specs.Files.{Files};
ghost use Rattle.world_traits.specs.Moments.{Narrows};
ghost use Rattle.journal_core.specs.Appending.{told_end};
ghost use Rattle.journal_core.specs.Creating.{NoneEmpty, IsTaken, IsUnbegun, CreatesJournal};
ghost use Rattle.journal_core.specs.Creating.{set_up_bytes, end_of, created};
ghost use Rattle.journal_core.specs.Heads.{HeadIs};
ghost use Rattle.journal_core.specs.Reading.{AnyWrong};
ghost use Rattle.journal_core.specs.Sides.{version_written};
ghost use Rattle.journal_core.specs.Records.{AreBodies, records, open_record};
ghost use Rattle.journal_core.specs.Standing.{IsStill};
ghost use Rattle.journal_core.specs.Taken.{IsWhyTaken};
ghost use Rattle.journal_core.specs.declared.fault.Place9.{Place9};
ghost use Rattle.journal_core.specs.declared.fault.Place9.TheVariants as places;
ghost use Rattle.journal_core.specs.declared.creating.CreateFault.TheVariants as faults;

use crate::gated::{CLOSED, OPEN};
use crate::heads::Head;
use crate::opening::read_sides;
use crate::setting_up::set_up;
use crate::version::{MAGIC, WRITTEN};
use crate::{Journal, Place9};
use mail_base::Bytes;
use std::alloc::{AllocError, Global};
use thiserror::Error;
use world_traits::{Clocked, Disk, Side};

/// The place that no journal ends behind, in bytes.
pub const MAX_SIDE: u64 = 1_073_741_824;

/// Why a journal isn't created.
#[derive(Clone, Copy, Debug, PartialEq, Eq, Drop, Error)]
pub enum CreateFault {
    /// Memory is wanting.
    #[error("out of memory")]
    Memory,
    /// The disk failed. A stop leaves no side begun, or all the bodies.
    #[error("the disk failed")]
    Disk,
    /// A side has a wrong header.
    #[error("no journal")]
    NotAJournal { why: Place9 },
    /// A journal is there.
    #[error("a journal is there")]
    Already,
    /// The file would end at `wanted`, past 2^30 bytes. Nothing was there, so `end` is 0, and
    /// `wanted` is at most 2^64 - 1.
    #[error("the journal is full")]
    Full { end: u64, wanted: u64 },
}

impl Journal {
    /// Creates a journal with these bodies, in generation 1, where no side was begun. The journal
    /// then stands behind them.
    ///
    /// It takes memory for all the bodies, and before it writes.
    pub fn create<D: Disk>(
        alloc: Global,
        disk: &mut D,
        bodies: &[Bytes],
    ) -> Result<Journal, CreateFault>
        requires some { 0 < length bodies.now }
        requires sizes { NoneEmpty bodies.now }
        ensures value { IfOk result (λ journal. journal ≡ created bodies.now) }
        ensures still { D.tells_files → IfOk result (λ journal.
            IsStill journal bodies.now (D.clock disk.new).now (D.seen disk.new)) }
        ensures within { OnOk result (end_of bodies.now ≤ 2 ^ 30) }
        ensures unbegun { D.tells_files → OnOk result (IsUnbegun (D.seen disk.old)) }
        ensures header { D.tells_files → (why : Place9) →
            IsErrOf result (faults.NotAJournal why) →
            (why ≡ places.Header) × AnyWrong (D.seen disk.old) }
        ensures already { D.tells_files → IsErrOf result faults.Already →
            IsTaken (D.seen disk.old) }

        // Where a journal is there a stop leaves what one at entry could have left, also where the
        // disk fails.
        ensures taken { D.tells_files → IsTaken (D.seen disk.old) →
            Narrows (D.clock disk.old) (D.clock disk.new) }
        ensures full { (end wanted : ℕ) → IsErrOf result (faults.Full end wanted) →
            (2 ^ 30 < end_of bodies.now) × (end ≡ 0) × (wanted ≡ told_end (end_of bodies.now)) }
        ensures full_unbegun { D.tells_files → (end wanted : ℕ) →
            IsErrOf result (faults.Full end wanted) → IsUnbegun (D.seen disk.old) }
        ensures creates { D.tells_files →
            CreatesJournal bodies.now (D.clock disk.old) (D.clock disk.new) (D.seen disk.old) }

        // But after a failure of the disk, an error leaves the files as they were.
        ensures kept { D.tells_files → IsErr result → (IsErrOf result faults.Disk → ⊥) →
            Narrows (D.clock disk.old) (D.clock disk.new) × (D.seen disk.new ≡ D.seen disk.old) }
        ensures blames { BlamesWhere D.Clocked disk.old disk.new (IsErrOf result faults.Disk) }
    {
        let (left, right) = match read_sides(disk) {
            Ok(heads) => heads,
            Err(_failed) => return Err(CreateFault::Disk),
        };
        if let Some(fault) = why_taken(left, right) {
            return Err(fault);
        }
        let wanted = place_behind(bodies);
        if wanted > MAX_SIDE {
            return Err(CreateFault::Full { end: 0, wanted });
        }
        let Ok(fresh) = side_bytes(alloc, 1, bodies) else {
            return Err(CreateFault::Memory);
        };
        match set_up(disk, Side::Left, &fresh) {
            Err(_failed) => Err(CreateFault::Disk),
            Ok(()) => Ok(Journal {
                side: Side::Left,
                version: WRITTEN,
                generation: 1,
                place: wanted - 1,
                all_read: true,
                failed: false,
            }),
        }
    }
}

// Why no journal can be created beside these heads.
fn why_taken(left: Head, right: Head) -> Option<CreateFault>
    ensures none { (files : Files) → HeadIs left files.left → HeadIs right files.right →
        IsNone result → IsUnbegun files }
    ensures some { (files : Files) → HeadIs left files.left → HeadIs right files.right →
        IfSome result (λ fault. IsWhyTaken fault files) }
    ensures no_disk { IfSome result (λ fault. fault ≡ faults.Disk → ⊥) }
    ensures not_full { IfSome result (λ fault.
        (end wanted : ℕ) → fault ≡ faults.Full end wanted → ⊥) }
{
    match (left, right) {
        (Head::Wrong, _) => Some(CreateFault::NotAJournal {
            why: Place9::Header,
        }),
        (_, Head::Wrong) => Some(CreateFault::NotAJournal {
            why: Place9::Header,
        }),
        (Head::Closed, Head::Closed) => None,
        (Head::SetUp { .. }, _) => Some(CreateFault::Already),
        (Head::Closed, Head::SetUp { .. }) => Some(CreateFault::Already),
    }
}

// The bytes of a side from place 1 on.
fn side_bytes(alloc: Global, generation: u32, bodies: &[Bytes]) -> Result<Vec<u8>, AllocError>
    requires sizes { AreBodies bodies.now }
    ensures { IfOk result (λ bytes.
        bytes.items ≡ set_up_bytes version_written generation bodies.now) }
{
    let mut bytes = Vec::new(alloc);
    bytes.extend_from_slice(&MAGIC)?;
    bytes.extend_from_slice(&generation.to_be_bytes())?;
    for body in bodies {
        push_record(&mut bytes, body.as_slice())?;
    }
    bytes.push(CLOSED)?;
    Ok(bytes)
}

// Adds a record with an open gate.
fn push_record(bytes: &mut Vec<u8>, body: &[u8]) -> Result<(), AllocError>
    requires fits { length body.now < 2 ^ 32 }
    ensures { OnOk result (bytes.new.items ≡ bytes.old.items ++ open_record body.now) }
{
    bytes.push(OPEN)?;
    bytes.extend_from_slice(&(body.len() as u32).to_be_bytes())?;
    bytes.extend_from_slice(body)
}

/// The place behind the closed gate behind these records, or 2^64 - 1 where it is past that.
pub fn place_behind(bodies: &[Bytes]) -> u64
    ensures { result ≡ told_end (end_of bodies.now) }
{
    let mut place: u64 = 14;
    for body in bodies {
        place = place
            .saturating_add(5)
            .saturating_add(body.as_slice().len() as u64);
    }
    place
}
