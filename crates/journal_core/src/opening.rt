//! A journal is opened.

ghost use Rattle.std.specs.Prelude.{◌≡◌, ◌≤◌, [], false, IfOk, IsErrOf, MatchResult, OnErr, OnOk};
ghost use Rattle.journal_core.specs.Blames.{Blames, BlamesWhere};
ghost use Rattle.world_traits.specs.Files.{Files};
ghost use Rattle.world_traits.specs.Moments.{Rests};
ghost use Rattle.journal_core.specs.Heads.{HeadIs};
ghost use Rattle.journal_core.specs.Sides.{IsSetUp};
ghost use Rattle.journal_core.specs.Standing.{IsStill};
ghost use Rattle.journal_core.specs.Reading.{IsNoJournal, IsAtFirst, at_first};
ghost use Rattle.journal_core.specs.Settling.{Syncs};

use crate::heads::{Head, read_head};
use crate::settling::settle_both;
use crate::{Journal, OpenFault, Place9, Version};
use world_traits::{Clocked, Disk, DiskFailed, Side};

impl Journal {
    ghost use Rattle.journal_core.specs.declared.fault.OpenFault.TheVariants as faults;
    ghost use Rattle.journal_core.specs.declared.fault.Place9.{Place9};

    /// Opens the journal before its first record. It takes no memory.
    ///
    /// Both files are synced before they are read, so a later stop leaves what is read.
    pub fn open<D: Disk>(disk: &mut D) -> Result<Journal, OpenFault>
        ensures value { D.tells_files → IfOk result (λ journal.
            IsAtFirst journal (D.seen disk.old)) }
        ensures still { D.tells_files → IfOk result (λ journal.
            IsStill journal [] (D.clock disk.new).now (D.seen disk.new)) }
        ensures no_journal { D.tells_files → (why : Place9) →
            IsErrOf result (faults.NotAJournal why) → IsNoJournal why (D.seen disk.old) }
        ensures no_memory { IsErrOf result faults.Memory → ⊥ }

        // Whatever the disk tells, the journal is sound; and unless the disk failed the files read as before.
        ensures sound { IfOk result (λ journal. journal.failed ≡ false) }
        ensures seen { D.tells_files → (IsErrOf result faults.Disk → ⊥) →
            D.seen disk.new ≡ D.seen disk.old }
        ensures syncs { D.tells_files → Syncs (D.clock disk.old) (D.clock disk.new) (D.seen disk.old) }
        ensures blames { BlamesWhere D.Clocked disk.old disk.new (IsErrOf result faults.Disk) }
    {
        let (left, right) = match read_sides(disk) {
            Ok(heads) => heads,
            Err(_failed) => return Err(OpenFault::Disk),
        };
        match present_side(left, right) {
            Ok(journal) => Ok(journal),
            Err(why) => Err(OpenFault::NotAJournal { why }),
        }
    }
}

/// Syncs both files and reads their heads.
pub fn read_sides<D: Disk>(disk: &mut D) -> Result<(Head, Head), DiskFailed>
    ensures left { D.tells_files → IfOk result (λ heads. HeadIs heads.0 (D.seen disk.old).left) }
    ensures right { D.tells_files → IfOk result (λ heads. HeadIs heads.1 (D.seen disk.old).right) }
    ensures syncs { D.tells_files → Syncs (D.clock disk.old) (D.clock disk.new) (D.seen disk.old) }
    ensures rests { D.tells_files → OnOk result (Rests (D.clock disk.new).now (D.seen disk.new)) }
    ensures seen { D.tells_files → OnOk result (D.seen disk.new ≡ D.seen disk.old) }
    ensures blames { Blames D.Clocked disk.old disk.new result }
{
    settle_both(disk)?;
    let left = read_head(disk, Side::Left)?;
    let right = read_head(disk, Side::Right)?;
    Ok((left, right))
}

// Which side is the journal, as the two heads tell it.
fn present_side(left: Head, right: Head) -> Result<Journal, Place9>
    ensures value { (files : Files) → HeadIs left files.left → HeadIs right files.right →
        MatchResult result (λ journal. IsAtFirst journal files) (λ why. IsNoJournal why files) }
    ensures sound { IfOk result (λ journal. journal.failed ≡ false) }
{
    match (left, right) {
        (Head::Wrong, _) => Err(Place9::Header),
        (_, Head::Wrong) => Err(Place9::Header),
        (Head::Closed, Head::Closed) => Err(Place9::Absent),
        (
            Head::SetUp {
                version,
                generation,
            },
            Head::Closed,
        ) => { Ok(before_records(Side::Left, version, generation)) }
        (
            Head::Closed,
            Head::SetUp {
                version,
                generation,
            },
        ) => { Ok(before_records(Side::Right, version, generation)) }
        (
            Head::SetUp {
                version: of_left,
                generation: left,
            },
            Head::SetUp {
                version: of_right,
                generation: right,
            },
        ) => newer_side(of_left, left, of_right, right),
    }
}

// Which of two sides that are set up is the journal: the one with the higher generation.
fn newer_side(of_left: Version, left: u32, of_right: Version, right: u32) -> Result<Journal, Place9>
    ensures value { (files : Files) → IsSetUp of_left left files.left →
        IsSetUp of_right right files.right →
        MatchResult result (λ journal. IsAtFirst journal files) (λ why. IsNoJournal why files) }
    ensures sound { IfOk result (λ journal. journal.failed ≡ false) }
{
    if left == right {
        return Err(Place9::Generations);
    }
    if right < left {
        return Ok(before_records(Side::Left, of_left, left));
    }
    Ok(before_records(Side::Right, of_right, right))
}

// The journal on a side, before its first record.
fn before_records(side: Side, version: Version, generation: u32) -> Journal
    ensures { result ≡ at_first side version generation }
{
    Journal {
        side,
        version,
        generation,
        place: 13,
        all_read: false,
        failed: false,
    }
}
