//! Resynchronisations of a mailbox with many messages, which are committed again and again to a store in memory.

ghost use Rattle.std.specs.Prelude.{◌≡◌, ◌≤◌, false, OnOk};
ghost use Rattle.world_traits.specs.Memory.{state_of};
ghost use Rattle.journal_core.specs.Sides.{version_written};
ghost use Rattle.store_core.specs.Mail.{mail};
ghost use Rattle.store_core.specs.Holding.{IsAsLeft};
ghost use Rattle.mail_bench.specs.Names.{name_of_told};

use crate::records::{ROWS, learned};
use journal_core::WRITTEN;
use mail_base::Status;
use record_codec::{RecordFault, decode};
use std::alloc::{AllocError, Global};
use store_core::{CommitFault, Store, StoreFault, is_old};
use world_traits::MemDisk;

/// What each resynchronisation tells.
#[derive(Clone, Copy, Debug, PartialEq, Eq)]
pub enum Told {
    /// No row.
    Nothing,
    /// A row for each of the mailbox's messages.
    All,
}

impl Told {
    /// The word that names it.
    pub fn name(&self) -> &'static str
        ensures text { result.now ≡ name_of_told self.now }
    {
        match *self {
            Told::Nothing => "nothing",
            Told::All => "all",
        }
    }

    // How many rows are told.
    fn rows(&self) -> u32
        ensures { result ≤ 200000 }
    {
        match *self {
            Told::Nothing => 0,
            Told::All => ROWS,
        }
    }
}

/// Opens a store whose mailbox has `ROWS` messages, and commits a resynchronisation of it so often. Where it isn't done, the
/// status says why.
pub(crate) fn commit_often(alloc: Global, told: Told, times: u32) -> Result<(), Status> {
    let body = learned(alloc, 0, told.rows()).map_err(wanting)?;
    let file = mailbox(alloc).map_err(wanting)?;
    let mut disk = MemDisk::new(file, Vec::new(alloc));
    let mut store = Store::open(alloc, &mut disk).map_err(unopened)?;
    if store.version() == WRITTEN {
        return commit_all(alloc, &mut store, &mut disk, &body, times);
    }
    Err(Status::Journal)
}

// Commits the event of a body so often.
fn commit_all(
    alloc: Global,
    store: &mut Store,
    disk: &mut MemDisk,
    body: &[u8],
    times: u32,
) -> Result<(), Status>
    requires written { store.old.journal.version ≡ version_written }
    requires sound { store.old.journal.failed ≡ false }
    requires still { IsAsLeft mail store.old (state_of disk.old).clock.now (state_of disk.old).files }
{
    for _ in 0..times {
        commit(alloc, store, disk, body)?;
    }
    Ok(())
}

// Commits the event of a body.
fn commit(alloc: Global, store: &mut Store, disk: &mut MemDisk, body: &[u8]) -> Result<(), Status>
    requires written { store.old.journal.version ≡ version_written }
    requires sound { store.old.journal.failed ≡ false }
    requires still { IsAsLeft mail store.old (state_of disk.old).clock.now (state_of disk.old).files }
    ensures written_still { OnOk result (store.new.journal.version ≡ version_written) }
    ensures sound_still { OnOk result (store.new.journal.failed ≡ false) }
    ensures done { OnOk result (IsAsLeft mail store.new (state_of disk.new).clock.now (state_of disk.new).files) }
{
    let event = decode(alloc, body).map_err(unread)?;
    if is_old(&event) {
        return Err(Status::Journal);
    }
    if store.allows(&event).is_some() {
        return Err(Status::Journal);
    }
    store.commit(alloc, disk, event).map_err(uncommitted)
}

// The file of a journal whose mailbox `Archive` has `ROWS` messages.
fn mailbox(alloc: Global) -> Result<Vec<u8>, AllocError> {
    let first = learned(alloc, 1, ROWS)?;
    let mut file = Vec::new(alloc);
    file.extend_from_slice(
        b"\x01ODMAILJ2\x00\x00\x00\x01\x01\x00\x00\x00\x10B\x02\x05INBOX\x07Archive\x01",
    )?;
    file.extend_from_slice(&(first.len() as u32).to_be_bytes())?;
    file.extend_from_slice(&first)?;
    file.push(0)?;
    Ok(file)
}

// What want of memory ends with.
fn wanting(_refused: AllocError) -> Status {
    Status::Memory
}

// What a body that isn't read ends with.
fn unread(fault: RecordFault) -> Status {
    match fault {
        RecordFault::Memory => Status::Memory,
        RecordFault::BadForm { .. } => Status::Reply,
    }
}

// What a store that isn't opened ends with. A disk in memory fails only for want of memory.
fn unopened(fault: StoreFault) -> Status {
    match fault {
        StoreFault::Memory | StoreFault::Disk => Status::Memory,
        _ => Status::Journal,
    }
}

// What an event that isn't committed ends with.
fn uncommitted(fault: CommitFault) -> Status {
    match fault {
        CommitFault::Memory | CommitFault::Disk => Status::Memory,
        CommitFault::Full { .. } => Status::Journal,
    }
}
