//! An event is recorded: it is on the disk before the book has it.

ghost use Rattle.std.specs.Prelude.{◌≡◌, ◌↔◌, ◌≤◌, ◌<◌, ◌+◌, ℕ, Some, IsTrue, IsErr, IsErrOf, OnOk, false, true, length};
ghost use Rattle.journal_core.specs.Blames.{BlamesWhere};
ghost use Rattle.journal_core.specs.Appending.{end_with, told_end};
ghost use Rattle.journal_core.specs.Limits.{max_side};
ghost use Rattle.journal_core.specs.Sides.{version_written};
ghost use Rattle.mail_base.specs.Bodies.{frame_of};
ghost use Rattle.record_codec.specs.Bodies.{body_of};
ghost use Rattle.action_queue.specs.Book.{after};
ghost use Rattle.store_core.specs.Mail.{mail, IsOld, MayCome};
ghost use Rattle.action_queue.specs.Writable.{IsWritable};
ghost use Rattle.action_queue.specs.declared.event.Event.TheVariants as events;
ghost use Rattle.store_core.specs.Holding.{IsAsLeft};
ghost use Rattle.store_core.specs.Moments.{RecordsEvent};
ghost use Rattle.store_core.specs.Room.{limit_of, end_after};
ghost use Rattle.store_core.specs.declared.fault.CommitFault.TheVariants as faults;

use crate::{CommitFault, Store};
use action_queue::{Event, Outcome};
use journal_core::{Journal, MAX_SIDE};
use mail_base::ActionId;
use record_codec::{encode, encode_outcome, encode_withdraw, size};
use std::alloc::Global;
use world_traits::{Clocked, Disk};

/// The place that an accepted action's record may not end behind, in bytes: room is left to play what was accepted.
pub const MAX_ACCEPTED: u64 = 536_870_912;

/// The place that no other record may end behind, in bytes: that of the journal.
pub const MAX_OTHER: u64 = MAX_SIDE;

impl Store {
    /// Records an event, and enters it into the book. An action that ended is told by a turn alone,
    /// so it isn't committed.
    ///
    /// Memory is taken before the first write. After `Full` and `Memory` the book and the files are as before. After
    /// `Disk` the event is on the disk or not, and the store isn't used again.
    pub fn commit<D: Disk>(
        &mut self,
        alloc: Global,
        disk: &mut D,
        event: Event,
    ) -> Result<(), CommitFault>
        requires written { self.old.journal.version ≡ version_written }
        requires lawful { MayCome self.old.journal.version (Some self.old.book) event }
        requires writable { IsWritable event }
        requires fresh { IsOld event → ⊥ }
        requires sound { IsTrue self.old.journal.failed → ⊥ }
        requires still { D.tells_files → IsAsLeft mail self.old (D.clock disk.old).now (D.seen disk.old) }

        ensures moments { D.tells_files → RecordsEvent self.old.journal.version self.old.book event
            (D.clock disk.old) (D.clock disk.new) }

        // After Ok the book is the one after the event, and the files hold it.
        ensures value { OnOk result (self.new.book ≡ after self.old.book event) }
        ensures done { D.tells_files → OnOk result (IsAsLeft mail self.new (D.clock disk.new).now (D.seen disk.new)) }
        ensures sound_still { OnOk result (self.new.journal.failed ≡ false) }
        ensures moved { OnOk result (self.new.journal ≡ record self.old.journal {
          place = self.old.journal.place + length (frame_of (body_of event));
        }) }

        // `Full` comes where the event has no room, and only there.
        ensures over { limit_of event < end_after event self.old → IsErrOf result
            (faults.Full (told_end (end_with 0 self.old.journal)) (told_end (end_after event self.old))) }
        ensures full { (end wanted : ℕ) → IsErrOf result (faults.Full end wanted) →
            limit_of event < end_after event self.old }
        ensures stopped { IsErrOf result faults.Disk → (self.new.book ≡ self.old.book) × (self.new.journal.failed ≡ true) }
        ensures kept { IsErr result → (IsErrOf result faults.Disk → ⊥) →
            (self.new ≡ self.old) × (disk.new ≡ disk.old) }
        ensures blames { BlamesWhere D.Clocked disk.old disk.new (IsErrOf result faults.Disk) }
    {
        let limit = limit_of(&event);
        room_for(&self.journal, size(&event), limit)?;
        let frame = encode(alloc, &event)?;
        let ready = self.book.prepare(event)?;
        match self.journal.append(disk, &frame, limit) {
            Ok(()) => {
                self.book.enter(ready);
                Ok(())
            }
            Err(fault) => {
                drop(ready);
                Err(CommitFault::from(fault))
            }
        }
    }

    /// Records how the action that is due ended, and enters it into the book. It takes no memory.
    ///
    /// After `Full` the book and the files are as before. After `Disk` the outcome is on the disk or not, and the store
    /// isn't used again.
    pub fn settle<D: Disk>(
        &mut self,
        disk: &mut D,
        id: ActionId,
        outcome: Outcome,
    ) -> Result<(), CommitFault>
        requires written { self.old.journal.version ≡ version_written }
        requires lawful { MayCome self.old.journal.version (Some self.old.book) (events.Settle id outcome) }
        requires sound { IsTrue self.old.journal.failed → ⊥ }
        requires still { D.tells_files → IsAsLeft mail self.old (D.clock disk.old).now (D.seen disk.old) }

        // As `commit` says it of this event.
        ensures moments { D.tells_files → RecordsEvent self.old.journal.version self.old.book (events.Settle id outcome)
            (D.clock disk.old) (D.clock disk.new) }
        ensures value { OnOk result (self.new.book ≡ after self.old.book (events.Settle id outcome)) }
        ensures done { D.tells_files → OnOk result (IsAsLeft mail self.new (D.clock disk.new).now (D.seen disk.new)) }
        ensures sound_still { OnOk result (self.new.journal.failed ≡ false) }
        ensures moved { OnOk result (self.new.journal ≡ record self.old.journal {
          place = self.old.journal.place + length (frame_of (body_of (events.Settle id outcome)));
        }) }

        ensures over { max_side < end_after (events.Settle id outcome) self.old → IsErrOf result
            (faults.Full (told_end (end_with 0 self.old.journal)) (told_end (end_after (events.Settle id outcome) self.old))) }
        ensures full { (end wanted : ℕ) → IsErrOf result (faults.Full end wanted) →
            max_side < end_after (events.Settle id outcome) self.old }
        ensures no_memory { IsErrOf result faults.Memory → ⊥ }
        ensures stopped { IsErrOf result faults.Disk → (self.new.book ≡ self.old.book) × (self.new.journal.failed ≡ true) }
        ensures kept { IsErr result → (IsErrOf result faults.Disk → ⊥) →
            (self.new ≡ self.old) × (disk.new ≡ disk.old) }
        ensures blames { BlamesWhere D.Clocked disk.old disk.new (IsErrOf result faults.Disk) }
    {
        let frame = encode_outcome(id, &outcome);
        self.journal.append(disk, &frame, MAX_OTHER)?;
        self.book.settle(id, outcome);
        Ok(())
    }

    /// Records that the command of the action that is due is taken back, so that it may be tried once more, behind this
    /// many that were, and enters it into the book. It takes no memory.
    ///
    /// After `Full` the book and the files are as before. After `Disk` the event is on the disk or not, and the store
    /// isn't used again.
    pub fn withdraw<D: Disk>(
        &mut self,
        disk: &mut D,
        id: ActionId,
        tries: u8,
    ) -> Result<(), CommitFault>
        requires written { self.old.journal.version ≡ version_written }
        requires lawful { MayCome self.old.journal.version (Some self.old.book) (events.Withdraw id tries) }
        requires sound { IsTrue self.old.journal.failed → ⊥ }
        requires still { D.tells_files → IsAsLeft mail self.old (D.clock disk.old).now (D.seen disk.old) }

        // As `commit` says it of this event.
        ensures moments { D.tells_files → RecordsEvent self.old.journal.version self.old.book (events.Withdraw id tries)
            (D.clock disk.old) (D.clock disk.new) }
        ensures value { OnOk result (self.new.book ≡ after self.old.book (events.Withdraw id tries)) }
        ensures done { D.tells_files → OnOk result (IsAsLeft mail self.new (D.clock disk.new).now (D.seen disk.new)) }
        ensures sound_still { OnOk result (self.new.journal.failed ≡ false) }
        ensures moved { OnOk result (self.new.journal ≡ record self.old.journal {
          place = self.old.journal.place + length (frame_of (body_of (events.Withdraw id tries)));
        }) }

        ensures over { max_side < end_after (events.Withdraw id tries) self.old → IsErrOf result
            (faults.Full (told_end (end_with 0 self.old.journal)) (told_end (end_after (events.Withdraw id tries) self.old))) }
        ensures full { (end wanted : ℕ) → IsErrOf result (faults.Full end wanted) →
            max_side < end_after (events.Withdraw id tries) self.old }
        ensures no_memory { IsErrOf result faults.Memory → ⊥ }
        ensures stopped { IsErrOf result faults.Disk → (self.new.book ≡ self.old.book) × (self.new.journal.failed ≡ true) }
        ensures kept { IsErr result → (IsErrOf result faults.Disk → ⊥) →
            (self.new ≡ self.old) × (disk.new ≡ disk.old) }
        ensures blames { BlamesWhere D.Clocked disk.old disk.new (IsErrOf result faults.Disk) }
    {
        let frame = encode_withdraw(id, tries);
        self.journal.append(disk, &frame, MAX_OTHER)?;
        self.book.withdraw(id, tries);
        Ok(())
    }
}

/// Whether the event tells an action that ended before the book was told anew. A turn alone records
/// such a one.
pub fn is_old(event: &Event) -> bool
    ensures { IsTrue result ↔ IsOld event.now }
{
    match event {
        Event::Old { .. } => true,
        Event::Begin { .. }
        | Event::Accept { .. }
        | Event::Intend { .. }
        | Event::Settle { .. }
        | Event::Learn { .. }
        | Event::Reset { .. }
        | Event::Withdraw { .. } => false,
    }
}

// The place that an event's record may not end behind.
fn limit_of(event: &Event) -> u64
    ensures { result ≡ limit_of event.now }
{
    match event {
        Event::Accept { .. } => MAX_ACCEPTED,
        Event::Begin { .. }
        | Event::Intend { .. }
        | Event::Settle { .. }
        | Event::Learn { .. }
        | Event::Old { .. }
        | Event::Reset { .. }
        | Event::Withdraw { .. } => MAX_OTHER,
    }
}

// Whether a journal with a body of so many bytes more ends within the limit.
fn room_for(journal: &Journal, size: u64, limit: u64) -> Result<(), CommitFault>
    requires { limit ≤ max_side }
    ensures within { OnOk result (end_with (size + 5) journal.now ≤ limit) }
    ensures over { limit < end_with (size + 5) journal.now → IsErrOf result
        (faults.Full (told_end (end_with 0 journal.now)) (told_end (end_with (size + 5) journal.now))) }
    ensures full { (end wanted : ℕ) → IsErrOf result (faults.Full end wanted) → limit < end_with (size + 5) journal.now }
    ensures only { (IsErrOf result faults.Memory → ⊥) × (IsErrOf result faults.Disk → ⊥) }
{
    let end = journal.place().saturating_add(1);
    let wanted = end.saturating_add(size).saturating_add(5);
    if wanted > limit {
        return Err(CommitFault::Full { end, wanted });
    }
    Ok(())
}
