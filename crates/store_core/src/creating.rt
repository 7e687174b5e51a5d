//! A book is begun on a disk without a journal.

ghost use Rattle.std.specs.Prelude.{◌≡◌, ◌≤◌, ◌^◌, ℕ, List, IfOk, IsErr, IsErrOf, OnOk, false, length};
ghost use Rattle.std.specs.List.{AllByRecursion};
ghost use Rattle.journal_core.specs.Blames.{BlamesWhere};
ghost use Rattle.mail_base.specs.BoxName.{IsBoxName};
ghost use Rattle.world_traits.specs.Moments.{Narrows};
ghost use Rattle.journal_core.specs.Creating.{IsTaken, IsUnbegun};
ghost use Rattle.journal_core.specs.Reading.{AnyWrong};
ghost use Rattle.mail_base.specs.Bodies.{frame_of};
ghost use Rattle.journal_core.specs.Appending.{IsFrame};
ghost use Rattle.journal_core.specs.declared.fault.Place9.{Place9};
ghost use Rattle.journal_core.specs.declared.fault.Place9.TheVariants as places;
ghost use Rattle.action_queue.specs.Book.{meaning, begun};
ghost use Rattle.action_queue.specs.Events.{AreNames, IsFirst, first_book};
ghost use Rattle.action_queue.specs.declared.event.Event.TheVariants as events;
ghost use Rattle.action_queue.specs.Writable.{IsWritable};
ghost use Rattle.record_codec.specs.Bodies.{body_of};
ghost use Rattle.record_codec.specs.Spelling.{IsKept, Spelled};
ghost use Rattle.store_core.specs.Mail.{mail};
ghost use Rattle.store_core.specs.Fold.{IsFold};
ghost use Rattle.store_core.specs.Holding.{IsAsLeft};
ghost use Rattle.store_core.specs.Moments.{BeginsBook};
ghost use Rattle.store_core.specs.declared.fault.StoreFault.TheVariants as faults;

use crate::{Store, StoreFault};
use action_queue::{Book, Event};
use journal_core::Journal;
use mail_base::{BoxName, Bytes, List};
use record_codec::encode;
use std::alloc::{AllocError, Global};
use world_traits::{Clocked, Disk};

impl Store {
    /// Begins the book of these mailboxes, where no side was begun.
    ///
    /// Both files are synced first; where a side has a wrong header or a journal is there, they stay as they are. Memory is
    /// taken before the first write. A stop leaves no journal, or the whole Begin.
    pub fn init<D: Disk>(
        alloc: Global,
        disk: &mut D,
        names: List<BoxName>,
    ) -> Result<Store, StoreFault>
        requires { AreNames names }
        ensures value { IfOk result (λ store. store.book ≡ begun names) }
        ensures fold { IfOk result (λ store. IsFold store.book) }
        ensures sound { IfOk result (λ store. store.journal.failed ≡ false) }
        ensures still { D.tells_files → IfOk result (λ store.
            IsAsLeft mail store (D.clock disk.new).now (D.seen disk.new)) }

        // Each refusal has its cause in the files as read. A Begin has room.
        ensures unbegun { D.tells_files → OnOk result (IsUnbegun (D.seen disk.old)) }
        ensures header { D.tells_files → (why : Place9) → IsErrOf result (faults.NotAJournal why) →
            (why ≡ places.Header) × AnyWrong (D.seen disk.old) }
        ensures already { D.tells_files → IsErrOf result faults.Already → IsTaken (D.seen disk.old) }
        ensures not_full { (end wanted : ℕ) → IsErrOf result (faults.Full end wanted) → ⊥ }

        // Where a journal is there a stop leaves what one at entry could have left, also where the
        // disk fails.
        ensures taken { D.tells_files → IsTaken (D.seen disk.old) →
            Narrows (D.clock disk.old) (D.clock disk.new) }
        ensures moments { D.tells_files → BeginsBook names (D.clock disk.old) (D.clock disk.new) }

        // But after a failure of the disk, an error leaves the files as they were.
        ensures kept { D.tells_files → IsErr result → (IsErrOf result faults.Disk → ⊥) →
            Narrows (D.clock disk.old) (D.clock disk.new) × (D.seen disk.new ≡ D.seen disk.old) }
        ensures blames { BlamesWhere D.Clocked disk.old disk.new (IsErrOf result faults.Disk) }
    {
        are_short(names.as_slice());
        let event = Event::Begin { names };
        let body = begin_body(alloc, &event)?;
        let book = begun_by(alloc, event)?;
        let journal = Journal::create(alloc, disk, &[body])?;
        Ok(Store { journal, book })
    }
}

// Names are as their type keeps them, so a Begin is short.
fn are_short(names: &[BoxName])
    ensures { AllByRecursion IsBoxName names.now }
{
    for name in names {
        let _name = name.as_bytes();
    }
}

// The body of a Begin's record.
fn begin_body(alloc: Global, event: &Event) -> Result<Bytes, AllocError>
    requires first { IsFirst event.now }
    requires short { IsKept event.now }
    ensures { IfOk result (λ body. Spelled body event.now) }
{
    body_of(alloc, event)
}

/// The body of an event's record. Fails for want of memory alone.
pub fn body_of(alloc: Global, event: &Event) -> Result<Bytes, AllocError>
    requires writable { IsWritable event.now }
    requires fits { length (body_of event.now) ≤ 2 ^ 30 }
    ensures { IfOk result (λ body. Spelled body event.now) }
{
    let frame = encode(alloc, event)?;
    body_in(alloc, &frame)
}

// The book of a journal that begins so.
fn begun_by(alloc: Global, event: Event) -> Result<Book, AllocError>
    requires { IsFirst event }
    ensures { IfOk result (λ book. meaning book ≡ first_book event) }
{
    match event {
        Event::Begin { names } => Book::new(alloc, names),
        _ => unreachable!(),
    }
}

// The body in a frame: what stands behind the four bytes of its length, but for the gate.
fn body_in(alloc: Global, frame: &[u8]) -> Result<Bytes, AllocError>
    requires { IsFrame frame.now }
    ensures { (body : List ℕ) → frame.now ≡ frame_of body → IfOk result (λ bytes. bytes ≡ body) }
{
    let body = frame[4..frame.len() - 1].to_vec(alloc)?;
    Ok(Bytes::of(body))
}
