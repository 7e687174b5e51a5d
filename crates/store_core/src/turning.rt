//! A book is told anew on the journal's other side.

ghost use Rattle.std.specs.Prelude.{◌≡◌, ◌≤◌, ◌<◌, ◌-◌, ◌^◌, ℕ, IfOk, IsTrue, IsErr, IsErrOf, OnOk, slice_get, true};
ghost use Rattle.journal_core.specs.Blames.{BlamesWhere};
ghost use Rattle.journal_core.specs.Appending.{told_end};
ghost use Rattle.journal_core.specs.Sides.{version_written};
ghost use Rattle.journal_core.specs.declared.fault.Place9.{Place9};
ghost use Rattle.action_queue.specs.Book.{meaning};
ghost use Rattle.action_queue.specs.Restating.{IsWellBook};
ghost use Rattle.action_queue.specs.Telling.{pieces};
ghost use Rattle.record_codec.specs.Restated.{restated_end};
ghost use Rattle.store_core.specs.Mail.{mail, rules_of};
ghost use Rattle.store_core.specs.Holding.{IsAsLeft};
ghost use Rattle.store_core.specs.Moments.{TellsAnew};
ghost use Rattle.store_core.specs.Anew.{MaySpell, Restates, told_on};
ghost use Rattle.store_core.specs.declared.fault.StoreFault.{StoreFault};
ghost use Rattle.store_core.specs.declared.fault.StoreFault.TheVariants as faults;

use crate::creating::body_of;
use crate::{Store, StoreFault};
use action_queue::{Book, Event};
use journal_core::{Journal, MAX_SIDE};
use mail_base::Bytes;
use record_codec::restated_size;
use std::alloc::{AllocError, Global};
use world_traits::{Clocked, Disk};

impl Store {
    /// The bytes of a side that holds the book as it is told anew, at most 2^64 - 1. It takes no
    /// memory, and looks at each row and action of the book.
    pub fn restated_size(&self) -> u64
        ensures { result ≡ told_end (restated_end self.now.book) }
    {
        restated_size(&self.book)
    }

    /// Tells the book anew on the journal's other side, and goes on there in the next generation:
    /// its names, its caches by 1,000 rows, its actions with their outcomes, and what is begun of
    /// the one that is due. The side that it leaves keeps its bytes.
    ///
    /// Memory is taken before the first write: beside the book that of all the new bodies, and of
    /// one event. After `Full` and `Memory` the book and the files are as before. After `Disk` a
    /// stop leaves the book all the same, and the store isn't used again.
    pub fn turn<D: Disk>(&mut self, alloc: Global, disk: &mut D) -> Result<(), StoreFault>
        requires sound { IsTrue self.old.journal.failed → ⊥ }
        requires later { self.old.journal.generation < 2 ^ 32 - 1 }
        requires still { D.tells_files →
            IsAsLeft mail self.old (D.clock disk.old).now (D.seen disk.old) }

        ensures moments { D.tells_files →
            TellsAnew self.old.book (D.clock disk.old) (D.clock disk.new) }
        ensures value { self.new.book ≡ self.old.book }
        ensures done { D.tells_files → OnOk result
            (IsAsLeft mail self.new (D.clock disk.new).now (D.seen disk.new)) }
        ensures moved { OnOk result
            (self.new.journal ≡ told_on (restated_end self.old.book) self.old.journal) }

        // `Full` comes where the side would pass the journal's limit, and only there.
        ensures over { 2 ^ 30 < restated_end self.old.book → IsErrOf result
            (faults.Full 0 (told_end (restated_end self.old.book))) }
        ensures full { (end wanted : ℕ) → IsErrOf result (faults.Full end wanted) →
            2 ^ 30 < restated_end self.old.book }
        ensures only { (IsErrOf result faults.Already → ⊥)
            × ((why : Place9) → IsErrOf result (faults.NotAJournal why) → ⊥) }
        ensures stopped { IsErrOf result faults.Disk → self.new.journal.failed ≡ true }
        ensures kept { IsErr result → (IsErrOf result faults.Disk → ⊥) →
            (self.new ≡ self.old) × (disk.new ≡ disk.old) }
        ensures blames { BlamesWhere D.Clocked disk.old disk.new (IsErrOf result faults.Disk) }
    {
        let wanted = self.restated_size();
        if wanted > MAX_SIDE {
            return Err(StoreFault::Full { end: 0, wanted });
        }
        let bodies = told_bodies(alloc, &self.book)?;
        self.turn_to(disk, bodies.as_slice())
    }

    // Goes on on the journal's other side with bodies that tell the book anew. It takes no memory.
    fn turn_to<D: Disk>(&mut self, disk: &mut D, bodies: &[Bytes]) -> Result<(), StoreFault>
        requires tells { Restates self.old.book bodies.now }
        requires fits { restated_end self.old.book ≤ 2 ^ 30 }
        requires sound { IsTrue self.old.journal.failed → ⊥ }
        requires later { self.old.journal.generation < 2 ^ 32 - 1 }
        requires still { D.tells_files →
            IsAsLeft mail self.old (D.clock disk.old).now (D.seen disk.old) }

        ensures moments { D.tells_files →
            TellsAnew self.old.book (D.clock disk.old) (D.clock disk.new) }
        ensures value { self.new.book ≡ self.old.book }
        ensures done { D.tells_files → OnOk result
            (IsAsLeft mail self.new (D.clock disk.new).now (D.seen disk.new)) }
        ensures moved { OnOk result
            (self.new.journal ≡ told_on (restated_end self.old.book) self.old.journal) }
        ensures only { (fault : StoreFault) → IsErrOf result fault → fault ≡ faults.Disk }
        ensures stopped { IsErrOf result faults.Disk → self.new.journal.failed ≡ true }
        ensures blames { BlamesWhere D.Clocked disk.old disk.new (IsErrOf result faults.Disk) }
    {
        self.journal.turn(disk, bodies)?;
        Ok(())
    }
}

// The bodies that tell a book anew, of which one event is made at a time. Fails for want of memory
// alone.
fn told_bodies(alloc: Global, book: &Book) -> Result<Vec<Bytes>, AllocError>
    requires well { IsWellBook (rules_of version_written) (meaning book.now) }
    requires fits { restated_end (meaning book.now) ≤ 2 ^ 30 }
    ensures { IfOk result (λ bodies. Restates (meaning book.now) bodies.items) }
{
    let mut bodies = Vec::new(alloc);
    while let Some(body) = told_at(alloc, book, bodies.len())? {
        bodies.push(body)?;
    }
    Ok(bodies)
}

// The body at a place, counted from 0, of those that tell a book anew.
fn told_at(alloc: Global, book: &Book, place: usize) -> Result<Option<Bytes>, AllocError>
    requires well { IsWellBook (rules_of version_written) (meaning book.now) }
    requires fits { restated_end (meaning book.now) ≤ 2 ^ 30 }
    ensures { IfOk result (λ body. MaySpell (slice_get (pieces (meaning book.now)) place) body) }
{
    let Some(event) = book.restated_at(alloc, place)? else {
        return Ok(None);
    };
    let body = body_of(alloc, &event)?;
    Ok(Some(body))
}
