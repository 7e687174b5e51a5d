//! A store is opened: the events of the journal's records are entered one behind the other.

ghost use Rattle.std.specs.Prelude.{◌≡◌, ◌↔◌, ◌≤◌, ◌<◌, ◌+◌, ◌++◌, ℕ, List, [], Some, None, IfOk, OnOk, IsErrOf, IsTrue};
ghost use Rattle.std.specs.Prelude.{get_or, length, true, false};
ghost use Rattle.journal_core.specs.Blames.{BlamesWhere};
ghost use Rattle.world_traits.specs.Files.{Files, file_of};
ghost use Rattle.journal_core.specs.Records.{records};
ghost use Rattle.journal_core.specs.Reading.{HasFirstRecord, HasRecord, OnlyLooks};
ghost use Rattle.journal_core.specs.Standing.{IsStill};
ghost use Rattle.journal_core.specs.declared.version.Version.{Version};
ghost use Rattle.journal_core.specs.declared.fault.Place9.{Place9};
ghost use Rattle.journal_core.specs.declared.fault.Place9.TheVariants as places;
ghost use Rattle.action_queue.specs.Book.{Meaning, meaning};
ghost use Rattle.action_queue.specs.Events.{IsFirst, first_book};
ghost use Rattle.action_queue.specs.Writable.{IsWritable};
ghost use Rattle.action_queue.specs.declared.event.Event.{Event};
ghost use Rattle.record_codec.specs.Spelling.{Spelled};
ghost use Rattle.store_core.specs.Mail.{mail};
ghost use Rattle.store_core.specs.Books.{HasBook};
ghost use Rattle.store_core.specs.Broken.{IsBroken, IsUndue};
ghost use Rattle.store_core.specs.Reading.{Enters, EntersAll, ReadsBook, SameJournal, UndueAt};
ghost use Rattle.store_core.specs.Steps.{Books, Firm};
ghost use Rattle.store_core.specs.Fold.{IsFold, IsMade};
ghost use Rattle.store_core.specs.Holding.{IsAsLeft};
ghost use Rattle.store_core.specs.Taking.{HasBooks, IsOneOf};
ghost use Rattle.store_core.specs.Moments.{OpensStore};
ghost use Rattle.store_core.specs.declared.fault.StoreFault.TheVariants as faults;

use crate::rules::rules_of;
use crate::{Store, StoreFault};
use action_queue::{Book, Event};
use journal_core::{Bodies, Journal, Place9, Version};
use record_codec::{RecordFault, decode};
use std::alloc::Global;
use world_traits::{Clocked, Disk};

impl Store {
    /// Opens the journal, and makes the book of its events. It takes memory for the book, and for 64 KiB of records at a
    /// time, or for one that is longer.
    ///
    /// Both files are synced before they are read, so a later stop leaves what is read. A journal without records is broken
    /// at the place of its first gate, since a Begin is missing there. It is judged by the rules of its version.
    pub fn open<D: Disk>(alloc: Global, disk: &mut D) -> Result<Store, StoreFault>
        // The book is the fold of what the files hold.
        ensures value { D.tells_files → IfOk result (λ store. HasBook mail store.book (D.seen disk.old)) }
        ensures still { D.tells_files → IfOk result (λ store.
            IsAsLeft mail store (D.clock disk.new).now (D.seen disk.new)) }
        ensures sound { IfOk result (λ store. store.journal.failed ≡ false) }
        ensures fold { IfOk result (λ store. IsFold store.book) }

        // It is one of those that a stop could have left, and from now on each stop leaves it.
        ensures chosen { D.tells_files → (books : Books mail) → HasBooks mail books (D.clock disk.old).now →
            IfOk result (λ store. IsOneOf mail (Some store.book) books × HasBooks mail (Firm (Some store.book)) (D.clock disk.new).now) }

        // It is refused only where the files hold no book; where they hold one it isn't.
        ensures broken { D.tells_files → (why : Place9) → IsErrOf result (faults.NotAJournal why) →
            IsBroken mail why (D.seen disk.old) }
        ensures whole { D.tells_files → (book : Meaning) → HasBook mail book (D.seen disk.old) →
            (why : Place9) → IsErrOf result (faults.NotAJournal why) → ⊥ }
        ensures only { (IsErrOf result faults.Already → ⊥) × ((end wanted : ℕ) → IsErrOf result (faults.Full end wanted) → ⊥) }

        // Memory may be wanting only where a journal is there, and its first record stands whole.
        ensures memory { D.tells_files → IsErrOf result faults.Memory → HasFirstRecord (D.seen disk.old) }

        // Unless the disk failed the files read as before.
        ensures seen { D.tells_files → (IsErrOf result faults.Disk → ⊥) → D.seen disk.new ≡ D.seen disk.old }
        ensures moments { D.tells_files → OpensStore (D.clock disk.old) (D.clock disk.new) }
        ensures blames { BlamesWhere D.Clocked disk.old disk.new (IsErrOf result faults.Disk) }
    {
        let mut journal = Journal::open(disk)?;
        let mut book = read_begin(alloc, disk, &mut journal)?;
        read_later(alloc, disk, &mut journal, &mut book)?;
        Ok(Store { journal, book })
    }
}

// Reads the first record, which must be a Begin, and makes its book.
fn read_begin<D: Disk>(
    alloc: Global,
    disk: &mut D,
    journal: &mut Journal,
) -> Result<Book, StoreFault>
    ensures value { D.tells_files → IsStill journal.old [] (D.clock disk.old).now (D.seen disk.old) →
        IfOk result (λ book. ReadsBook mail (meaning book) journal.new (D.clock disk.new).now (D.seen disk.new)) }
    ensures made { (version : Version) → IfOk result (λ book. IsMade version (meaning book)) }
    ensures advances { OnOk result (journal.old.place < journal.new.place) }
    ensures same { SameJournal journal.old journal.new }
    ensures broken { D.tells_files → IsStill journal.old [] (D.clock disk.old).now (D.seen disk.old) →
        (why : Place9) → IsErrOf result (faults.NotAJournal why) → IsBroken mail why (D.seen disk.old) }
    ensures only { (IsErrOf result faults.Already → ⊥) × ((end wanted : ℕ) → IsErrOf result (faults.Full end wanted) → ⊥) }
    ensures stands { D.tells_files → OnOk result (HasRecord journal.old.place (file_of journal.old.side (D.seen disk.old))) }
    ensures memory { D.tells_files → IsErrOf result faults.Memory →
        HasRecord journal.old.place (file_of journal.old.side (D.seen disk.old)) }
    ensures told { D.tells_files → OnlyLooks (D.clock disk.old) (D.clock disk.new) (D.seen disk.old) (D.seen disk.new) }
    ensures blames { BlamesWhere D.Clocked disk.old disk.new (IsErrOf result faults.Disk) }
{
    let at = journal.place();
    let Some(body) = journal.next(alloc, disk)? else {
        return Err(broken_at(at));
    };
    begun_by(alloc, body.as_slice(), at)
}

// The book that a body begins, whose record is at this place. No memory is taken for another event's.
fn begun_by(alloc: Global, body: &[u8], at: u64) -> Result<Book, StoreFault>
    ensures value { (version : Version) → IfOk result (λ book. Enters mail version None body.now (meaning book)) }
    ensures made { (version : Version) → IfOk result (λ book. IsMade version (meaning book)) }
    ensures broken { (why : Place9) → IsErrOf result (faults.NotAJournal why) →
        (why ≡ places.Record at) × ((version : Version) → IsUndue mail version None body.now) }
    ensures memory { IsErrOf result faults.Memory → (event : Event) → Spelled body.now event → IsFirst event }
    ensures only { (IsErrOf result faults.Already → ⊥) × (IsErrOf result faults.Disk → ⊥)
        × ((end wanted : ℕ) → IsErrOf result (faults.Full end wanted) → ⊥) }
{
    if !is_lettered(body) {
        return Err(broken_at(at));
    }
    match decode(alloc, body) {
        Err(RecordFault::Memory) => Err(StoreFault::Memory),
        Err(RecordFault::BadForm { .. }) => Err(broken_at(at)),
        Ok(event) => begun_with(alloc, event, at),
    }
}

// Whether a body's first byte is that of a Begin's.
fn is_lettered(body: &[u8]) -> bool
    ensures { IsTrue result ↔ (get_or body.now 0 0 ≡ 66) }
{
    body.len() > 0 && body[0] == b'B'
}

// The book that an event begins, whose record is at this place.
fn begun_with(alloc: Global, event: Event, at: u64) -> Result<Book, StoreFault>
    requires { IsWritable event }
    ensures value { IfOk result (λ book. IsFirst event × (meaning book ≡ first_book event)) }
    ensures made { (version : Version) → IfOk result (λ book. IsMade version (meaning book)) }
    ensures broken { (why : Place9) → IsErrOf result (faults.NotAJournal why) →
        (why ≡ places.Record at) × (IsFirst event → ⊥) }
    ensures memory { IsErrOf result faults.Memory → IsFirst event }
    ensures only { (IsErrOf result faults.Already → ⊥) × (IsErrOf result faults.Disk → ⊥)
        × ((end wanted : ℕ) → IsErrOf result (faults.Full end wanted) → ⊥) }
{
    let Event::Begin { names } = event else {
        return Err(broken_at(at));
    };
    let book = Book::new(alloc, names)?;
    Ok(book)
}

// Reads the records behind the first one, and enters their events.
fn read_later<D: Disk>(
    alloc: Global,
    disk: &mut D,
    journal: &mut Journal,
    book: &mut Book,
) -> Result<(), StoreFault>
    ensures value { D.tells_files → ReadsBook mail (meaning book.old) journal.old (D.clock disk.old).now (D.seen disk.old) →
        OnOk result (ReadsBook mail (meaning book.new) journal.new (D.clock disk.new).now (D.seen disk.new)) }
    ensures made { IsMade journal.old.version (meaning book.old) → OnOk result (IsMade journal.old.version (meaning book.new)) }
    ensures all_read { OnOk result (journal.new.all_read ≡ true) }
    ensures same { SameJournal journal.old journal.new }
    ensures broken { D.tells_files → ReadsBook mail (meaning book.old) journal.old (D.clock disk.old).now (D.seen disk.old) →
        (why : Place9) → IsErrOf result (faults.NotAJournal why) → IsBroken mail why (D.seen disk.old) }
    ensures only { (IsErrOf result faults.Already → ⊥) × ((end wanted : ℕ) → IsErrOf result (faults.Full end wanted) → ⊥) }
    ensures told { D.tells_files → OnlyLooks (D.clock disk.old) (D.clock disk.new) (D.seen disk.old) (D.seen disk.new) }
    ensures blames { BlamesWhere D.Clocked disk.old disk.new (IsErrOf result faults.Disk) }
{
    // Each record takes the journal's place on, and a place is a u64: so the loop ends.
    loop {
        let _from = journal.place();
        let more = read_few(alloc, disk, journal, book)?;
        let _to = journal.place();
        if !more {
            return Ok(());
        }
    }
}

// Reads the next records and enters their events. Answers whether there were any.
fn read_few<D: Disk>(
    alloc: Global,
    disk: &mut D,
    journal: &mut Journal,
    book: &mut Book,
) -> Result<bool, StoreFault>
    ensures value { D.tells_files → ReadsBook mail (meaning book.old) journal.old (D.clock disk.old).now (D.seen disk.old) →
        OnOk result (ReadsBook mail (meaning book.new) journal.new (D.clock disk.new).now (D.seen disk.new)) }
    ensures made { IsMade journal.old.version (meaning book.old) → OnOk result (IsMade journal.old.version (meaning book.new)) }
    ensures advances { IfOk result (λ more. IsTrue more → journal.old.place < journal.new.place) }
    ensures ended { IfOk result (λ more. (IsTrue more → ⊥) → journal.new.all_read ≡ true) }
    ensures same { SameJournal journal.old journal.new }
    ensures broken { D.tells_files → ReadsBook mail (meaning book.old) journal.old (D.clock disk.old).now (D.seen disk.old) →
        (why : Place9) → IsErrOf result (faults.NotAJournal why) → IsBroken mail why (D.seen disk.old) }
    ensures only { (IsErrOf result faults.Already → ⊥) × ((end wanted : ℕ) → IsErrOf result (faults.Full end wanted) → ⊥) }
    ensures told { D.tells_files → OnlyLooks (D.clock disk.old) (D.clock disk.new) (D.seen disk.old) (D.seen disk.new) }
    ensures blames { BlamesWhere D.Clocked disk.old disk.new (IsErrOf result faults.Disk) }
{
    let at = journal.place();
    let version = journal.version();
    let Some(few) = journal.next_few(alloc, disk)? else {
        return Ok(false);
    };
    // Each of their places is below the new one, which is a u64.
    let _end = journal.place();
    enter_few(alloc, book, &few, at, version)?;
    Ok(true)
}

// Enters the events of some bodies of a journal of this version, whose first record is at this place.
fn enter_few(
    alloc: Global,
    book: &mut Book,
    few: &Bodies,
    at: u64,
    version: Version,
) -> Result<(), StoreFault>
    ensures value { OnOk result (EntersAll mail version (meaning book.old) few.now (meaning book.new)) }
    ensures made { IsMade version (meaning book.old) → OnOk result (IsMade version (meaning book.new)) }
    ensures broken { (why : Place9) → IsErrOf result (faults.NotAJournal why) →
        UndueAt mail version (meaning book.old) at why few.now }
    ensures only { (IsErrOf result faults.Already → ⊥) × (IsErrOf result faults.Disk → ⊥)
        × ((end wanted : ℕ) → IsErrOf result (faults.Full end wanted) → ⊥) }
{
    let mut place = at;
    for index in 0..few.len() {
        let body = few.body(index);
        enter_body(alloc, book, body, place, version)?;
        place = place.saturating_add(5).saturating_add(body.len() as u64);
    }
    Ok(())
}

// Enters the event of a body of a journal of this version, whose record is at this place.
fn enter_body(
    alloc: Global,
    book: &mut Book,
    body: &[u8],
    at: u64,
    version: Version,
) -> Result<(), StoreFault>
    ensures value { OnOk result (Enters mail version (Some (meaning book.old)) body.now (meaning book.new)) }
    ensures made { IsMade version (meaning book.old) → OnOk result (IsMade version (meaning book.new)) }
    ensures broken { (why : Place9) → IsErrOf result (faults.NotAJournal why) →
        (why ≡ places.Record at) × IsUndue mail version (Some (meaning book.old)) body.now }
    ensures only { (IsErrOf result faults.Already → ⊥) × (IsErrOf result faults.Disk → ⊥)
        × ((end wanted : ℕ) → IsErrOf result (faults.Full end wanted) → ⊥) }
{
    let event = match decode(alloc, body) {
        Ok(event) => event,
        Err(RecordFault::Memory) => return Err(StoreFault::Memory),
        Err(RecordFault::BadForm { .. }) => return Err(broken_at(at)),
    };
    if book.allows(&event, rules_of(version)).is_some() {
        return Err(broken_at(at));
    }
    book.follow(event)?;
    Ok(())
}

// What tells that the record at a place is none that may come there.
fn broken_at(at: u64) -> StoreFault
    ensures { result ≡ faults.NotAJournal (places.Record at) }
{
    StoreFault::NotAJournal {
        why: Place9::Record { at },
    }
}
