//! A book on a journal: it is begun, its events are recorded, it is told anew, and it is opened.

ghost use Rattle.std.specs.Prelude.{◌≡◌, IfOk, Some, false};
ghost use Rattle.action_queue.specs.Events.{AreNames};
ghost use Rattle.action_queue.specs.Writable.{IsWritable};
ghost use Rattle.journal_core.specs.Sides.{version_written};
ghost use Rattle.store_core.specs.Mail.{mail, MayCome};
ghost use Rattle.store_core.specs.Holding.{IsAsLeft};

use crate::undone::{Undone, store_text};
use action_queue::{Book, Event, Known};
use cases::Fault;
use journal_core::WRITTEN;
use mail_base::{BoxName, List};
use record_codec::decode;
use std::alloc::Global;
use store_core::{Store, is_old};
use world_traits::Disk;

// The event of a body.
fn event_of(alloc: Global, body: &[u8]) -> Result<Event, Undone>
    ensures { IfOk result (λ event. IsWritable event) }
{
    match decode(alloc, body) {
        Ok(event) => Ok(event),
        Err(_) => Err(Undone::Unfit),
    }
}

// The names of a Begin's body.
fn names_of(alloc: Global, begin: &[u8]) -> Result<List<BoxName>, Undone>
    ensures { IfOk result (λ names. AreNames names) }
{
    match event_of(alloc, begin)? {
        Event::Begin { names } => Ok(names),
        _ => Err(Undone::Unfit),
    }
}

// Whether an event tells how an action ended, or takes its command back: the store has a call of
// its own for each.
fn is_ending(event: &Event) -> bool {
    matches!(event, Event::Settle { .. } | Event::Withdraw { .. })
}

// Records such an event.
fn end<D: Disk>(disk: &mut D, store: &mut Store, event: &Event) -> Result<(), Undone>
    requires written { store.old.journal.version ≡ version_written }
    requires lawful { MayCome store.old.journal.version (Some store.old.book) event.now }
    requires sound { store.old.journal.failed ≡ false }
    requires still { D.tells_files → IsAsLeft mail store.old (D.clock disk.old).now (D.seen disk.old) }
{
    match event {
        Event::Settle { id, outcome } => Ok(store.settle(disk, *id, *outcome)?),
        Event::Withdraw { id, tries } => Ok(store.withdraw(disk, *id, *tries)?),
        _ => Err(Undone::Unfit),
    }
}

// Records an event, where it is lawful. An action that ended is recorded by a turn alone.
fn commit<D: Disk>(
    alloc: Global,
    disk: &mut D,
    store: &mut Store,
    event: Event,
) -> Result<(), Undone>
    requires written { store.old.journal.version ≡ version_written }
    requires writable { IsWritable event }
    requires sound { store.old.journal.failed ≡ false }
    requires still { D.tells_files → IsAsLeft mail store.old (D.clock disk.old).now (D.seen disk.old) }
{
    if is_old(&event) {
        drop(event);
        return Err(Undone::Unlawful);
    }
    if store.allows(&event).is_some() {
        drop(event);
        return Err(Undone::Unlawful);
    }
    if is_ending(&event) {
        let done = end(disk, store, &event);
        drop(event);
        return done;
    }
    Ok(store.commit(alloc, disk, event)?)
}

// Records the event of a body in a store that was opened: to a journal of an older version nothing
// is added.
fn put<D: Disk>(alloc: Global, disk: &mut D, store: &mut Store, body: &[u8]) -> Result<(), Undone>
    requires sound { store.old.journal.failed ≡ false }
    requires still { D.tells_files → IsAsLeft mail store.old (D.clock disk.old).now (D.seen disk.old) }
{
    let event = event_of(alloc, body)?;
    if store.version() == WRITTEN {
        return commit(alloc, disk, store, event);
    }
    drop(event);
    Err(Undone::Older)
}

/// Opens a store, and records the event of a body.
pub fn record<D: Disk>(alloc: Global, disk: &mut D, body: &[u8]) -> Result<(), Undone> {
    let mut store = Store::open(alloc, disk)?;
    let done = put(alloc, disk, &mut store, body);
    drop(store);
    done
}

/// Opens a store, and tells its book anew on the journal's other side.
pub fn tell_anew<D: Disk>(alloc: Global, disk: &mut D) -> Result<(), Undone> {
    let mut store = Store::open(alloc, disk)?;
    if store.generation() == u32::MAX {
        drop(store);
        return Err(Undone::Last);
    }
    let done = store.turn(alloc, disk);
    drop(store);
    Ok(done?)
}

/// Begins a store by the body of a Begin, and records the event of another body in it, if there is
/// one.
pub fn init<D: Disk>(
    alloc: Global,
    disk: &mut D,
    begin: &[u8],
    body: Option<&[u8]>,
) -> Result<(), Undone> {
    let names = names_of(alloc, begin)?;
    let mut store = Store::init(alloc, disk, names)?;
    let done = match body {
        Some(body) => put(alloc, disk, &mut store, body),
        None => Ok(()),
    };
    drop(store);
    done
}

fn known_in(boxes: &[Known]) -> usize {
    let mut known: usize = 0;
    for mailbox in boxes {
        if mailbox.cache.is_some() {
            known = known.saturating_add(1);
        }
    }
    known
}

// What a book has: its actions, those of them that are settled, whether an intent is pending, its
// mailboxes, and those of them that were resynchronised.
fn counts_text(alloc: Global, book: &Book) -> Result<String, Fault> {
    let (actions, settled) = (book.queue.len(), book.queue.settled());
    let pending = if book.pending.is_some() {
        ", one pending"
    } else {
        ""
    };
    let (known, boxes) = (known_in(book.boxes.as_slice()), book.boxes.len());
    Ok(format!(in alloc;
        "{actions} actions, {settled} settled{pending}, {known} of {boxes} mailboxes known"
    )?)
}

/// Opens a store, and says what its book has, or why there is none.
pub fn book_text<D: Disk>(alloc: Global, disk: &mut D) -> Result<String, Fault> {
    match Store::open(alloc, disk) {
        Ok(store) => {
            let text = counts_text(alloc, store.book());
            drop(store);
            text
        }
        Err(fault) => store_text(alloc, fault),
    }
}
