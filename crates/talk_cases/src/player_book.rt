//! The book of a case, which lawful events alone change.

ghost use Rattle.action_queue.specs.Book.{meaning};
ghost use Rattle.action_queue.specs.Events.{IsLawful};
ghost use Rattle.action_queue.specs.Writable.{HaveFewFlags};
ghost use Rattle.action_queue.specs.declared.event.Event.TheVariants as events;
ghost use Rattle.std.specs.Prelude.{IfOk, IsTrue};

use action_queue::{Action, Book, Event, Outcome, Version};
use cases::{WordFault, named};
use flag_set::MAX_FLAGS;
use mail_base::{ActionId, Bytes, List, MAX_ROWS};
use mail_header::{IdFault, message_id};
use mailbox_cache::Row;
use std::alloc::{AllocError, Global};
use uid_sets::Uid;

/// The book of a journal that begins with the mailboxes INBOX and Archive. A box keeps its many
/// parts out of sight of the proofs that let it go.
pub fn begun(alloc: Global) -> Result<Box<Book>, WordFault> {
    let (first, second) = (named(b"INBOX")?, named(b"Archive")?);
    if second == first {
        return Err(WordFault::Form);
    }
    let mut names = List::new(alloc);
    names.push(first)?;
    names.push(second)?;
    Ok(Box::new(alloc, Book::new(alloc, names)?)?)
}

/// Enters an event, where it may come next and has a record, and says whether it may.
pub fn enter(alloc: Global, book: &mut Book, event: Event) -> Result<bool, AllocError> {
    match may_come(alloc, book, &event) {
        Ok(true) => {
            let ready = book.prepare(event)?;
            book.enter(ready);
            Ok(true)
        }
        other => {
            drop(event);
            other
        }
    }
}

// Whether an event may come next and has a record.
fn may_come(alloc: Global, book: &Book, event: &Event) -> Result<bool, AllocError>
    ensures { IfOk result (λ may. IsTrue may → IsLawful (meaning book.now) event.now) }
{
    Ok(is_writable(alloc, event)? && is_allowed(book, event))
}

// Whether an event may come next.
fn is_allowed(book: &Book, event: &Event) -> bool
    ensures { IsTrue result → IsLawful (meaning book.now) event.now }
{
    book.allows(event, Version::Second).is_none()
}

// Whether the event has a record. A journal's first event is none of a case's.
fn is_writable(alloc: Global, event: &Event) -> Result<bool, AllocError> {
    match event {
        Event::Begin { .. } => Ok(false),
        Event::Accept { action, .. } | Event::Old { action, .. } => {
            is_writable_action(alloc, action)
        }
        Event::Intend { .. }
        | Event::Settle { .. }
        | Event::Reset { .. }
        | Event::Withdraw { .. } => Ok(true),
        Event::Learn { delta, .. } => {
            let rows = delta.rows.as_slice();
            Ok(rows.len() <= MAX_ROWS && have_few_flags(rows))
        }
    }
}

fn is_writable_action(alloc: Global, action: &Action) -> Result<bool, AllocError> {
    match action {
        Action::Flag { flags, .. } => Ok(!flags.is_empty() && flags.len() <= MAX_FLAGS),
        Action::Move { .. } => Ok(true),
        Action::Append {
            flags,
            text,
            id,
            ..
        } => Ok(flags.len() <= MAX_FLAGS && has_id(alloc, text, id)?),
    }
}

// Whether the text has this Message-ID.
fn has_id(alloc: Global, text: &Bytes, id: &Bytes) -> Result<bool, AllocError> {
    match message_id(alloc, text.as_slice()) {
        Ok(found) => Ok(found.as_slice() == id.as_slice()),
        Err(IdFault::Memory) => Err(AllocError),
        Err(_) => Ok(false),
    }
}

/// Whether each row's flags are few enough.
pub fn have_few_flags(rows: &[(Uid, Row)]) -> bool
    ensures { IsTrue result → HaveFewFlags rows.now }
{
    let mut rest = rows;
    while let Some((pair, behind)) = rest.split_first() {
        if pair.1.flags.len() > MAX_FLAGS {
            return false;
        }
        rest = behind;
    }
    true
}

/// Gives the action its outcome, where it may end so now, and says whether it may.
pub fn settle(book: &mut Book, id: &ActionId, outcome: &Outcome) -> bool {
    if !may_end(book, id, outcome) {
        return false;
    }
    book.settle(*id, *outcome);
    true
}

/// Takes the action's try back, where that may come now, and says whether it may.
pub fn withdraw(book: &mut Book, id: ActionId, tries: u8) -> bool {
    if !may_withdraw(book, id, tries) {
        return false;
    }
    book.withdraw(id, tries);
    true
}

// Whether the action may end so now.
fn may_end(book: &Book, id: &ActionId, outcome: &Outcome) -> bool
    ensures { IsTrue result → IsLawful (meaning book.now) (events.Settle id.now outcome.now) }
{
    let event = Event::Settle {
        id: *id,
        outcome: *outcome,
    };
    let may = is_allowed(book, &event);
    drop(event);
    may
}

// Whether the action's try may be taken back now.
fn may_withdraw(book: &Book, id: ActionId, tries: u8) -> bool
    ensures { IsTrue result → IsLawful (meaning book.now) (events.Withdraw id tries) }
{
    let event = Event::Withdraw { id, tries };
    let may = is_allowed(book, &event);
    drop(event);
    may
}
