//! A book with as many actions, and a cache with as many rows, as they may have.

mod limits;
mod steps;

use action_queue::{Action, Book, Event, Intent, Rule, Target, Version};
use flag_set::FlagSet;
use mail_base::{ActionId, BoxName, List, MAX_ACTIONS, ModSeq, Validity};
use mailbox_cache::Delta;
use std::alloc::{AllocError, Global};
use std::process::Abort;
use std::test::Fail;
use steps::Mailbox::{Archive, Inbox};
use steps::{INBOX_42, Of, Step};
use uid_sets::{Uid, UidSet};

// A value of a test isn't what it was meant to be, or there is no memory for it.
#[derive(Clone, Copy, Debug, PartialEq, Eq)]
struct Missing;

// The book of a journal with the mailboxes INBOX and Archive.
fn begun(alloc: Global) -> Result<Book, Missing> {
    match new_book(alloc) {
        Some(book) => Ok(book),
        None => Err(Missing),
    }
}

fn new_book(alloc: Global) -> Option<Book> {
    let first = Inbox.name()?;
    let second = Archive.name()?;
    if second == first {
        return None;
    }
    let mut names = List::new(alloc);
    names.push(first).ok()?;
    names.push(second).ok()?;
    Book::new(alloc, names).ok()
}

// Enters an event, or tells the first rule that it breaks.
fn enter(book: &mut Book, event: Event) -> Result<Option<Rule>, AllocError> {
    if let Some(rule) = book.allows(&event, Version::Second) {
        return Ok(Some(rule));
    }
    let ready = book.prepare(event)?;
    book.enter(ready);
    Ok(None)
}

// The same of a step.
fn told(alloc: Global, book: &mut Book, step: Step) -> Result<Option<Rule>, Missing> {
    let Some(event) = step.event(alloc) else {
        return Err(Missing);
    };
    match enter(book, event) {
        Ok(rule) => Ok(rule),
        Err(_) => Err(Missing),
    }
}

// The book with the mailboxes INBOX and Archive after these steps, which are lawful.
fn after(alloc: Global, steps: &[Step]) -> Result<Book, Missing> {
    let mut book = begun(alloc)?;
    for step in steps {
        if told(alloc, &mut book, *step)?.is_some() {
            return Err(Missing);
        }
    }
    Ok(book)
}

// Tells the book each step, which breaks this rule, or none and is entered.
fn tell(
    rt: &impl Abort,
    alloc: Global,
    book: &mut Book,
    rows: &[(Step, Option<Rule>)],
) -> Result<(), Missing> {
    for (step, rule) in rows {
        assert_eq!(rt; told(alloc, book, *step)?, *rule);
    }
    Ok(())
}

// The same of the book after the first steps.
fn tells(
    rt: &impl Abort,
    alloc: Global,
    before: &[Step],
    rows: &[(Step, Option<Rule>)],
) -> Result<(), Missing> {
    let mut book = after(alloc, before)?;
    tell(rt, alloc, &mut book, rows)
}
