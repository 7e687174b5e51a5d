//! Calls of `action_queue`, `local_view` and `conflict_report`: the book of a journal with the
//! mailboxes INBOX and Archive, line by line.
//!
//! `book` begins that of a journal of the first version, `book second` one of the second. An event
//! tells the rule that it breaks, or else `entered`; behind `second` the rule of the second version
//! alone, and behind `both` that of each. `show` tells what the book holds, `where` and a message
//! what the message is, `view` and a mailbox the rows that the user sees, and `queue` and `report`
//! their texts.

ghost use Rattle.std.specs.Prelude.{◌≡◌};

use crate::boxes::boxed;
use crate::compared::put_compared;
use crate::rules::put_rule;
use crate::shown::{put_book, put_copy, put_found};
use crate::views::{put_text, put_view};
use action_queue::{Book, Event, Rule, Version};
use cases::{Answer, Input, WordFault, event, named, target};
use conflict_report::{queue_text, report};
use mail_base::List;
use std::alloc::{AllocError, Global};

/// A book whose events are made ready and entered, and one that follows them, of a journal of this
/// version.
#[derive(Drop)]
pub struct Books {
    version: Version,
    entered: Book,
    followed: Book,
}

/// The books of a new journal: of the second version where the next word says so.
pub fn begun_books(input: &mut Input) -> Result<Box<Books>, WordFault> {
    let version = if input.skips("second") {
        Version::Second
    } else {
        Version::First
    };
    boxed(input.alloc, begun_both(input.alloc, version))
}

fn begun_both(alloc: Global, version: Version) -> Result<Books, WordFault> {
    let entered = begun(alloc)?;
    let followed = begun(alloc)?;
    Ok(Books {
        version,
        entered,
        followed,
    })
}

// The book of a journal with the mailboxes INBOX and Archive.
fn begun(alloc: Global) -> Result<Book, WordFault> {
    let first = named(b"INBOX")?;
    let second = named(b"Archive")?;
    if second == first {
        return Err(WordFault::Form);
    }
    let mut names = List::new(alloc);
    names.push(first)?;
    names.push(second)?;
    Ok(Book::new(alloc, names)?)
}

impl Books {
    /// Answers a call on the books, or tells that it is none.
    pub fn answers(
        &mut self,
        call: &str,
        input: &mut Input,
        answer: &mut Answer,
    ) -> Result<bool, WordFault> {
        match call {
            "show" => self.put_both(input.alloc, answer),
            "where" => self.put_where(input, answer),
            "second" => self.put_rules(input, answer, &[Version::Second]),
            "both" => self.put_rules(input, answer, &[Version::First, Version::Second]),
            "view" => put_view(&self.entered, input, answer),
            "queue" => put_text(answer, queue_text(input.alloc, &self.entered)),
            "report" => put_text(answer, report(input.alloc, &self.entered)),
            _ => return Ok(false),
        }?;
        Ok(true)
    }

    /// Takes the event that the words are.
    pub fn take(&mut self, input: &mut Input, answer: &mut Answer) -> Result<(), WordFault> {
        let event = event(input)?;
        self.put_event(input.alloc, event, answer)
    }

    fn put_where(&self, input: &mut Input, answer: &mut Answer) -> Result<(), WordFault> {
        let target = target(input)?;
        let found = self.entered.resolved(&target);
        drop(target);
        let told = put_found(answer, &found);
        drop(found);
        told
    }

    // The rule of each version that an event breaks.
    fn put_rules(
        &self,
        input: &mut Input,
        answer: &mut Answer,
        versions: &[Version],
    ) -> Result<(), WordFault> {
        let event = event(input)?;
        let told = put_broken(&self.entered, &event, versions, answer);
        drop(event);
        told
    }

    // Both take an event, and tell the same rule.
    fn put_event(
        &mut self,
        alloc: Global,
        event: Event,
        answer: &mut Answer,
    ) -> Result<(), WordFault> {
        let entered = match event.copy(alloc) {
            Ok(copy) => enter(self.version, &mut self.entered, copy),
            Err(fault) => Err(fault),
        };
        let followed = follow(self.version, &mut self.followed, event)?;
        let rule = entered?;
        put_rule(answer, rule)?;
        if followed != rule {
            answer.word("but otherwise where it follows")?;
        }
        Ok(())
    }

    // Both hold the same, and so does a copy of the first one.
    fn put_both(&self, alloc: Global, answer: &mut Answer) -> Result<(), WordFault> {
        let mut entered = Answer::new(alloc);
        put_copy(&mut entered, &self.entered)?;
        let mut followed = Answer::new(alloc);
        put_book(&mut followed, &self.followed)?;
        put_compared(answer, &entered, "but where it follows", &followed)
    }
}

fn put_broken(
    book: &Book,
    event: &Event,
    versions: &[Version],
    answer: &mut Answer,
) -> Result<(), WordFault> {
    for version in versions {
        put_rule(answer, book.allows(event, *version))?;
    }
    Ok(())
}

// Enters an event, or tells the first rule that it breaks.
fn enter(version: Version, book: &mut Book, event: Event) -> Result<Option<Rule>, AllocError> {
    if let Some(rule) = book.allows(&event, version) {
        drop(event);
        return Ok(Some(rule));
    }
    let ready = book.prepare(event)?;
    book.enter(ready);
    Ok(None)
}

// Follows an event, or tells the first rule that it breaks.
fn follow(version: Version, book: &mut Book, event: Event) -> Result<Option<Rule>, AllocError> {
    if let Some(rule) = book.allows(&event, version) {
        drop(event);
        return Ok(Some(rule));
    }
    book.follow(event)?;
    Ok(None)
}
