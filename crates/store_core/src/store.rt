//! A book and the journal that it is the fold of.

ghost use Rattle.std.specs.Prelude.{◌≡◌};
ghost use Rattle.journal_core.specs.Appending.{end_with, told_end};
ghost use Rattle.action_queue.specs.Book.{meaning};
ghost use Rattle.action_queue.specs.Rules.{first_broken};
ghost use Rattle.store_core.specs.Mail.{rules_of};

use crate::rules::rules_of;
use action_queue::{Book, Event, Rule};
use journal_core::{Journal, Version};
use std::marker::Model;

/// A book on a journal. The book is what the events of the journal's records make, by the rules of
/// the journal's version.
#[derive(Drop)]
pub struct Store {
    pub(crate) journal: Journal,
    pub(crate) book: Book,
}

impl Model for Store {
    ghost use Rattle.std.specs.Prelude.{◌≡◌, true};
    ghost use Rattle.action_queue.specs.Book.{meaning};
    ghost use Rattle.action_queue.specs.Restating.{IsWellBook};
    ghost use Rattle.store_core.specs.Mail.{mail, rules_of};
    ghost use Rattle.store_core.specs.Holding.{Holding};

    ghost Value = { Holding mail };

    ghost view = { λ store. record { journal = store.journal; book = meaning store.book } };

    ghost invariant = { λ store. (store.journal.all_read ≡ true)
        × IsWellBook (rules_of store.journal.version) (meaning store.book) };
}

impl Store {
    /// The book, to read it.
    pub fn book(&self) -> &Book
        ensures { meaning result.now ≡ self.now.book }
    {
        &self.book
    }

    /// The place behind the journal's last gate, in bytes from 0, and at most 2^64 - 1.
    pub fn end(&self) -> u64
        ensures { result ≡ told_end (end_with 0 self.now.journal) }
    {
        self.journal.place().saturating_add(1)
    }

    /// The generation of the journal's side, from 1.
    pub fn generation(&self) -> u32
        ensures { result ≡ self.now.journal.generation }
    {
        self.journal.generation()
    }

    /// The version of the journal. Only to one of the version that is written something may be
    /// added.
    pub fn version(&self) -> Version
        ensures { result ≡ self.now.journal.version }
    {
        self.journal.version()
    }

    /// The first rule that the event breaks in this journal's version. `None` exactly where it may come next.
    pub fn allows(&self, event: &Event) -> Option<Rule>
        ensures { result ≡ first_broken (rules_of self.now.journal.version) self.now.book event.now }
    {
        self.book.allows(event, rules_of(self.journal.version()))
    }
}
