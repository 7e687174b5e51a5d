//! Why a command isn't done, and what became of one.

use crate::texts::owned;
use cases::{Fault, WordFault};
use journal_core::{AppendFault, CreateFault, OpenFault, Place9, TurnFault};
use std::alloc::{AllocError, Global};
use store_core::{CommitFault, StoreFault};

/// Why a command isn't done.
#[derive(Clone, Copy, Drop)]
pub enum Undone {
    /// The case can't be played: its words are no command's, its bytes no event's, or its journal
    /// has more records than are read here.
    Unfit,
    /// There is no journal or no store, or nothing is added to it.
    Store(StoreFault),
    /// The event breaks a rule.
    Unlawful,
    /// The journal is of an older version than the one that is written.
    Older,
    /// No generation comes after the journal's own.
    Last,
}

impl From<WordFault> for Undone {
    fn from(fault: WordFault) -> Undone {
        match fault {
            WordFault::Memory => Undone::Store(StoreFault::Memory),
            WordFault::Form => Undone::Unfit,
        }
    }
}

impl From<AllocError> for Undone {
    fn from(_: AllocError) -> Undone {
        Undone::Store(StoreFault::Memory)
    }
}

impl From<StoreFault> for Undone {
    fn from(fault: StoreFault) -> Undone {
        Undone::Store(fault)
    }
}

impl From<OpenFault> for Undone {
    fn from(fault: OpenFault) -> Undone {
        Undone::Store(StoreFault::from(fault))
    }
}

impl From<CreateFault> for Undone {
    fn from(fault: CreateFault) -> Undone {
        Undone::Store(StoreFault::from(fault))
    }
}

impl From<TurnFault> for Undone {
    fn from(fault: TurnFault) -> Undone {
        Undone::Store(StoreFault::from(fault))
    }
}

impl From<AppendFault> for Undone {
    fn from(fault: AppendFault) -> Undone {
        Undone::from(CommitFault::from(fault))
    }
}

impl From<CommitFault> for Undone {
    fn from(fault: CommitFault) -> Undone {
        Undone::Store(match fault {
            CommitFault::Memory => StoreFault::Memory,
            CommitFault::Disk => StoreFault::Disk,
            CommitFault::Full { end, wanted } => StoreFault::Full { end, wanted },
        })
    }
}

/// What became of a command, as a text.
pub fn done_text(alloc: Global, done: Result<(), Undone>) -> Result<String, Fault> {
    match done {
        Ok(()) => owned(alloc, "done"),
        Err(Undone::Unfit) => Err(Fault::Form),
        Err(Undone::Store(fault)) => store_text(alloc, fault),
        Err(Undone::Unlawful) => owned(alloc, "unlawful"),
        Err(Undone::Older) => owned(alloc, "older"),
        Err(Undone::Last) => owned(alloc, "last"),
    }
}

/// Why there is no journal or no store, or nothing is added to it, as a text.
pub fn store_text(alloc: Global, fault: StoreFault) -> Result<String, Fault> {
    match fault {
        StoreFault::Memory => Err(Fault::Memory),
        StoreFault::Disk => owned(alloc, "disk"),
        StoreFault::Already => owned(alloc, "already"),
        StoreFault::Full { end, wanted } => Ok(format!(in alloc; "full {end} wanted {wanted}")?),
        StoreFault::NotAJournal { why } => place_text(alloc, why),
    }
}

// Why files are no journal, as a text.
fn place_text(alloc: Global, why: Place9) -> Result<String, Fault> {
    match why {
        Place9::Absent => owned(alloc, "absent"),
        Place9::Header => owned(alloc, "header"),
        Place9::Generations => owned(alloc, "generations"),
        Place9::Record { at } => Ok(format!(in alloc; "record {at}")?),
    }
}
