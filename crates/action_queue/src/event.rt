//! What a journal records.

ghost use Rattle.std.specs.Prelude.{◌≡◌, IfOk};

use crate::{Action, Intent, Outcome};
use mail_base::{ActionId, BoxName, List, Validity};
use mailbox_cache::Delta;
use std::alloc::{AllocError, Global};

/// A change of the book. The book is the fold of a journal's events.
#[derive(Drop)]
pub enum Event {
    /// The journal begins, with the names of its mailboxes.
    Begin {
        names: List<BoxName>,
    },
    /// An action is accepted.
    Accept {
        id: ActionId,
        action: Action,
    },
    /// A command is about to be sent for the action that is due.
    Intend {
        id: ActionId,
        intent: Intent,
    },
    /// The action that is due ended.
    Settle {
        id: ActionId,
        outcome: Outcome,
    },
    /// A mailbox was resynchronised.
    Learn {
        name: BoxName,
        delta: Delta,
    },
    /// An action that ended. It comes where a book is told anew, and nowhere else.
    Old {
        id: ActionId,
        action: Action,
        outcome: Outcome,
    },
    /// A mailbox's UIDVALIDITY rose, so that its cache is taken away (RFC 4549, section 4.1).
    Reset {
        name: BoxName,
        kept: Validity,
        told: Validity,
    },
    /// The command of the action that is due had no effect and is taken back, so that it may be tried once more. It tells how many
    /// tries were taken back.
    Withdraw {
        id: ActionId,
        tries: u8,
    },
}

impl Event {
    /// The same event once more. Fails for want of memory alone.
    pub fn copy(&self, alloc: Global) -> Result<Event, AllocError>
        ensures { IfOk result (λ event. event ≡ self.now) }
    {
        match self {
            Event::Begin { names } => {
                let names = copied(alloc, names.as_slice())?;
                Ok(Event::Begin {
                    names: List::of(names),
                })
            }
            Event::Accept { id, action } => {
                let action = action.copy()?;
                Ok(Event::Accept { id: *id, action })
            }
            Event::Intend { id, intent } => Ok(Event::Intend {
                id: *id,
                intent: intent.copy(),
            }),
            Event::Settle { id, outcome } => Ok(Event::Settle {
                id: *id,
                outcome: *outcome,
            }),
            Event::Learn { name, delta } => {
                let delta = delta.copy(alloc)?;
                Ok(Event::Learn {
                    name: name.copy(),
                    delta,
                })
            }
            Event::Old {
                id,
                action,
                outcome,
            } => {
                let action = action.copy()?;
                Ok(Event::Old {
                    id: *id,
                    action,
                    outcome: *outcome,
                })
            }
            Event::Reset { name, kept, told } => Ok(Event::Reset {
                name: name.copy(),
                kept: *kept,
                told: *told,
            }),
            Event::Withdraw { id, tries } => Ok(Event::Withdraw {
                id: *id,
                tries: *tries,
            }),
        }
    }
}

// The same names once more.
fn copied(alloc: Global, names: &[BoxName]) -> Result<Vec<BoxName>, AllocError>
    ensures { IfOk result (λ copies. copies.items ≡ names.now) }
{
    let mut copies = Vec::with_capacity(alloc, names.len())?;
    for name in names {
        copies.push(name.copy())?;
    }
    Ok(copies)
}
