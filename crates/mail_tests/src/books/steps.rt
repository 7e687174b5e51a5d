//! The events of the tests, as rows of plain numbers and names.

use super::*;
use mailbox_cache::Row;

/// A mailbox of the tests' book.
#[derive(Clone, Copy)]
pub enum Mailbox {
    /// `INBOX`
    Inbox,
    /// `Archive`
    Archive,
}

/// A message: number 42 of a mailbox under validity 5, or the one that an action makes.
#[derive(Clone, Copy)]
pub enum Of {
    /// Message 42 of this mailbox.
    In(Mailbox),
    /// The message that the action of this number makes.
    Made(u32),
}

/// Message 42 of INBOX.
pub const INBOX_42: Of = Of::In(Mailbox::Inbox);

/// An event. The first number of those of actions is its action's.
#[derive(Clone, Copy)]
pub enum Step {
    /// An action moves a message to a mailbox.
    Moves(u32, Of, Mailbox),
    /// An action is about to move message 42 of INBOX to a mailbox.
    Shifts(u32, Mailbox),
    /// INBOX learns all or a part, with this highest mod-sequence, and the rows from one UID to another.
    LearnsRows(bool, u64, u32, u32),
}

impl Mailbox {
    /// Its name. None where the text is no name, which doesn't happen.
    pub fn name(self) -> Option<BoxName> {
        let text = match self {
            Mailbox::Inbox => b"INBOX".as_slice(),
            Mailbox::Archive => b"Archive".as_slice(),
        };
        BoxName::new(text).ok()
    }
}

impl Of {
    /// The message as an action names it. None where a number is none.
    pub fn target(self) -> Option<Target> {
        match self {
            Of::In(mailbox) => {
                let validity = Validity::new(5)?;
                let uid = Uid::new(42)?;
                let name = mailbox.name()?;
                Some(Target::Real {
                    name,
                    validity,
                    uid,
                })
            }
            Of::Made(id) => Some(Target::Dummy(ActionId::new(id)?)),
        }
    }
}

impl Step {
    /// The event of the row. None where a number is none, or for want of memory.
    pub fn event(self, alloc: Global) -> Option<Event> {
        match self {
            Step::Moves(id, of, to) => moves(id, of, to),
            Step::Shifts(id, to) => shifts(id, to),
            Step::LearnsRows(whole, highest, low, high) => {
                learns(Mailbox::Inbox, rows_of(alloc, whole, highest, low, high)?)
            }
        }
    }
}

fn moves(id: u32, of: Of, to: Mailbox) -> Option<Event> {
    let id = ActionId::new(id)?;
    let to = to.name()?;
    let target = of.target()?;
    let action = Action::Move { target, to };
    Some(Event::Accept { id, action })
}

fn shifts(id: u32, to: Mailbox) -> Option<Event> {
    let intent = Intent::Shift {
        validity: Validity::new(5)?,
        uid: Uid::new(42)?,
        from: Mailbox::Inbox.name()?,
        to: to.name()?,
    };
    intends(id, intent)
}

fn intends(id: u32, intent: Intent) -> Option<Event> {
    let id = ActionId::new(id)?;
    Some(Event::Intend { id, intent })
}

fn learns(mailbox: Mailbox, delta: Delta) -> Option<Event> {
    let name = mailbox.name()?;
    Some(Event::Learn { name, delta })
}

fn delta_of(alloc: Global, whole: bool, validity: u32, highest: u64) -> Option<Delta> {
    Some(Delta {
        whole,
        validity: Validity::new(validity)?,
        highest: ModSeq::new(highest)?,
        uidnext: Uid::new(7)?,
        vanished: UidSet::none(alloc),
        rows: List::new(alloc),
    })
}

fn rows_of(alloc: Global, whole: bool, highest: u64, low: u32, high: u32) -> Option<Delta> {
    let mut delta = delta_of(alloc, whole, 9, highest)?;
    for uid in low..=high {
        add_row(alloc, &mut delta, uid)?;
    }
    Some(delta)
}

// Adds a row to a delta from which nothing vanished.
fn add_row(alloc: Global, delta: &mut Delta, uid: u32) -> Option<()> {
    let uid = Uid::new(uid)?;
    if uid.number() <= delta.last_uid() || !delta.vanished.is_empty() {
        return None;
    }
    let row = Row {
        modseq: ModSeq::new(300)?,
        flags: FlagSet::none(alloc),
    };
    delta.push(uid, row).ok()
}
