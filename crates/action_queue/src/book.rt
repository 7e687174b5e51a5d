//! The book: what the client knows, and what it was asked for.

ghost use Rattle.std.specs.Prelude.{◌≡◌, ◌+◌, ◌↔◌, IfOk, IfSome, IsNone, map};
ghost use Rattle.std.specs.Option.{option_copied};
ghost use Rattle.action_queue.specs.Queues.{due, AllSettled};
ghost use Rattle.action_queue.specs.Targets.{action_at, resolved, landed, landed_in};
ghost use Rattle.action_queue.specs.Book.{meaning, begun, known_at, known_of};
ghost use Rattle.action_queue.specs.Events.{AreNames};

use crate::{Action, Found, Intent, Outcome, Place, Queue, Queued, Target};
use mail_base::{ActionId, BoxName, List};
use mailbox_cache::Cache;
use std::alloc::{AllocError, Global};

/// A mailbox of the book, with what is known of it.
#[derive(Drop)]
pub struct Known {
    pub name: BoxName,
    pub cache: Option<Cache>,
}

/// What a journal's events make: its mailboxes, its actions, and the intent that is pending for the one that is due.
#[derive(Drop)]
pub struct Book {
    pub boxes: List<Known>,
    pub queue: Queue,
    pub pending: Option<Intent>,
}

impl Known {
    /// The same once more. Fails for want of memory alone.
    pub fn copy(&self) -> Result<Known, AllocError>
        ensures { IfOk result (λ known. known ≡ self.now) }
    {
        let Some(cache) = &self.cache else {
            return Ok(Known {
                name: self.name.copy(),
                cache: None,
            });
        };
        let cache = cache.copy()?;
        Ok(Known {
            name: self.name.copy(),
            cache: Some(cache),
        })
    }
}

impl Book {
    /// The book of a journal that begins with these names. Fails for want of memory alone.
    pub fn new(alloc: Global, names: List<BoxName>) -> Result<Book, AllocError>
        requires { AreNames names }
        ensures { IfOk result (λ book. meaning book ≡ begun names) }
    {
        let boxes = begun_boxes(alloc, names.as_slice())?;
        Ok(Book {
            boxes: List::of(boxes),
            queue: Queue::new(alloc),
            pending: None,
        })
    }

    /// The first action that has no outcome. It costs no search.
    pub fn first_unsettled(&self) -> Option<ActionId>
        ensures value { IfSome result (λ id. id ≡ due self.now.queue.items + 1) }
        ensures none { IsNone result ↔ AllSettled self.now.queue.items }
    {
        if self.queue.settled() == self.queue.len() {
            return None;
        }
        ActionId::new(self.queue.settled() as u32 + 1)
    }

    /// What the book knows of a name.
    pub fn known(&self, name: &BoxName) -> Option<&Known>
        ensures { option_copied result ≡ known_at name.now self.now.boxes }
    {
        known_in(self.boxes.as_slice(), name)
    }

    // The action of this number.
    pub(crate) fn action(&self, id: ActionId) -> Option<&Queued>
        ensures { option_copied result ≡ action_at self.now.queue.items id }
    {
        self.queue.as_slice().get(id.number() as usize - 1)
    }

    /// What a target resolves to. It takes no memory.
    pub fn resolved(&self, target: &Target) -> Found
        ensures { result ≡ resolved self.now.queue.items target.now }
    {
        match target {
            Target::Real {
                name,
                validity,
                uid,
            } => Found::Real {
                name: name.copy(),
                validity: *validity,
                uid: *uid,
            },
            Target::Dummy(id) => match self.action(*id) {
                Some(queued) => landed(*id, queued),
                None => Found::NotYet { by: *id },
            },
        }
    }

    /// The same book once more. Fails for want of memory alone.
    pub fn copy(&self) -> Result<Book, AllocError>
        ensures { IfOk result (λ book. meaning book ≡ meaning self.now) }
    {
        let boxes = copied(self.queue.allocator(), self.boxes.as_slice())?;
        let queue = self.queue.copy()?;
        Ok(Book {
            boxes: List::of(boxes),
            queue,
            pending: copied_intent(&self.pending),
        })
    }
}

// The mailboxes of a journal that begins.
fn begun_boxes(alloc: Global, names: &[BoxName]) -> Result<Vec<Known>, AllocError>
    ensures { IfOk result (λ boxes. boxes.items ≡ map known_of names.now) }
{
    let mut boxes = Vec::with_capacity(alloc, names.len())?;
    for name in names {
        boxes.push(Known {
            name: name.copy(),
            cache: None,
        })?;
    }
    Ok(boxes)
}

// The first mailbox of this name.
fn known_in<'a>(boxes: &'a [Known], name: &BoxName) -> Option<&'a Known>
    ensures { option_copied result ≡ known_at name.now boxes.now }
{
    for known in boxes {
        if known.name == *name {
            return Some(known);
        }
    }
    None
}

// Where the message of an action landed.
fn landed(id: ActionId, queued: &Queued) -> Found
    ensures { result ≡ landed id queued.now.action queued.now.outcome }
{
    match &queued.action {
        Action::Flag { .. } => Found::NotYet { by: id },
        Action::Move { to, .. } | Action::Append { to, .. } => landed_in(id, to, &queued.outcome),
    }
}

// Where the message of an action landed that puts it into this mailbox.
fn landed_in(id: ActionId, to: &BoxName, outcome: &Option<Outcome>) -> Found
    ensures { result ≡ landed_in id to.now outcome.now }
{
    match outcome {
        None => Found::NotYet { by: id },
        Some(Outcome::Conflict(_)) => Found::Never { by: id },
        Some(Outcome::Done { place: None }) => Found::NotYet { by: id },
        Some(
            Outcome::Done {
                place: Some(Place { validity, uid }),
            },
        ) => Found::Real {
            name: to.copy(),
            validity: *validity,
            uid: *uid,
        },
    }
}

// The same mailboxes once more.
fn copied(alloc: Global, boxes: &[Known]) -> Result<Vec<Known>, AllocError>
    ensures { IfOk result (λ copies. copies.items ≡ boxes.now) }
{
    let mut copies = Vec::with_capacity(alloc, boxes.len())?;
    for known in boxes {
        copies.push(known.copy()?)?;
    }
    Ok(copies)
}

// The same intent once more, where there is one.
fn copied_intent(pending: &Option<Intent>) -> Option<Intent>
    ensures { result ≡ pending.now }
{
    match pending {
        Some(intent) => Some(intent.copy()),
        None => None,
    }
}
