//! Tells a book anew, by one event at a time.

ghost use Rattle.std.specs.Prelude.{◌≡◌, ◌<◌, ◌≤◌, ◌*◌, ◌++◌, [], suc, length, take, drop, slice_get, Some, IfOk};
ghost use Rattle.mailbox_cache.specs.Rows.{AreApart, Rises};
ghost use Rattle.mail_base.specs.declared.limits.TheConstants.{MAX_ACTIONS};
ghost use Rattle.action_queue.specs.Book.{meaning};
ghost use Rattle.action_queue.specs.Queues.{due, tries_due};
ghost use Rattle.action_queue.specs.Restating.{action_event, names_of, tries_events, intent_events};
ghost use Rattle.action_queue.specs.Telling.{AreTold, IsPart, IsSpot, IsToldBy, PiecesTell, cache_pieces, events_behind, later_parts, pieces};

use crate::{Action, Book, Event, Known, Outcome, Queued};
use mail_base::{ActionId, BoxName, List, MAX_ACTIONS};
use mailbox_cache::{Cache, Delta, Row};
use std::alloc::{AllocError, Global};
use uid_sets::{Uid, UidSet};

/// The most rows that one event tells where a book is told anew.
pub const ROWS_AT_ONCE: usize = 1000;

// What stands at a place of the events that tell the mailboxes: an event, or it is so far behind all of them.
#[derive(Drop)]
enum Spot {
    Told(Event),
    Behind(usize),
}

impl Book {
    /// The event at this place, counted from 0, of the list that tells the book anew: its names; of each cache the first
    /// 1,000 rows as a whole mailbox, and then each further 1,000; each action, as one that ended or that waits; how many
    /// tries of the action that is due were taken back; the pending intent. `None` where the list ends before. Fails for
    /// want of memory alone.
    pub fn restated_at(&self, alloc: Global, place: usize) -> Result<Option<Event>, AllocError>
        ensures { IfOk result (λ event. IsToldBy (slice_get (pieces (meaning self.now)) place) event) }
    {
        let boxes = self.boxes.as_slice();
        if place == 0 {
            let names = names_in(alloc, boxes)?;
            return Ok(Some(Event::Begin { names }));
        }
        let spot = spot_in(alloc, boxes, place - 1)?;
        match spot {
            Spot::Told(event) => Ok(Some(event)),
            Spot::Behind(left) => self.told_behind(left),
        }
    }

    /// All of that list. Fails for want of memory alone.
    pub fn restated(&self, alloc: Global) -> Result<Vec<Event>, AllocError>
        ensures { IfOk result (λ list. AreTold (pieces (meaning self.now)) list.items) }
    {
        let mut list = Vec::new(alloc);
        while let Some(event) = self.restated_at(alloc, list.len())? {
            list.push(event)?;
        }
        Ok(list)
    }

    // What stands behind the caches.
    fn told_behind(&self, left: usize) -> Result<Option<Event>, AllocError>
        ensures { IfOk result (λ event. event ≡ slice_get (events_behind (meaning self.now)) left) }
    {
        let count = self.queue.len();
        if count <= left {
            return Ok(self.told_last(left - count));
        }
        let queue = self.queue.as_slice();
        told_action(left, &queue[left])
    }

    // What stands behind the actions: the tries of the one that is due, and the pending intent.
    fn told_last(&self, left: usize) -> Option<Event>
        ensures { result ≡ slice_get (tries_events self.now.queue.items ++ intent_events self.now.pending self.now.queue.items) left }
    {
        let id = ActionId::new(self.queue.settled() as u32 + 1)?;
        let tries = self.tries_due();
        if tries == 0 {
            return self.told_intent(id, left);
        }
        if left == 0 {
            return Some(Event::Withdraw { id, tries });
        }
        self.told_intent(id, left - 1)
    }

    /// How many tries of the action that is due were taken back.
    pub fn tries_due(&self) -> u8
        ensures { result ≡ tries_due self.now.queue.items }
    {
        match self.queue.due() {
            Some(queued) => queued.tries,
            None => 0,
        }
    }

    // The pending intent, where there is one.
    fn told_intent(&self, id: ActionId, left: usize) -> Option<Event>
        requires { id ≡ suc (due self.now.queue.items) }
        ensures { result ≡ slice_get (intent_events self.now.pending self.now.queue.items) left }
    {
        if left != 0 {
            return None;
        }
        match &self.pending {
            None => None,
            Some(intent) => Some(Event::Intend {
                id,
                intent: intent.copy(),
            }),
        }
    }
}

/// How many events tell a cache anew.
pub fn parts_of(cache: &Cache) -> usize
    ensures { result ≡ suc (later_parts cache.now.rows) }
{
    1 + cache.rows.len().saturating_sub(1) / ROWS_AT_ONCE
}

// The names of the mailboxes.
fn names_in(alloc: Global, boxes: &[Known]) -> Result<List<BoxName>, AllocError>
    ensures { IfOk result (λ names. names ≡ names_of boxes.now) }
{
    let mut names = Vec::with_capacity(alloc, boxes.len())?;
    for known in boxes {
        names.push(known.name.copy())?;
    }
    Ok(List::of(names))
}

// What stands at this place of the events that tell the mailboxes.
fn spot_in(alloc: Global, boxes: &[Known], place: usize) -> Result<Spot, AllocError>
    ensures { IfOk result (λ spot. IsSpot boxes.now place spot) }
{
    let mut left = place;
    for known in boxes {
        let Some(cache) = &known.cache else {
            continue;
        };
        let parts = parts_of(cache);
        if left < parts {
            let event = told_rows(alloc, &known.name, cache, left)?;
            return Ok(Spot::Told(event));
        }
        left -= parts;
    }
    Ok(Spot::Behind(left))
}

// The event that tells a part of a mailbox's rows.
fn told_rows(alloc: Global, name: &BoxName, cache: &Cache, part: usize) -> Result<Event, AllocError>
    requires { part ≤ later_parts cache.now.rows }
    ensures { IfOk result (λ event. IsToldBy (slice_get (cache_pieces name.now (Some cache.now)) part) (Some event)) }
{
    let delta = part_of(alloc, cache, part)?;
    Ok(Event::Learn {
        name: name.copy(),
        delta,
    })
}

// A part of a cache's rows, the first one as a whole mailbox.
fn part_of(alloc: Global, cache: &Cache, part: usize) -> Result<Delta, AllocError>
    requires { part * 1000 ≤ length cache.now.rows }
    ensures { IfOk result (λ delta. IsPart cache.now part delta) }
{
    let rows = copied(alloc, rows_in(cache.rows.as_slice(), part))?;
    Ok(Delta {
        whole: part == 0,
        validity: cache.validity,
        highest: cache.highest,
        uidnext: cache.uidnext,
        vanished: UidSet::none(alloc),
        rows: List::of(rows),
    })
}

// This part of rows, which rise as all of them do.
fn rows_in(rows: &[(Uid, Row)], part: usize) -> &[(Uid, Row)]
    requires within { part * 1000 ≤ length rows.now }
    requires rising { Rises rows.now }
    ensures value { result.now ≡ take 1000 (drop (part * 1000) rows.now) }
    ensures rising { Rises result.now }
    ensures apart { AreApart [] result.now }
{
    let len = rows.len();
    let from = part * ROWS_AT_ONCE;
    let size = ROWS_AT_ONCE.min(len - from);
    &rows[from..from + size]
}

// The same rows once more.
fn copied(alloc: Global, rows: &[(Uid, Row)]) -> Result<Vec<(Uid, Row)>, AllocError>
    ensures { IfOk result (λ copies. copies.items ≡ rows.now) }
{
    let mut copies = Vec::with_capacity(alloc, rows.len())?;
    for (uid, row) in rows {
        copies.push((*uid, row.copy()?))?;
    }
    Ok(copies)
}

// An action, as it ended or as it waits.
fn told_action(at: usize, queued: &Queued) -> Result<Option<Event>, AllocError>
    requires { at < MAX_ACTIONS }
    ensures { IfOk result (λ event. event ≡ Some (action_event (suc at) queued.now.action queued.now.outcome)) }
{
    let action = queued.action.copy()?;
    let Some(id) = ActionId::new(at as u32 + 1) else {
        return Ok(None);
    };
    Ok(Some(told_as(id, action, queued.outcome)))
}

fn told_as(id: ActionId, action: Action, outcome: Option<Outcome>) -> Event
    ensures { result ≡ action_event id action outcome }
{
    match outcome {
        Some(outcome) => Event::Old {
            id,
            action,
            outcome,
        },
        None => Event::Accept { id, action },
    }
}

/// Events that tell the pieces of a book tell the book, behind the Begin of its names.
pub fn pieces_tell()
    ensures { PiecesTell }
{}
