//! What became of the actions: counts over a book and a server's history.

ghost use Rattle.std.specs.Prelude.{◌≡◌, ◌<◌, length};
ghost use Rattle.mail_drill.specs.Counted.{settled_in, twice_in, missing_in, is_conflict, is_missing, is_settled, is_twice};
ghost use Rattle.imap_model.specs.Ours.{ours, is_ours};

use crate::tally::Counts;
use action_queue::{Outcome, Queue, Queued};
use imap_model::{Author, Deed};

/// What became of the actions of a queue, by a server's history.
pub fn counts_of(queue: &Queue, history: &[Deed]) -> Counts
    ensures settled { result.settled ≡ settled_in queue.now.items }
    ensures twice { result.twice ≡ twice_in queue.now.items history.now }
    ensures missing { result.missing ≡ missing_in queue.now.items history.now }
{
    Counts {
        settled: settled_in(queue),
        twice: twice_in(queue, history),
        missing: missing_in(queue, history),
    }
}

// How many actions have an outcome.
fn settled_in(queue: &Queue) -> usize
    ensures { result ≡ settled_in queue.now.items }
{
    let _most = queue.len();
    let mut count = 0;
    for (place, queued) in queue.as_slice().iter().enumerate() {
        if is_settled(place, queued) {
            count += 1;
        }
    }
    count
}

// How many actions took effect more than once.
fn twice_in(queue: &Queue, history: &[Deed]) -> usize
    ensures { result ≡ twice_in queue.now.items history.now }
{
    let _most = queue.len();
    let mut count = 0;
    for (place, queued) in queue.as_slice().iter().enumerate() {
        if is_twice(history, place, queued) {
            count += 1;
        }
    }
    count
}

// How many actions neither took effect once nor ended as a conflict.
fn missing_in(queue: &Queue, history: &[Deed]) -> usize
    ensures { result ≡ missing_in queue.now.items history.now }
{
    let _most = queue.len();
    let mut count = 0;
    for (place, queued) in queue.as_slice().iter().enumerate() {
        if is_missing(history, place, queued) {
            count += 1;
        }
    }
    count
}

// Whether an action has an outcome.
fn is_settled(_place: usize, queued: &Queued) -> bool
    ensures { result ≡ is_settled _place queued.now }
{
    queued.outcome.is_some()
}

// Whether the action at a place took effect more than once.
fn is_twice(history: &[Deed], place: usize, _queued: &Queued) -> bool
    requires { place < 1000000 }
    ensures { result ≡ is_twice history.now place _queued.now }
{
    deeds_of(place + 1, history) > 1
}

// Whether the action at a place neither took effect once nor ended as a conflict.
fn is_missing(history: &[Deed], place: usize, queued: &Queued) -> bool
    requires { place < 1000000 }
    ensures { result ≡ is_missing history.now place queued.now }
{
    !is_conflict(queued) && deeds_of(place + 1, history) != 1
}

// Whether the action ended as a conflict.
fn is_conflict(queued: &Queued) -> bool
    ensures { result ≡ is_conflict queued.now.outcome }
{
    match &queued.outcome {
        Some(Outcome::Conflict(_)) => true,
        Some(Outcome::Done { .. }) | None => false,
    }
}

// How often the action of this number took effect.
fn deeds_of(number: usize, history: &[Deed]) -> usize
    ensures { result ≡ length (ours number history.now) }
{
    let mut count = 0;
    for deed in history {
        if is_ours(number, deed.author) {
            count += 1;
        }
    }
    count
}

// Whether it is this client's, for the action of this number.
fn is_ours(number: usize, author: Author) -> bool
    ensures { result ≡ is_ours number author }
{
    match author {
        Author::Other => false,
        Author::Ours(tag) => match tag.action() {
            Some(action) => action as usize == number,
            None => false,
        },
    }
}
