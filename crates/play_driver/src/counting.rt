//! How many actions a run settled.

ghost use Rattle.std.specs.Prelude.{◌≡◌, ◌≤◌, None, length, sum_by};
ghost use Rattle.action_queue.specs.Book.{Meaning, meaning};
ghost use Rattle.action_queue.specs.Queues.{AllSettled, due};
ghost use Rattle.action_queue.specs.declared.queued.Queued.{Queued};
ghost use Rattle.play_driver.specs.Counted.{conflicts_of, counts_of, played_since};
ghost use Rattle.play_driver.specs.Progress.{IsLater};
ghost use Rattle.store_core.specs.Fold.{IsFold};

use crate::Played;
use action_queue::{Book, Outcome, Queued};

/// How many actions were settled since so many were, and how many of them as conflicts.
pub(crate) fn played_since(book: &Book, settled: usize) -> Played
    ensures { (entry : Meaning) → IsFold entry → IsLater entry (meaning book.now) → AllSettled book.now.queue.items
        → settled ≡ due entry.queue → result ≡ played_since entry (meaning book.now) }
{
    let queue = book.queue.as_slice();
    let from = settled.min(book.queue.len());
    let since = &queue[from..];
    Played {
        settled: since.len() as u32,
        conflicts: conflicts_in(since),
    }
}

// How many of the actions ended as conflicts.
fn conflicts_in(actions: &[Queued]) -> u32
    requires { length actions.now ≤ 1000000 }
    ensures { result ≡ sum_by (λ (q : Queued). counts_of conflicts_of None q.outcome) actions.now }
{
    let mut conflicts = 0;
    for queued in actions {
        conflicts += conflict(queued);
    }
    conflicts
}

// One where the action ended as a conflict.
fn conflict(queued: &Queued) -> u32
    ensures value { result ≡ counts_of conflicts_of None queued.now.outcome }
    ensures most { result ≤ 1 }
{
    match queued.outcome {
        Some(Outcome::Conflict(_)) => 1,
        _ => 0,
    }
}
