//! How many bytes a side of a journal has that holds a book as it is told anew, counted without writing it.

ghost use Rattle.std.specs.Prelude.{◌≡◌, ◌≤◌, ◌+◌, ◌-◌, ◌*◌, ◌^◌, min, length, map, sum_by, Some};
ghost use Rattle.action_queue.specs.Book.{meaning};
ghost use Rattle.action_queue.specs.Restating.{AreWellBoxes, IsWellBook, IsWellKnown, intent_events, tries_events};
ghost use Rattle.action_queue.specs.Telling.{Fields, cache_pieces, later_parts};
ghost use Rattle.action_queue.specs.Writable.{IsWritableAction};
ghost use Rattle.action_queue.specs.declared.rule.Version.TheVariants as versions;
ghost use Rattle.record_codec.specs.Fields.{counted};
ghost use Rattle.record_codec.specs.Restated.{AreWritable, SizesTell, box_size, queued_size, record_size, restated_end};

use crate::sizes::{action_size, intent_size, learn_size, name_size, old_size};
use action_queue::{Book, Known, Queued, parts_of};
use mail_base::{BoxName, MAX_ROWS};
use mailbox_cache::Cache;

/// The number of bytes of a side that holds the book as it is told anew, with its gates and its header; the largest `u64`
/// stands for each larger number. It takes no memory.
pub fn restated_size(book: &Book) -> u64
    requires { IsWellBook versions.Second (meaning book.now) }
    ensures { result ≡ min (restated_end (meaning book.now)) (2 ^ 64 - 1) }
{
    let boxes = boxes_size(book.boxes.as_slice());
    let last = tries_size(book) + pending_size(book);
    let queue = queue_size(book.queue.as_slice());
    (21 + boxes + last).saturating_add(queue)
}

// The names of the mailboxes, and the records that tell their caches.
fn boxes_size(boxes: &[Known]) -> u64
    requires few { length boxes.now ≤ 32 }
    requires well { AreWellBoxes boxes.now }
    ensures value { result ≡ sum_by box_size boxes.now }
    ensures most { result ≤ length boxes.now * 2 ^ 40 }
{
    let mut size = 0;
    for known in boxes {
        size += box_size(known);
    }
    size
}

// A mailbox's name, and the records that tell its cache.
fn box_size(known: &Known) -> u64
    requires { IsWellKnown known.now.cache }
    ensures value { result ≡ box_size known.now }
    ensures most { result ≤ 2 ^ 40 }
{
    let named = name_size(&known.name);
    match &known.cache {
        None => named,
        Some(cache) => named + cache_size(&known.name, cache),
    }
}

// The records that tell a cache: its rows once, and the mailbox's name and numbers in each record.
fn cache_size(name: &BoxName, cache: &Cache) -> u64
    requires { IsWellKnown (Some cache.now) }
    ensures value { result ≡ sum_by record_size (cache_pieces name.now (Some cache.now)) }
    ensures most { result ≤ 2 ^ 37 }
{
    5 + learn_size(name, cache.rows.as_slice()) + later_size(name, cache)
}

// What the later ones of these records have beside rows.
fn later_size(name: &BoxName, cache: &Cache) -> u64
    requires { length cache.now.rows ≤ MAX_ROWS }
    ensures value { result ≡ later_parts cache.now.rows * (31 + length (counted name.now)) }
    ensures most { result ≤ 31840 }
{
    let more = parts_of(cache) as u64 - 1;
    more * (31 + name_size(name))
}

// The records of the actions; the largest `u64` stands for each larger number.
fn queue_size(queue: &[Queued]) -> u64
    requires { AreWritable queue.now }
    ensures { result ≡ min (sum_by queued_size queue.now) (2 ^ 64 - 1) }
{
    let mut size = 0u64;
    for queued in queue {
        size = size.saturating_add(queued_size(queued));
    }
    size
}

// The record of an action, as it ended or as it waits.
fn queued_size(queued: &Queued) -> u64
    requires { IsWritableAction queued.now.action }
    ensures { result ≡ queued_size queued.now }
{
    match &queued.outcome {
        None => 10 + action_size(&queued.action),
        Some(outcome) => 5 + old_size(&queued.action, outcome),
    }
}

// The record of the tries of the action that is due, where some were taken back.
fn tries_size(book: &Book) -> u64
    ensures value { result ≡ sum_by record_size (map Fields (tries_events book.now.queue.items)) }
    ensures most { result ≤ 11 }
{
    if book.tries_due() == 0 {
        return 0;
    }
    11
}

// The record of the pending intent, where there is one.
fn pending_size(book: &Book) -> u64
    ensures value { result ≡ sum_by record_size (map Fields (intent_events book.now.pending book.now.queue.items)) }
    ensures most { result ≤ 522 }
{
    match &book.pending {
        None => 0,
        Some(intent) => 10 + intent_size(intent),
    }
}

/// Events that tell pieces have records of these sizes.
pub fn sizes_tell()
    ensures { SizesTell }
{}
