//! The rows of a mailbox as the user sees them.

ghost use Rattle.std.specs.Prelude.{◌≡◌, ◌++◌, IfOk, OnOk};
ghost use Rattle.std.specs.Prelude.{List};
ghost use Rattle.std.specs.List.{flat_map};
ghost use Rattle.action_queue.specs.Book.{meaning, cache_at};
ghost use Rattle.dummy_ids.specs.Places.{makes_into};
ghost use Rattle.local_view.specs.Listing.{view, listed_rows, listed_dummies, listed_made};
ghost use Rattle.local_view.specs.Touching.{seen_so_far, left_row};
ghost use Rattle.action_queue.specs.declared.book.Known.{Known as KnownBox};

use crate::acting::touched_by;
use crate::touched::{Touched, place_of};
use crate::{Ident, Seen};
use action_queue::{Book, Queue, Queued};
use dummy_ids::makes_into;
use mail_base::{ActionId, BoxName};
use mailbox_cache::Row;
use std::alloc::{AllocError, Global};
use uid_sets::Uid;

/// A mailbox as the user sees it: its cached messages by UID, and behind them those that unsettled actions put into it, by number.
///
/// The rows of the cache are as the last resynchronisation left them, with the effect of each unsettled action in order. A
/// settled action has no part in it, so between an outcome and the next resynchronisation of the mailbox the cache is shown as it
/// is. It costs two passes over the queue, one over the mailbox's rows, a few look-ups for each action and one for each row. Of a
/// name that isn't the book's there are no cached messages. Fails for want of memory alone.
pub fn view(alloc: Global, book: &Book, name: &BoxName) -> Result<Vec<Seen>, AllocError>
    ensures { IfOk result (λ rows. rows.items ≡ view (meaning book.now) name.now) }
{
    let touched = touched_by(alloc, book)?;
    let mut rows = Vec::new(alloc);
    put_cached(&mut rows, book, &touched, name)?;
    put_dummies(&mut rows, &book.queue, &touched, name)?;
    Ok(rows)
}

// Adds the cached messages of a mailbox that are there.
fn put_cached(
    rows: &mut Vec<Seen>,
    book: &Book,
    touched: &Touched,
    name: &BoxName,
) -> Result<(), AllocError>
    ensures { OnOk result (rows.new.items ≡ rows.old.items
        ++ listed_rows (seen_so_far book.now.boxes touched.now) name.now (cache_at name.now book.now.boxes)) }
{
    let boxes = book.boxes.as_slice();
    let Some(at) = place_of(boxes, name) else {
        return Ok(());
    };
    let Some(known) = boxes.get(at) else {
        return Ok(());
    };
    let Some(cache) = &known.cache else {
        return Ok(());
    };
    put_rows(rows, touched, at, cache.rows.as_slice())
}

// Adds those of the rows of a mailbox whose messages are there.
fn put_rows(
    rows: &mut Vec<Seen>,
    touched: &Touched,
    at: usize,
    cached: &[(Uid, Row)],
) -> Result<(), AllocError>
    ensures { OnOk result (rows.new.items ≡ rows.old.items ++ flat_map (left_row touched.now at) cached.now) }
{
    for (uid, row) in cached {
        put_row(rows, touched, at, *uid, row)?;
    }
    Ok(())
}

// Adds a row, where its message is there.
fn put_row(
    rows: &mut Vec<Seen>,
    touched: &Touched,
    at: usize,
    uid: Uid,
    row: &Row,
) -> Result<(), AllocError>
    ensures { OnOk result (rows.new.items ≡ rows.old.items ++ left_row touched.now at (uid, row.now)) }
{
    if let Some(flags) = touched.left_of(at, uid, row) {
        let flags = flags.copy()?;
        rows.push(Seen {
            id: Ident::Real(uid),
            modseq: Some(row.modseq),
            flags,
        })?;
    }
    Ok(())
}

// Adds the messages that unsettled actions put into a mailbox, by number.
fn put_dummies(
    rows: &mut Vec<Seen>,
    queue: &Queue,
    touched: &Touched,
    name: &BoxName,
) -> Result<(), AllocError>
    ensures { (boxes : List KnownBox) → OnOk result (rows.new.items ≡ rows.old.items
        ++ listed_dummies (seen_so_far boxes touched.now) name.now 1 queue.now.items) }
{
    // A queue has at most 1,000,000 actions, as its length tells, so each number fits.
    let _count = queue.len();
    for (at, queued) in queue.as_slice().iter().enumerate() {
        let Some(id) = ActionId::new(at as u32 + 1) else {
            continue;
        };
        put_made(rows, touched, name, id, queued)?;
    }
    Ok(())
}

// Adds the message that an action makes, where it is unsettled, makes one for this mailbox, and the message is there.
fn put_made(
    rows: &mut Vec<Seen>,
    touched: &Touched,
    name: &BoxName,
    id: ActionId,
    queued: &Queued,
) -> Result<(), AllocError>
    ensures { (boxes : List KnownBox) → OnOk result (rows.new.items ≡ rows.old.items
        ++ listed_made (seen_so_far boxes touched.now) id (makes_into name.now queued.now.action) queued.now.outcome) }
{
    if queued.outcome.is_some() || !makes_into(&queued.action, name) {
        return Ok(());
    }
    if let Some(flags) = touched.made.get(&id.number()) {
        let flags = flags.copy()?;
        rows.push(Seen {
            id: Ident::Dummy(id),
            modseq: None,
            flags,
        })?;
    }
    Ok(())
}
