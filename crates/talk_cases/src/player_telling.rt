//! A reply is handed to the player.

ghost use Rattle.action_queue.specs.Book.{cache_at};
ghost use Rattle.action_queue.specs.Writable.{HaveFewFlags};
ghost use Rattle.mailbox_cache.specs.declared.cache.Cache.{Cache};
ghost use Rattle.qresync_core.specs.Fitting.{Fits};
ghost use Rattle.std.specs.Option.{option_copied};
ghost use Rattle.std.specs.Prelude.{◌≡◌, Option, IfOk};

use crate::player_book::have_few_flags;
use action_queue::{Book, Event};
use imap_model::Replies;
use mail_base::BoxName;
use mailbox_cache::{Cache, Delta};
use playback::{Need, Player, Unheard};
use qresync_core::{ResyncFault, codes_of, delta_of, is_told_empty};
use std::alloc::{AllocError, Global};

// The cache that the book has of this name, if it has one.
fn cache_in<'a>(book: &'a Book, name: &BoxName) -> Option<&'a Cache>
    ensures { option_copied result ≡ cache_at name.now book.now.boxes }
{
    let known = book.known(name)?;
    known.cache.as_ref()
}

/// Whether the FETCH of all rows is due behind this reply to the SELECT that is needed.
pub fn wants_rows(player: &Player, book: &Book, selected: &Replies) -> Result<bool, AllocError> {
    let need = player.next(book)?;
    let wants = is_select_of_new(&need, book) && !is_told_empty(selected);
    drop(need);
    Ok(wants)
}

// Whether a mailbox is to be selected of which the book has no cache.
fn is_select_of_new(need: &Need, book: &Book) -> bool {
    match need {
        Need::Select(name) => cache_in(book, name).is_none(),
        _ => false,
    }
}

/// What takes the mailbox's cache away, where this reply to the SELECT that is needed told a
/// greater UIDVALIDITY.
pub fn outdated(player: &Player, book: &Book, selected: &Replies) -> Option<Event> {
    match codes_of(selected) {
        Ok(codes) => player.outdated(book, codes.validity),
        Err(_) => None,
    }
}

/// Whether it told a greater one.
pub fn is_outdated(player: &Player, book: &Book, selected: &Replies) -> bool {
    let event = outdated(player, book, selected);
    let is = event.is_some();
    drop(event);
    is
}

/// The event that what was told of a mailbox is moved out into, if some waits.
pub fn learnt(player: &mut Player, book: &Book) -> Option<Event> {
    if player.has_delta() {
        Some(player.learn(book))
    } else {
        None
    }
}

// The delta, or want of memory where a row has too many flags, as none has of a reply that was
// read.
fn small(told: Result<Delta, ResyncFault>) -> Result<Delta, ResyncFault>
    ensures few { IfOk result (λ delta. HaveFewFlags delta.rows) }
    ensures fits { (kept : Option Cache) → IfOk told (Fits kept) → IfOk result (Fits kept) }
{
    match told {
        Ok(delta) => small_delta(delta),
        Err(fault) => Err(fault),
    }
}

fn small_delta(delta: Delta) -> Result<Delta, ResyncFault>
    ensures few { IfOk result (λ small. HaveFewFlags small.rows) }
    ensures fits { (kept : Option Cache) → Fits kept delta → IfOk result (Fits kept) }
{
    if !have_few_flags(delta.rows.as_slice()) {
        return Err(ResyncFault::Memory);
    }
    Ok(delta)
}

/// Hands over what the SELECT that is needed told, and the FETCH of all rows.
pub fn choose(
    alloc: Global,
    player: &mut Player,
    book: &Book,
    selected: &Replies,
    all: Option<&Replies>,
) -> Result<(), Unheard> {
    let need = player.next(book)?;
    match need {
        Need::Select(name) => {
            let told = delta_of(alloc, cache_in(book, &name), selected, all);
            let small = small(told);
            player.chosen(book, small)
        }
        other => {
            drop(other);
            Ok(())
        }
    }
}
