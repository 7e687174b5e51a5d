//! The reply to a SELECT is held that told a UIDVALIDITY above the cache's: the cache is taken away, and then the player takes what was
//! told, and the rows of all messages (RFC 9051, section 2.3.1.1; RFC 4549, section 4.1).

ghost use Rattle.std.specs.Prelude.{◌≡◌, None, Some};
ghost use Rattle.action_queue.specs.Book.{cache_at};
ghost use Rattle.playback.specs.Choosing.{reset_of};
ghost use Rattle.play_driver.specs.declared.session.Session.TheVariants as sessions;
ghost use Rattle.play_driver.specs.Turned.{MayTurn, Turned, TurnedByLink};

use crate::fault::unheard_of;
use crate::recording::enter_event;
use crate::rows::rows;
use crate::{Held, PlayFault, Session};
use action_queue::Event;
use imap_session::Chosen;
use mailbox_cache::Delta;
use playback::Player;
use qresync_core::ResyncFault;
use std::alloc::Global;
use store_core::Store;
use world_traits::{Clocked, Disk, Link, World};

/// A turn of a session in which a reply is held: where the mailbox has a cache still, that is taken away; else the rows are asked for, and
/// the player takes what was told. Its contract is that of `turn`.
pub(crate) fn resume<W: World>(
    alloc: Global,
    held: Held,
    store: &mut Store,
    player: &mut Player,
    world: &mut W,
) -> Result<Session, PlayFault>
    requires ready { MayTurn W.Clocked world.old (W.seen world.old) (sessions.Held held)
        player.old store.old }
    ensures { Turned W.Clocked world.old world.new (W.seen world.new) (sessions.Held held)
        player.old player.new store.old store.new result }
{
    match player.outdated(store.book(), held.told) {
        Some(event) => reset(alloc, held, store, player, world, event),
        None => fetch(alloc, held, store, player, world),
    }
}

// Records that the cache of the mailbox is taken away; the player is as before. Its contract is that of `turn`.
fn reset<W: World>(
    alloc: Global,
    held: Held,
    store: &mut Store,
    player: &Player,
    world: &mut W,
    event: Event,
) -> Result<Session, PlayFault>
    requires due { reset_of held.chosen.name (cache_at held.chosen.name store.old.book.boxes)
        held.told ≡ Some event }
    requires ready { MayTurn W.Clocked world.old (W.seen world.old) (sessions.Held held)
        player.now store.old }
    ensures { Turned W.Clocked world.old world.new (W.seen world.new) (sessions.Held held)
        player.now player.now store.old store.new result }
{
    match enter_event(alloc, store, world, event) {
        Ok(()) => Ok(Session::Held(held)),
        Err(fault) => {
            drop(held);
            Err(PlayFault::from(fault))
        }
    }
}

// Asks for the rows of all messages, where there are some, and hands what was told to the player. Its contract is that of `turn`.
fn fetch<W: World>(
    alloc: Global,
    held: Held,
    store: &Store,
    player: &mut Player,
    world: &mut W,
) -> Result<Session, PlayFault>
    requires away { cache_at held.chosen.name store.now.book.boxes ≡ None }
    requires ready { MayTurn W.Clocked world.old (W.seen world.old) (sessions.Held held)
        player.old store.now }
    ensures { TurnedByLink W.Clocked world.old world.new (W.seen world.new) (sessions.Held held)
        player.old player.new store.now result }
{
    let book = store.book();
    let answer = rows(alloc, held, world)?;
    let (chosen, told) = answer;
    match player.chosen(book, told) {
        Ok(()) => Ok(Session::Chosen(chosen)),
        Err(unheard) => Err(unheard_of(chosen.name(), unheard)),
    }
}
