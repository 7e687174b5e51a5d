//! A mailbox is resynchronised that playback needs, and the player takes what was told.

ghost use Rattle.std.specs.Prelude.{◌≡◌, None};
ghost use Rattle.std.specs.Option.{option_copied};
ghost use Rattle.action_queue.specs.Book.{cache_at};
ghost use Rattle.playback.specs.Needs.{need_of};
ghost use Rattle.playback.specs.declared.need.Need.TheVariants as needs;
ghost use Rattle.play_driver.specs.Sessions.{held_in};
ghost use Rattle.play_driver.specs.Turned.{MayTurn, TurnedByLink};

use crate::fault::unheard_of;
use crate::{Heard, PlayFault, Session, resynchronise};
use action_queue::Book;
use mail_base::BoxName;
use mailbox_cache::Cache;
use playback::Player;
use std::alloc::Global;
use store_core::Store;
use world_traits::{Clocked, Disk, Link, World};

/// Resynchronises the mailbox that the player needs, and hands what was told to the player; or holds the reply to SELECT, where it told a
/// UIDVALIDITY above that of the cache. Its contract is that of `turn`.
///
/// The faults are those of `resynchronise`; and `Lacking`, `BadReply` and `Limit` where the player doesn't take what was
/// told. After one the player is as before, and the connection isn't used again.
pub(crate) fn select<W: World>(
    alloc: Global,
    session: Session,
    store: &Store,
    player: &mut Player,
    world: &mut W,
    name: &BoxName,
) -> Result<Session, PlayFault>
    requires needed { need_of player.old store.now.book ≡ needs.Select name.now }
    requires resting { held_in session ≡ None }
    requires ready { MayTurn W.Clocked world.old (W.seen world.old) session player.old store.now }
    ensures { TurnedByLink W.Clocked world.old world.new (W.seen world.new) session
        player.old player.new store.now result }
{
    let book = store.book();
    let kept = cache_in(book, name);
    let answer = resynchronise(alloc, session, world, name, kept)?;
    match answer {
        Heard::Renewed(held) => Ok(Session::Held(held)),
        Heard::Told(chosen, told) => match player.chosen(book, told) {
            Ok(()) => Ok(Session::Chosen(chosen)),
            Err(unheard) => Err(unheard_of(name, unheard)),
        },
    }
}

// The cache that the book has of this name, if it has one.
fn cache_in<'a>(book: &'a Book, name: &BoxName) -> Option<&'a Cache>
    ensures { option_copied result ≡ cache_at name.now book.now.boxes }
{
    let known = book.known(name)?;
    known.cache.as_ref()
}
