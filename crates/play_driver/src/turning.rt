//! A turn of playback: what is needed next is done, and the player takes what came of it.

ghost use Rattle.std.specs.Prelude.{◌≡◌, ◌≢◌, IfOk, IsErr, Some, is_some, true};
ghost use Rattle.action_queue.specs.Book.{meaning};
ghost use Rattle.imap_session.specs.Dialogue.{next_tag};
ghost use Rattle.playback.specs.Needs.{IsFinished, NeedsNoMemory, need_of};
ghost use Rattle.playback.specs.declared.need.Need.TheVariants as needs;
ghost use Rattle.play_driver.specs.Sessions.{count_of, held_in, selected_in};
ghost use Rattle.play_driver.specs.Turning.{IsNext};
ghost use Rattle.play_driver.specs.Turned.{MayTurn, Turned};

use crate::asking::ask;
use crate::holding::resume;
use crate::recording::{learn, record};
use crate::selecting::select;
use crate::{PlayFault, Session};
use action_queue::{Book, Event};
use imap_model::Command;
use imap_session::Chosen;
use mail_base::Tag;
use playback::{Need, Player};
use std::alloc::{AllocError, Global};
use store_core::Store;
use world_traits::{Clocked, Disk, Link, World};

/// What the player needs next; or None where what a resynchronisation told is to be recorded, which isn't copied for it. Fails for
/// want of memory alone.
pub(crate) fn next_need(player: &Player, book: &Book) -> Result<Option<Need>, AllocError>
    ensures value { IfOk result (λ next. IsNext next player.now (meaning book.now)) }
    ensures finished { IfOk result
        (λ next. next ≡ Some needs.Finished → IsFinished player.now (meaning book.now)) }
    ensures wanting { IsErr result → NeedsNoMemory (need_of player.now (meaning book.now)) → ⊥ }
{
    if player.has_delta() {
        return Ok(None);
    }
    let need = player.next(book)?;
    Ok(Some(need))
}

/// Does what the player needs next, and hands what came of it to the player; or, where the reply to a SELECT is held, goes on with that.
///
/// The faults are those of `record`, `select` and `ask`. After `Disk` what was to be recorded is on the disk or not, and the store isn't
/// used again; after any other fault the store is as before. After any fault the player is as before, but for a delta that was to be
/// recorded, and the connection isn't used again.
pub(crate) fn turn<W: World>(
    alloc: Global,
    session: Session,
    store: &mut Store,
    player: &mut Player,
    world: &mut W,
    next: Option<Need>,
) -> Result<Session, PlayFault>
    requires needed { IsNext next player.old store.old.book }
    requires unfinished { next ≢ Some needs.Finished }
    requires ready { MayTurn W.Clocked world.old (W.seen world.old) session player.old store.old }
    ensures { Turned W.Clocked world.old world.new (W.seen world.new) session
        player.old player.new store.old store.new result }
{
    match session {
        Session::Held(held) => {
            drop(next);
            resume(alloc, held, store, player, world)
        }
        Session::Ready(ready) => { act(alloc, Session::Ready(ready), store, player, world, next) }
        Session::Chosen(chosen) => {
            act(alloc, Session::Chosen(chosen), store, player, world, next)
        }
    }
}

// The same, where no reply is held.
fn act<W: World>(
    alloc: Global,
    session: Session,
    store: &mut Store,
    player: &mut Player,
    world: &mut W,
    next: Option<Need>,
) -> Result<Session, PlayFault>
    requires resting { held_in session ≡ None }
    requires needed { IsNext next player.old store.old.book }
    requires unfinished { next ≢ Some needs.Finished }
    requires ready { MayTurn W.Clocked world.old (W.seen world.old) session player.old store.old }
    ensures { Turned W.Clocked world.old world.new (W.seen world.new) session
        player.old player.new store.old store.new result }
{
    match next {
        None => learn(alloc, session, store, player, world),
        Some(need) => meet(alloc, session, store, player, world, need),
    }
}

// Does what is needed. Its contract is that of `turn`.
fn meet<W: World>(
    alloc: Global,
    session: Session,
    store: &mut Store,
    player: &mut Player,
    world: &mut W,
    need: Need,
) -> Result<Session, PlayFault>
    requires resting { held_in session ≡ None }
    requires needed { need ≡ need_of player.old store.old.book }
    requires unfinished { need ≢ needs.Finished }
    requires ready { MayTurn W.Clocked world.old (W.seen world.old) session player.old store.old }
    ensures { Turned W.Clocked world.old world.new (W.seen world.new) session
        player.old player.new store.old store.new result }
{
    match need {
        Need::Select(name) => select(alloc, session, store, player, world, &name),
        Need::Ask(command) => {
            let tag = next_tag_in(&session);
            ask(session, store, player, world, tag, &command)
        }
        Need::Commit(event) => record(alloc, session, store, player, world, event),
        Need::Settle(id, outcome) => {
            let event = Event::Settle { id, outcome };
            record(alloc, session, store, player, world, event)
        }
        Need::Withdraw(id, tries) => {
            let event = Event::Withdraw { id, tries };
            record(alloc, session, store, player, world, event)
        }
        Need::Send(id, command) => {
            let tag = Tag::of_try(id.number(), store.book().tries_due());
            ask(session, store, player, world, tag, &command)
        }
        Need::Finished => unreachable!(),
    }
}

// The tag of the session's next question.
fn next_tag_in(session: &Session) -> Tag
    requires { is_some (selected_in session.now) ≡ true }
    ensures { result ≡ next_tag (count_of session.now) }
{
    match session {
        Session::Ready(_) => unreachable!(),
        Session::Chosen(chosen) => chosen.next_tag(),
        Session::Held(held) => held.chosen.next_tag(),
    }
}
