//! A question, or the command of an action, is asked, and the player takes its reply.

ghost use Rattle.std.specs.Prelude.{is_some, true, ◌≡◌, None};
ghost use Rattle.action_queue.specs.Queues.{due_action, tries_due};
ghost use Rattle.playback.specs.Needs.{need_of};
ghost use Rattle.play_driver.specs.Turning.{IsAskedFor, permits_due};
ghost use Rattle.play_driver.specs.declared.session.Session.TheVariants as sessions;
ghost use Rattle.play_driver.specs.Sessions.{count_of, held_in, selected_in};
ghost use Rattle.play_driver.specs.Turned.{MayTurn, TurnedByLink};

use crate::fault::unheard_of;
use crate::{PlayFault, Session};
use action_queue::{Action, Book};
use imap_model::Command;
use imap_session::Chosen;
use mail_base::Tag;
use playback::Player;
use store_core::Store;
use world_traits::{Clocked, Disk, Link, World};

/// Asks the question that the player needs, or sends the command of the action that is due, and hands the reply to the player. Its
/// clauses are those of `turn`.
///
/// The faults are those of `Chosen::ask`, and `BadReply` where the reply lacks what the server owes. After one the player is as before,
/// and the connection isn't used again.
pub(crate) fn ask<W: World>(
    session: Session,
    store: &Store,
    player: &mut Player,
    world: &mut W,
    tag: Tag,
    command: &Command,
) -> Result<Session, PlayFault>
    requires needed { IsAskedFor (need_of player.old store.now.book) (tries_due store.now.book.queue) (count_of session)
        tag command.now }
    requires resting { held_in session ≡ None }
    requires ready { MayTurn W.Clocked world.old (W.seen world.old) session player.old store.now }
    ensures { TurnedByLink W.Clocked world.old world.new (W.seen world.new) session
        player.old player.new store.now result }
{
    let book = store.book();
    let chosen = chosen_in(session);
    let answer = chosen.ask(world, tag, command)?;
    let (chosen, replies) = answer;
    let permits = permits_due(&chosen, book);
    match player.heard(book, &replies, permits) {
        Ok(()) => Ok(Session::Chosen(chosen)),
        Err(unheard) => Err(unheard_of(chosen.name(), unheard)),
    }
}

// The session in which a mailbox is selected.
fn chosen_in(session: Session) -> Chosen
    requires resting { held_in session ≡ None }
    requires there { is_some (selected_in session) ≡ true }
    ensures { session ≡ sessions.Chosen result }
{
    match session {
        Session::Ready(_) => unreachable!(),
        Session::Chosen(chosen) => chosen,
        Session::Held(_) => unreachable!(),
    }
}

// Whether the flags of the action that is due can be changed for good in the mailbox that is selected.
fn permits_due(chosen: &Chosen, book: &Book) -> bool
    ensures { result ≡ permits_due chosen.now.permits (due_action book.now.queue.items) }
{
    let Some(queued) = book.queue.due() else {
        return true;
    };
    match &queued.action {
        Action::Flag { flags, .. } => chosen.permits(flags),
        Action::Move { .. } | Action::Append { .. } => true,
    }
}
