//! A session in which a mailbox can be selected (RFC 9051, section 3).

ghost use Rattle.std.specs.Prelude.{◌≡◌, ◌<◌, ◌+◌, List, None, Some, IfOk, OnErr, OnOk, IsErrOf};
ghost use Rattle.imap_model.specs.declared.command.Command.TheVariants as commands;
ghost use Rattle.imap_model.specs.declared.response.Response.{Response};
ghost use Rattle.imap_session.specs.Dialogue.{next_tag};
ghost use Rattle.imap_session.specs.Permanent.{permitted};
ghost use Rattle.imap_session.specs.Replying.{read_as};
ghost use Rattle.imap_session.specs.Session.{Follows, Stands};
ghost use Rattle.imap_session.specs.Taken.{TookSome};
ghost use Rattle.imap_session.specs.declared.fault.SessionFault.{SessionFault};
ghost use Rattle.play_driver.specs.Playing.{HasLeft, NotLeft};
ghost use Rattle.play_driver.specs.Sessions.{selected_in, count_of, feed_of, held_in};
ghost use Rattle.play_driver.specs.Stages.{stage_of};
ghost use Rattle.imap_session.specs.Exchange.{FailsFor, IsHeard, Talks};

use imap_model::{Last, Listen, Mark};
use imap_session::{Chosen, Ready, SessionFault};
use mail_base::{BoxName, Validity};
use qresync_core::DeltaMaker;
use world_traits::{Clocked, Link};

/// A session in which a mailbox can be selected: none is yet, or one is; or the reply to its SELECT is held.
#[derive(Drop)]
pub enum Session {
    Ready(Ready),
    Chosen(Chosen),
    Held(Held),
}

/// A mailbox is selected that was renewed since it was cached. What was made of the reply to SELECT is held, with how that ended and the
/// UIDVALIDITY that it told, until the cache is taken away.
#[derive(Drop)]
pub struct Held {
    pub chosen: Chosen,
    pub maker: DeltaMaker,
    pub last: Last,
    pub told: Validity,
}

impl Session {
    /// Selects a mailbox, as `Ready::select_into` and `Chosen::select_into` do, while no reply is held.
    pub fn select_into<L: Link, H: Listen>(
        self,
        link: &mut L,
        name: &BoxName,
        since: Option<Mark>,
        listener: &mut H,
    ) -> Result<(Chosen, Last), SessionFault>
        requires resting { held_in self ≡ None }
        requires room { count_of self + 1 < 4294967295 }
        requires follows { L.tells_files → Follows (L.link link.old).connection (feed_of self) }
        requires stands { L.tells_server → Stands (selected_in self)
            (L.clock link.old) (L.link link.old).connection (feed_of self) }
        ensures talks { Talks L.Clocked (next_tag (count_of self)) (commands.Select name.now since)
            link.old link.new result }
        ensures heard { IfOk result (λ p. (told : List Response)
            × IsHeard L.Clocked H.Stands (next_tag (count_of self))
            (commands.Select name.now since) link.old link.new
            (feed_of self) p.0.conversation.feed listener.old listener.new told p.1
            × (p.0.permits ≡ permitted None (read_as told p.1.ending p.1.code))) }
        ensures some { OnErr result (TookSome H.Stands listener.old listener.new) }
        ensures fails { FailsFor L.Clocked (next_tag (count_of self))
            (commands.Select name.now since) link.old link.new (feed_of self) result }
        ensures stands { L.tells_server → IfOk result (λ p. Stands (Some name.now)
            (L.clock link.new) (L.link link.new).connection p.0.conversation.feed) }
        ensures still { L.tells_files
            → IfOk result (λ p. Follows (L.link link.new).connection p.0.conversation.feed) }
        ensures name { IfOk result (λ p. p.0.name ≡ name.now) }
        ensures counted { IfOk result (λ p. p.0.conversation.count ≡ count_of self + 1) }
    {
        match self {
            Session::Ready(ready) => ready.select_into(link, name, since, listener),
            Session::Chosen(chosen) => chosen.select_into(link, name, since, listener),
            Session::Held(_) => unreachable!(),
        }
    }

    /// Ends the session, as `Ready::leave` and `Chosen::leave` do, while no reply is held: LOGOUT is sent, and a BYE or its completion is read.
    pub fn leave<L: Link>(self, link: &mut L) -> Result<(), SessionFault>
        requires resting { held_in self ≡ None }
        requires room { count_of self + 1 < 4294967295 }
        requires follows { L.tells_files → Follows (L.link link.old).connection (feed_of self) }
        requires stands { L.tells_server → Stands (selected_in self)
            (L.clock link.old) (L.link link.old).connection (feed_of self) }
        ensures talks { Talks L.Clocked (next_tag (count_of self)) commands.Logout
            link.old link.new result }
        ensures left { L.tells_files
            → OnOk result (HasLeft (stage_of (L.link link.old) self) (L.link link.new)) }
        ensures why { L.tells_files → (fault : SessionFault) → IsErrOf result fault
            → NotLeft (stage_of (L.link link.old) self) (L.link link.new) fault }
    {
        match self {
            Session::Ready(ready) => ready.leave(link),
            Session::Chosen(chosen) => chosen.leave(link),
            Session::Held(_) => unreachable!(),
        }
    }
}
