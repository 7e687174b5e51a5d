//! A connection in which QRESYNC is enabled.

ghost use Rattle.std.specs.Prelude.{◌≡◌, ◌<◌, ◌+◌, List, Some, None, IfOk, OnErr};
ghost use Rattle.mail_base.specs.declared.tag.Tag.TheVariants as tags;
ghost use Rattle.imap_model.specs.declared.command.Command.TheVariants as commands;
ghost use Rattle.imap_model.specs.declared.response.Response.{Response};
ghost use Rattle.imap_session.specs.Exchange.{FailsFor, HasReply, IsHeard, Talks};
ghost use Rattle.imap_session.specs.Permanent.{permitted};
ghost use Rattle.imap_session.specs.Replying.{read_as};
ghost use Rattle.imap_session.specs.Session.{Follows, Stands};
ghost use Rattle.imap_session.specs.Taken.{TookSome};
ghost use Rattle.imap_session.specs.declared.fault.SessionFault.{SessionFault};

use crate::conversation::Conversation;
use crate::selecting::{select, select_into};
use crate::{Chosen, SessionFault};
use imap_model::{Last, Listen, Mark, Replies};
use mail_base::BoxName;
use world_traits::{Clocked, Link};

/// A connection in which QRESYNC is enabled and no mailbox is selected.
#[derive(Drop)]
pub struct Ready {
    pub(crate) conversation: Conversation,
}

impl Ready {
    /// Selects a mailbox, and gives the whole reply to SELECT (RFC 9051, section 6.3.2).
    /// With a mark the server tells what changed since (RFC 7162, section 3.2.5).
    ///
    /// `Refused` where a BYE came, or NO or BAD: its line. `BadReply` where what came is no reply to this command: the
    /// place in bytes of the connection. `TooLarge` where a limit is passed, `Link` where the link failed, and `Memory`.
    /// After a fault the connection isn't used again.
    pub fn select<L: Link>(
        self,
        link: &mut L,
        name: &BoxName,
        since: Option<Mark>,
    ) -> Result<(Chosen, Replies), SessionFault>
        requires room { self.conversation.count + 1 < 4294967295 }
        requires follows { L.tells_files
            → Follows (L.link link.old).connection self.conversation.feed }
        requires stands { L.tells_server
            → Stands None (L.clock link.old) (L.link link.old).connection
            self.conversation.feed }

        ensures talks { Talks L.Clocked
            (tags.Count (self.conversation.count + 1)) (commands.Select name.now since)
            link.old link.new result }
        ensures replied { IfOk result (λ p. HasReply L.Clocked
            (tags.Count (self.conversation.count + 1)) (commands.Select name.now since)
            link.old link.new self.conversation.feed p.0.conversation.feed p.1) }
        ensures fails { FailsFor L.Clocked
            (tags.Count (self.conversation.count + 1)) (commands.Select name.now since)
            link.old link.new self.conversation.feed result }
        ensures stands { L.tells_server
            → IfOk result (λ p. Stands (Some name.now)
            (L.clock link.new) (L.link link.new).connection p.0.conversation.feed) }
        ensures still { L.tells_files
            → IfOk result (λ p. Follows (L.link link.new).connection p.0.conversation.feed) }
        ensures name { IfOk result (λ p. p.0.name ≡ name.now) }
        ensures counted { IfOk result (λ p. p.0.conversation.count ≡ self.conversation.count + 1) }
        ensures permits { IfOk result (λ p. p.0.permits ≡ permitted None p.1) }
    {
        select(self.conversation, link, name, since)
    }

    /// Selects a mailbox as `select` does, and hands each untagged response to the listener as it comes. Gives how the reply
    /// ended.
    ///
    /// After Ok the listener has taken the untagged responses, and nothing else. After a fault it has taken a front of
    /// them; its own want of memory is `Memory`. The other faults are those of `select`.
    pub fn select_into<L: Link, H: Listen>(
        self,
        link: &mut L,
        name: &BoxName,
        since: Option<Mark>,
        listener: &mut H,
    ) -> Result<(Chosen, Last), SessionFault>
        requires room { self.conversation.count + 1 < 4294967295 }
        requires follows { L.tells_files
            → Follows (L.link link.old).connection self.conversation.feed }
        requires stands { L.tells_server
            → Stands None (L.clock link.old) (L.link link.old).connection
            self.conversation.feed }

        ensures talks { Talks L.Clocked
            (tags.Count (self.conversation.count + 1)) (commands.Select name.now since)
            link.old link.new result }
        ensures heard { IfOk result (λ p. (told : List Response)
            × IsHeard L.Clocked H.Stands
            (tags.Count (self.conversation.count + 1)) (commands.Select name.now since)
            link.old link.new self.conversation.feed p.0.conversation.feed
            listener.old listener.new told p.1
            × (p.0.permits ≡ permitted None (read_as told p.1.ending p.1.code))) }
        ensures some { OnErr result (TookSome H.Stands listener.old listener.new) }
        ensures fails { FailsFor L.Clocked
            (tags.Count (self.conversation.count + 1)) (commands.Select name.now since)
            link.old link.new self.conversation.feed result }
        ensures stands { L.tells_server
            → IfOk result (λ p. Stands (Some name.now)
            (L.clock link.new) (L.link link.new).connection p.0.conversation.feed) }
        ensures still { L.tells_files
            → IfOk result (λ p. Follows (L.link link.new).connection p.0.conversation.feed) }
        ensures name { IfOk result (λ p. p.0.name ≡ name.now) }
        ensures counted { IfOk result (λ p. p.0.conversation.count ≡ self.conversation.count + 1) }
    {
        select_into(self.conversation, link, name, since, listener)
    }
}
