//! A connection in which a mailbox is selected.

ghost use Rattle.std.specs.Prelude.{◌≡◌, ◌<◌, ◌+◌, List, Option, None, Some, IfOk, OnErr};
ghost use Rattle.std.specs.List.{list_all};
ghost use Rattle.mail_base.specs.declared.tag.Tag.TheVariants as tags;
ghost use Rattle.imap_model.specs.CommandText.{IsCarried};
ghost use Rattle.imap_model.specs.Mutating.{is_mutating};
ghost use Rattle.imap_model.specs.declared.command.Command.TheVariants as commands;
ghost use Rattle.imap_model.specs.declared.response.Response.{Response};
ghost use Rattle.imap_session.specs.Counting.{HasTag, count_after};
ghost use Rattle.imap_session.specs.Exchange.{FailsFor, HasReply, IsHeard, Talks};
ghost use Rattle.imap_session.specs.Permanent.{keeps, permitted};
ghost use Rattle.imap_session.specs.Replying.{read_as};
ghost use Rattle.imap_session.specs.Session.{Follows, IsAsked, Stands};
ghost use Rattle.imap_session.specs.Taken.{TookSome};
ghost use Rattle.imap_session.specs.declared.fault.SessionFault.{SessionFault};

use crate::SessionFault;
use crate::asking::{Answer, exchange};
use crate::conversation::Conversation;
use crate::gather::Gather;
use crate::permits::{Permits, keeps_all};
use crate::selecting::{select, select_into};
use flag_set::FlagSet;
use imap_model::{Command, Last, Listen, Mark, Replies};
use mail_base::{BoxName, Tag};
use world_traits::{Clocked, Link};

/// A connection in which a mailbox is selected (RFC 9051, section 3.3). A call that sends something uses it up, and gives
/// it back unless there is a fault.
#[derive(Drop)]
pub struct Chosen {
    pub(crate) conversation: Conversation,
    pub(crate) name: BoxName,
    // The PERMANENTFLAGS that counts of the reply to SELECT, if one was told.
    pub(crate) permits: Option<Permits>,
}

impl Chosen {
    /// The mailbox that is selected.
    pub fn name(&self) -> &BoxName
        ensures { result.now ≡ self.now.name }
    {
        &self.name
    }

    /// The tag of the next question: `C` and its count (RFC 9051, section 2.2.1).
    pub fn next_tag(&self) -> Tag
        ensures { result ≡ tags.Count (self.now.conversation.count + 1) }
    {
        Tag::Count(self.conversation.count + 1)
    }

    /// Whether each of the flags can be changed for good: it is named by the PERMANENTFLAGS that counts of the reply to
    /// SELECT, or it is a keyword and new ones can be made. Where none was told, all can (RFC 9051, section 6.3.2). What a
    /// later reply tells of them doesn't count.
    pub fn permits(&self, flags: &FlagSet) -> bool
        ensures { result ≡ list_all (keeps self.now.permits) flags.now }
    {
        keeps_all(&self.permits, flags)
    }

    /// Selects another mailbox, or the same one anew, and gives the whole reply to SELECT (RFC 9051, section 6.3.2).
    /// With a mark the server tells what changed since (RFC 7162, section 3.2.5).
    ///
    /// `Refused` where a BYE came, or NO or BAD: its line. `BadReply` where what came is no reply to this command: the
    /// place in bytes of the connection. `TooLarge` where a limit is passed, `Link` where the link failed, and `Memory`.
    /// After a fault the connection isn't used again.
    pub fn select<L: Link>(
        self,
        link: &mut L,
        name: &BoxName,
        since: Option<Mark>,
    ) -> Result<(Chosen, Replies), SessionFault>
        requires room { self.conversation.count + 1 < 4294967295 }
        requires follows { L.tells_files → Follows (L.link link.old).connection self.conversation.feed }
        requires stands { L.tells_server → Stands (Some self.name) (L.clock link.old) (L.link link.old).connection
            self.conversation.feed }

        ensures talks { Talks L.Clocked
            (tags.Count (self.conversation.count + 1)) (commands.Select name.now since)
            link.old link.new result }
        ensures replied { IfOk result (λ p. HasReply L.Clocked
            (tags.Count (self.conversation.count + 1)) (commands.Select name.now since)
            link.old link.new self.conversation.feed p.0.conversation.feed p.1) }
        ensures fails { FailsFor L.Clocked
            (tags.Count (self.conversation.count + 1)) (commands.Select name.now since)
            link.old link.new self.conversation.feed result }
        ensures stands { L.tells_server
            → IfOk result (λ p. Stands (Some name.now)
            (L.clock link.new) (L.link link.new).connection p.0.conversation.feed) }
        ensures still { L.tells_files
            → IfOk result (λ p. Follows (L.link link.new).connection p.0.conversation.feed) }
        ensures name { IfOk result (λ p. p.0.name ≡ name.now) }
        ensures counted { IfOk result (λ p. p.0.conversation.count ≡ self.conversation.count + 1) }
        ensures permits { IfOk result (λ p. p.0.permits ≡ permitted None p.1) }
    {
        let Chosen {
            conversation,
            name: _before,
            permits: _old,
        } = self;
        select(conversation, link, name, since)
    }

    /// Selects another mailbox, or the same one anew, as `select` does, and hands each untagged response to the listener as it comes. Gives how the reply
    /// ended.
    ///
    /// After Ok the listener has taken the untagged responses, and nothing else. After a fault it has taken a front of
    /// them; its own want of memory is `Memory`. The other faults are those of `select`.
    pub fn select_into<L: Link, H: Listen>(
        self,
        link: &mut L,
        name: &BoxName,
        since: Option<Mark>,
        listener: &mut H,
    ) -> Result<(Chosen, Last), SessionFault>
        requires room { self.conversation.count + 1 < 4294967295 }
        requires follows { L.tells_files
            → Follows (L.link link.old).connection self.conversation.feed }
        requires stands { L.tells_server
            → Stands (Some self.name) (L.clock link.old) (L.link link.old).connection
            self.conversation.feed }

        ensures talks { Talks L.Clocked
            (tags.Count (self.conversation.count + 1)) (commands.Select name.now since)
            link.old link.new result }
        ensures heard { IfOk result (λ p. (told : List Response)
            × IsHeard L.Clocked H.Stands
            (tags.Count (self.conversation.count + 1)) (commands.Select name.now since)
            link.old link.new self.conversation.feed p.0.conversation.feed
            listener.old listener.new told p.1
            × (p.0.permits ≡ permitted None (read_as told p.1.ending p.1.code))) }
        ensures some { OnErr result (TookSome H.Stands listener.old listener.new) }
        ensures fails { FailsFor L.Clocked
            (tags.Count (self.conversation.count + 1)) (commands.Select name.now since)
            link.old link.new self.conversation.feed result }
        ensures stands { L.tells_server
            → IfOk result (λ p. Stands (Some name.now)
            (L.clock link.new) (L.link link.new).connection p.0.conversation.feed) }
        ensures still { L.tells_files
            → IfOk result (λ p. Follows (L.link link.new).connection p.0.conversation.feed) }
        ensures name { IfOk result (λ p. p.0.name ≡ name.now) }
        ensures counted { IfOk result (λ p. p.0.conversation.count ≡ self.conversation.count + 1) }
    {
        let Chosen {
            conversation,
            name: _before,
            permits: _old,
        } = self;
        select_into(conversation, link, name, since, listener)
    }

    /// Runs one command and its whole reply: a question under the next tag, or a command that carries out an action,
    /// under the action's tag (RFC 9051, sections 6.4 and 6.3.12).
    ///
    /// A NO or BAD to an action is a reply; to a question it is `Refused`, as a BYE is to either. The other faults are
    /// those of `select`.
    pub fn ask<L: Link>(
        self,
        link: &mut L,
        tag: Tag,
        command: &Command,
    ) -> Result<(Chosen, Replies), SessionFault>
        requires asked { IsAsked command.now }
        requires tagged { HasTag (is_mutating command.now) self.conversation.count tag }
        requires carried { IsCarried command.now }
        requires room { self.conversation.count + 1 < 4294967295 }
        requires follows { L.tells_files → Follows (L.link link.old).connection self.conversation.feed }
        requires stands { L.tells_server → Stands (Some self.name) (L.clock link.old) (L.link link.old).connection
            self.conversation.feed }

        ensures talks { Talks L.Clocked tag command.now link.old link.new result }
        ensures replied { IfOk result (λ p. HasReply L.Clocked tag command.now link.old link.new
            self.conversation.feed p.0.conversation.feed p.1) }
        ensures fails { FailsFor L.Clocked tag command.now link.old link.new self.conversation.feed result }

        // How the connection stands then.
        ensures stands { L.tells_server
            → IfOk result (λ p. Stands (Some p.0.name)
            (L.clock link.new) (L.link link.new).connection p.0.conversation.feed) }
        ensures still { L.tells_files
            → IfOk result (λ p. Follows (L.link link.new).connection p.0.conversation.feed) }
        ensures name { IfOk result (λ p. p.0.name ≡ self.name) }
        ensures counted { IfOk result
            (λ p. p.0.conversation.count ≡ count_after (is_mutating command.now) self.conversation.count) }
        ensures permits { IfOk result (λ p. p.0.permits ≡ self.permits) }
    {
        let mut gather = Gather::new(self.conversation.alloc);
        let answer = self.ask_into(link, tag, command, &mut gather)?;
        let (chosen, last) = answer;
        let replies = gather.replies(last);
        Ok((chosen, replies))
    }

    /// Runs one command as `ask` does, and hands each untagged response to the listener as it comes. Gives how the reply
    /// ended.
    ///
    /// After Ok the listener has taken the untagged responses, and nothing else. After a fault it has taken a front of
    /// them; its own want of memory is `Memory`. The other faults are those of `ask`.
    pub fn ask_into<L: Link, H: Listen>(
        self,
        link: &mut L,
        tag: Tag,
        command: &Command,
        listener: &mut H,
    ) -> Result<(Chosen, Last), SessionFault>
        requires asked { IsAsked command.now }
        requires tagged { HasTag (is_mutating command.now) self.conversation.count tag }
        requires carried { IsCarried command.now }
        requires room { self.conversation.count + 1 < 4294967295 }
        requires follows { L.tells_files → Follows (L.link link.old).connection self.conversation.feed }
        requires stands { L.tells_server → Stands (Some self.name) (L.clock link.old) (L.link link.old).connection
            self.conversation.feed }

        ensures talks { Talks L.Clocked tag command.now link.old link.new result }
        ensures heard { IfOk result (λ p. (told : List Response)
            × IsHeard L.Clocked H.Stands tag command.now link.old link.new
            self.conversation.feed p.0.conversation.feed listener.old listener.new told p.1) }
        ensures some { OnErr result (TookSome H.Stands listener.old listener.new) }
        ensures fails { FailsFor L.Clocked tag command.now link.old link.new self.conversation.feed result }

        // How the connection stands then.
        ensures stands { L.tells_server
            → IfOk result (λ p. Stands (Some p.0.name)
            (L.clock link.new) (L.link link.new).connection p.0.conversation.feed) }
        ensures still { L.tells_files
            → IfOk result (λ p. Follows (L.link link.new).connection p.0.conversation.feed) }
        ensures name { IfOk result (λ p. p.0.name ≡ self.name) }
        ensures counted { IfOk result
            (λ p. p.0.conversation.count ≡ count_after (is_mutating command.now) self.conversation.count) }
        ensures permits { IfOk result (λ p. p.0.permits ≡ self.permits) }
    {
        let Chosen {
            conversation: Conversation {
                alloc,
                mut feed,
                count,
            },
            name,
            permits,
        } = self;
        let answer = exchange(alloc, &mut feed, link, tag, command, None, listener)?;
        let Answer {
            last,
            permits: _told,
        } = answer;
        let conversation = Conversation {
            alloc,
            feed,
            count: counted(count, command),
        };
        let chosen = Chosen {
            conversation,
            name,
            permits,
        };
        Ok((chosen, last))
    }
}

// The count of questions behind a command.
fn counted(count: u32, command: &Command) -> u32
    requires { count + 1 < 4294967295 }
    ensures value { result ≡ count_after (is_mutating command.now) count }
    ensures room { result < 4294967295 }
{
    if command.is_mutating() {
        count
    } else {
        count + 1
    }
}
