//! SELECT and its whole reply (RFC 9051, section 6.3.2; RFC 7162, section 3.2.5).

ghost use Rattle.std.specs.Prelude.{◌≡◌, ◌<◌, ◌+◌, ℕ, List, Option, None, Some, IfOk, OnErr};
ghost use Rattle.mail_base.specs.BoxName.{IsBoxName};
ghost use Rattle.mail_base.specs.declared.tag.Tag.TheVariants as tags;
ghost use Rattle.imap_model.specs.declared.command.Command.TheVariants as commands;
ghost use Rattle.imap_model.specs.declared.response.Response.{Response};
ghost use Rattle.imap_session.specs.Exchange.{FailsFor, HasReply, IsHeard, Talks};
ghost use Rattle.imap_session.specs.Permanent.{permitted};
ghost use Rattle.imap_session.specs.Replying.{read_as};
ghost use Rattle.imap_session.specs.Session.{Follows, Stands};
ghost use Rattle.imap_session.specs.Taken.{TookSome};
ghost use Rattle.imap_session.specs.declared.fault.SessionFault.{SessionFault};

use crate::SessionFault;
use crate::asking::{Answer, exchange};
use crate::chosen::Chosen;
use crate::conversation::Conversation;
use crate::gather::Gather;
use imap_model::{Command, Last, Listen, Mark, Replies};
use mail_base::{BoxName, Tag};
use world_traits::{Clocked, Link};

// A name is one of a mailbox, since it is held here.
fn name_fits(name: &BoxName)
    ensures { IsBoxName name.now }
{
    let _ = name.as_bytes();
}

/// Selects the mailbox, whatever was selected before. The listener takes the untagged responses.
pub fn select_into<L: Link, H: Listen>(
    conversation: Conversation,
    link: &mut L,
    name: &BoxName,
    since: Option<Mark>,
    heard: &mut H,
) -> Result<(Chosen, Last), SessionFault>
    requires room { conversation.count + 1 < 4294967295 }
    requires follows { L.tells_files → Follows (L.link link.old).connection conversation.feed }
    requires stands { L.tells_server → (selected : Option (List ℕ)) × Stands selected (L.clock link.old)
        (L.link link.old).connection conversation.feed }
    ensures talks { Talks L.Clocked (tags.Count (conversation.count + 1)) (commands.Select name.now since)
        link.old link.new result }
    ensures heard { IfOk result (λ p. (told : List Response)
        × IsHeard L.Clocked H.Stands (tags.Count (conversation.count + 1)) (commands.Select name.now since)
        link.old link.new conversation.feed p.0.conversation.feed heard.old heard.new told p.1
        × (p.0.permits ≡ permitted None (read_as told p.1.ending p.1.code))) }
    ensures some { OnErr result (TookSome H.Stands heard.old heard.new) }
    ensures fails { FailsFor L.Clocked (tags.Count (conversation.count + 1)) (commands.Select name.now since)
        link.old link.new conversation.feed result }
    ensures stands { L.tells_server
        → IfOk result (λ p. Stands (Some name.now)
        (L.clock link.new) (L.link link.new).connection p.0.conversation.feed) }
    ensures still { L.tells_files
        → IfOk result (λ p. Follows (L.link link.new).connection p.0.conversation.feed) }
    ensures name { IfOk result (λ p. p.0.name ≡ name.now) }
    ensures counted { IfOk result (λ p. p.0.conversation.count ≡ conversation.count + 1) }
{
    name_fits(name);
    let Conversation {
        alloc,
        mut feed,
        count,
    } = conversation;
    let tag = Tag::Count(count + 1);
    let command = Command::Select {
        name: name.copy(),
        since,
    };
    let answer = exchange(alloc, &mut feed, link, tag, &command, None, heard)?;
    let Answer { last, permits } = answer;
    let conversation = Conversation {
        alloc,
        feed,
        count: count + 1,
    };
    let chosen = Chosen {
        conversation,
        name: name.copy(),
        permits,
    };
    Ok((chosen, last))
}

/// Selects the mailbox, whatever was selected before, and gives the whole reply.
pub fn select<L: Link>(
    conversation: Conversation,
    link: &mut L,
    name: &BoxName,
    since: Option<Mark>,
) -> Result<(Chosen, Replies), SessionFault>
    requires room { conversation.count + 1 < 4294967295 }
    requires follows { L.tells_files → Follows (L.link link.old).connection conversation.feed }
    requires stands { L.tells_server → (selected : Option (List ℕ)) × Stands selected (L.clock link.old)
        (L.link link.old).connection conversation.feed }
    ensures talks { Talks L.Clocked (tags.Count (conversation.count + 1)) (commands.Select name.now since)
        link.old link.new result }
    ensures replied { IfOk result (λ p. HasReply L.Clocked (tags.Count (conversation.count + 1))
        (commands.Select name.now since) link.old link.new conversation.feed p.0.conversation.feed p.1) }
    ensures fails { FailsFor L.Clocked (tags.Count (conversation.count + 1)) (commands.Select name.now since)
        link.old link.new conversation.feed result }
    ensures stands { L.tells_server
        → IfOk result (λ p. Stands (Some name.now)
        (L.clock link.new) (L.link link.new).connection p.0.conversation.feed) }
    ensures still { L.tells_files
        → IfOk result (λ p. Follows (L.link link.new).connection p.0.conversation.feed) }
    ensures name { IfOk result (λ p. p.0.name ≡ name.now) }
    ensures counted { IfOk result (λ p. p.0.conversation.count ≡ conversation.count + 1) }
    ensures permits { IfOk result (λ p. p.0.permits ≡ permitted None p.1) }
{
    let mut gather = Gather::new(conversation.alloc);
    let answer = select_into(conversation, link, name, since, &mut gather)?;
    let (chosen, last) = answer;
    let replies = gather.replies(last);
    Ok((chosen, replies))
}
