//! The end of a session (RFC 9051, sections 6.1.3 and 7.1.5).

ghost use Rattle.std.specs.Prelude.{◌≡◌, ◌≢◌, ◌<◌, ◌+◌, [], ◌∷◌, ℕ, List, Option, Some, None, OnOk, IsErrOf, false, length};
ghost use Rattle.imap_model.specs.declared.command.Command.TheVariants as commands;
ghost use Rattle.imap_model.specs.declared.response.Response.{Response};
ghost use Rattle.imap_model.specs.declared.response.Response.TheVariants as responses;
ghost use Rattle.imap_session.specs.Dialogue.{next_tag};
ghost use Rattle.imap_session.specs.Faults.{IsCount, Unfit};
ghost use Rattle.imap_session.specs.Knowing.{IsEnd};
ghost use Rattle.imap_session.specs.Leaving.{IsFarewell, Leaves};
ghost use Rattle.imap_session.specs.Session.{Follows, Stands};
ghost use Rattle.imap_session.specs.Exchange.{Talks};
ghost use Rattle.imap_session.specs.declared.fault.SessionFault.{SessionFault};

use crate::asking::finish;
use crate::conversation::Conversation;
use crate::discard::Discard;
use crate::listening::{Line, listen};
use crate::most::MOST;
use crate::{Chosen, Ready, SessionFault};
use imap_command::write;
use imap_model::{Command, Response};
use literal_feed::Feed;
use mail_base::{Bytes, Tag};
use std::alloc::{AllocError, Global};
use world_traits::{Clocked, Link, LinkFailed};

impl Ready {
    /// Says LOGOUT and reads up to a BYE or the completion, whichever comes first. A BYE ends the session well, also where
    /// the server had said it before LOGOUT was sent.
    pub fn leave<L: Link>(self, link: &mut L) -> Result<(), SessionFault>
        requires room { self.conversation.count + 1 < 4294967295 }
        requires follows { L.tells_files
            → Follows (L.link link.old).connection self.conversation.feed }
        requires stands { L.tells_server
            → Stands None (L.clock link.old) (L.link link.old).connection self.conversation.feed }
        ensures talks { Talks L.Clocked (next_tag self.conversation.count) commands.Logout
            link.old link.new result }
        ensures leaves { Leaves L.Clocked (next_tag self.conversation.count)
            link.old link.new self.conversation.feed result }
    {
        let Ready {
            conversation: Conversation {
                alloc,
                mut feed,
                count,
            },
        } = self;
        log_out(alloc, &mut feed, link, count)
    }
}

impl Chosen {
    /// Says LOGOUT and reads up to a BYE or the completion, whichever comes first. A BYE ends the session well, also where
    /// the server had said it before LOGOUT was sent.
    pub fn leave<L: Link>(self, link: &mut L) -> Result<(), SessionFault>
        requires room { self.conversation.count + 1 < 4294967295 }
        requires follows { L.tells_files
            → Follows (L.link link.old).connection self.conversation.feed }
        requires stands { L.tells_server
            → Stands (Some self.name) (L.clock link.old)
            (L.link link.old).connection self.conversation.feed }
        ensures talks { Talks L.Clocked (next_tag self.conversation.count) commands.Logout
            link.old link.new result }
        ensures leaves { Leaves L.Clocked (next_tag self.conversation.count)
            link.old link.new self.conversation.feed result }
    {
        let Chosen {
            conversation: Conversation {
                alloc,
                mut feed,
                count,
            },
            ..
        } = self;
        log_out(alloc, &mut feed, link, count)
    }
}

// Says LOGOUT, and reads the farewell.
fn log_out<L: Link>(
    alloc: Global,
    feed: &mut Feed,
    link: &mut L,
    count: u32,
) -> Result<(), SessionFault>
    requires room { count + 1 < 4294967295 }
    requires follows { L.tells_files → Follows (L.link link.old).connection feed.old }
    requires stands { L.tells_server → (selected : Option (List ℕ))
        × Stands selected (L.clock link.old) (L.link link.old).connection feed.old }
    ensures talks { Talks L.Clocked (next_tag count) commands.Logout link.old link.new result }
    ensures leaves { Leaves L.Clocked (next_tag count) link.old link.new feed.old result }
{
    let tag = Tag::Count(count + 1);
    let parts = write(alloc, tag, &Command::Logout)?;
    link.send(only_part(parts.as_slice()))?;
    let mut left = u64::from(MOST);
    let mut discard = Discard;
    let mut permits = None;
    let line = listen(
        alloc,
        feed,
        MOST,
        &mut left,
        link,
        &mut discard,
        &mut permits,
        false,
    )?;
    farewell(line, tag)
}

fn only_part(parts: &[Bytes]) -> &[u8]
    requires { length parts.now ≡ 1 }
    ensures { parts.now ≡ result.now ∷ [] }
{
    parts[0].as_slice()
}

// Whether the last line ends the session well.
fn farewell(line: Line, tag: Tag) -> Result<(), SessionFault>
    requires ended { IsEnd false line.response }
    requires counted { IsCount tag }
    ensures farewell { OnOk result (IsFarewell tag line.response) }
    ensures why { (fault : SessionFault) → IsErrOf result fault
        → Unfit tag ⊥ line.frame line.response fault × (line.response ≢ responses.Bye) }
{
    if let Response::Bye = line.response {
        return Ok(());
    }
    finish(line, tag, false)?;
    Ok(())
}
