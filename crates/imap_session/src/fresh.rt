//! A connection that was just made (RFC 9051, sections 3 and 7.1).

ghost use Rattle.std.specs.Prelude.{◌≡◌, ℕ, [], ◌∷◌, None, IfOk, OnOk, OnErr, IsErrOf};
ghost use Rattle.imap_model.specs.Talking.{Connecting};
ghost use Rattle.world_traits.specs.Connected.{IsGreeted, WasConnected};
ghost use Rattle.world_traits.specs.Links.{Linked, AnyStep};
ghost use Rattle.imap_session.specs.Blame.{Blames};
ghost use Rattle.imap_session.specs.Faults.{NoHello};
ghost use Rattle.imap_session.specs.Greeting.{Greets, IsBegun};
ghost use Rattle.imap_session.specs.Most.{most_before};
ghost use Rattle.imap_session.specs.Receiving.{Receives};
ghost use Rattle.imap_session.specs.Replying.{ReceivedWithin};
ghost use Rattle.imap_session.specs.Session.{Follows, IsFresh, Stands};
ghost use Rattle.imap_session.specs.declared.fault.SessionFault.{SessionFault};
ghost use Rattle.imap_session.specs.declared.fault.SessionFault.TheVariants as faults;

use crate::conversation::Conversation;
use crate::greeting::{hello, is_preauth};
use crate::listening::next;
use crate::most::MOST_BEFORE;
use crate::{Greeted, SessionFault};
use literal_feed::Feed;
use std::alloc::Global;
use world_traits::{Clocked, Link, LinkFailed};

/// A connection whose greeting wasn't read yet.
#[derive(Drop)]
pub struct Fresh {
    pub(crate) conversation: Conversation,
}

impl Fresh {
    /// Makes a new connection. What was sent up to now stands in front of what was sent earlier; after a fault both are as they
    /// were.
    pub fn connect<L: Link>(alloc: Global, link: &mut L) -> Result<Fresh, SessionFault>
        ensures files { L.tells_files → Linked AnyStep (L.clock link.old) (L.clock link.new) }
        ensures told { L.tells_server → Linked Connecting (L.clock link.old) (L.clock link.new) }
        ensures fresh { L.tells_files
            → IfOk result (λ s. IsFresh (L.link link.new) s.conversation.feed) }
        ensures anew { L.tells_server
            → OnOk result (WasConnected (L.clock link.old) (L.clock link.new)) }
        ensures greeted { L.tells_server → OnOk result (IsGreeted (L.clock link.new).now.outside) }
        ensures counted { IfOk result (λ s. s.conversation.count ≡ 0) }
        ensures sent { L.tells_files → OnOk result ((L.link link.new).sent ≡ []) }
        ensures unsent { L.tells_files
            → OnErr result ((L.link link.new).sent ≡ (L.link link.old).sent) }
        ensures earlier { L.tells_files → OnOk result
            ((L.link link.new).earlier ≡ (L.link link.old).sent ∷ (L.link link.old).earlier) }
        ensures unmade { L.tells_files
            → OnErr result ((L.link link.new).earlier ≡ (L.link link.old).earlier) }
        ensures only { (fault : SessionFault) → IsErrOf result fault → fault ≡ faults.Link }
        ensures blames { Blames L.Clocked link.old link.new result }
    {
        link.connect()?;
        let conversation = Conversation {
            alloc,
            feed: Feed::new(alloc),
            count: 0,
        };
        Ok(Fresh { conversation })
    }

    /// Reads the greeting: OK, or PREAUTH where the user is logged in already. BYE is `Refused`, and any other line is
    /// `BadReply` (RFC 9051, sections 7.1.1, 7.1.4 and 7.1.5).
    pub fn greet<L: Link>(self, link: &mut L) -> Result<Greeted, SessionFault>
        requires fresh { L.tells_files → IsFresh (L.link link.old) self.conversation.feed }
        requires greeted { L.tells_server → IsGreeted (L.clock link.old).now.outside }
        ensures receives { Receives L.Clocked link.old link.new result }
        ensures within { L.tells_files
            → OnOk result (ReceivedWithin most_before [] (L.link link.new).connection) }
        ensures begun { L.tells_server
            → IfOk result (λ s. IsBegun s.preauth (L.clock link.new).now.outside) }
        ensures greeting { L.tells_files
            → IfOk result (λ s. Greets s.preauth (L.link link.new).connection s.conversation.feed) }
        ensures stands { L.tells_server
            → IfOk result (λ s. Stands None (L.clock link.new)
            (L.link link.new).connection s.conversation.feed) }
        ensures still { L.tells_files
            → IfOk result (λ s. Follows (L.link link.new).connection s.conversation.feed) }
        ensures counted { IfOk result (λ s. s.conversation.count ≡ self.conversation.count) }
        ensures why { L.tells_files → (fault : SessionFault) → IsErrOf result fault
            → NoHello (L.link link.new).connection fault }
        ensures honest { L.tells_server → (at : ℕ) → IsErrOf result (faults.BadReply at) → ⊥ }
    {
        let Fresh {
            conversation: Conversation {
                alloc,
                mut feed,
                count,
            },
        } = self;
        let mut left = u64::from(MOST_BEFORE);
        let line = next(alloc, &mut feed, MOST_BEFORE, &mut left, link)?;
        let greeting = hello(line)?;
        let conversation = Conversation { alloc, feed, count };
        Ok(Greeted {
            conversation,
            preauth: is_preauth(&greeting),
            rev2: false,
        })
    }
}
