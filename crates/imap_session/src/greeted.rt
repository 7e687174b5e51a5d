//! A connection whose greeting was read (RFC 9051, sections 3.1 and 3.2).

ghost use Rattle.std.specs.Prelude.{◌≡◌, ◌≤◌, ◌<◌, ◌+◌, None, IfOk};
ghost use Rattle.imap_session.specs.Conversing.{Concludes, Converses};
ghost use Rattle.imap_session.specs.Dialogue.{next_tag};
ghost use Rattle.imap_session.specs.LogIn.{SwitchedOn, enabling, entering};
ghost use Rattle.imap_session.specs.Session.{Follows, Stands};
ghost use Rattle.imap_session.specs.declared.fault.SessionFault.{SessionFault};

use crate::conversation::Conversation;
use crate::login::{ask_enabled, ask_offer, check_enabled, check_offer, log_in};
use crate::{Ready, SessionFault};
use mail_base::Account;
use world_traits::{Clocked, Link};

/// A connection whose greeting was read. The user is known where the greeting was PREAUTH, or once `authenticate` was
/// called.
#[derive(Drop)]
pub struct Greeted {
    pub(crate) conversation: Conversation,
    // The greeting was PREAUTH: no login is due.
    pub(crate) preauth: bool,
    // The last CAPABILITY that was told offers IMAP4rev2.
    pub(crate) rev2: bool,
}

impl Greeted {
    /// Logs the user in, unless the greeting was PREAUTH: by AUTHENTICATE PLAIN where it is offered, else by LOGIN unless
    /// LOGINDISABLED was told. Then checks that the server offers what this client needs: QRESYNC, and IMAP4rev2 or both
    /// UIDPLUS and MOVE (RFC 9051, sections 6.1.1, 6.2.2 and 6.2.3).
    ///
    /// `Lacking` names a way to log in, or the first of these that is missing. `Refused` where a BYE came, or NO or BAD: its
    /// line. `BadReply` where what came is no reply: the place in bytes of the connection. `TooLarge` where a limit is
    /// passed, `Link` where the link failed, and `Memory`. After a fault the connection isn't used again.
    pub fn authenticate<L: Link>(
        self,
        link: &mut L,
        account: &Account,
    ) -> Result<Greeted, SessionFault>
        requires room { self.conversation.count + 3 < 4294967295 }
        requires follows { L.tells_files
            → Follows (L.link link.old).connection self.conversation.feed }
        requires stands { L.tells_server
            → Stands None (L.clock link.old) (L.link link.old).connection self.conversation.feed }
        ensures converses { Converses L.Clocked (entering self.preauth account.now) self.conversation.count
            link.old link.new self.conversation.feed result }
        ensures concludes { IfOk result (λ s. Concludes L.Clocked (entering self.preauth account.now)
            self.conversation.count link.old link.new self.conversation.feed s.conversation.feed
            (record { count = s.conversation.count; rev2 = s.rev2 })) }
        ensures still { L.tells_files
            → IfOk result (λ s. Follows (L.link link.new).connection s.conversation.feed) }
        ensures preauth { IfOk result (λ s. s.preauth ≡ self.preauth) }
        ensures counted { IfOk result (λ s. s.conversation.count ≤ self.conversation.count + 3) }
    {
        let Greeted {
            conversation: Conversation {
                alloc,
                mut feed,
                count,
            },
            preauth,
            ..
        } = self;
        let offer = ask_offer(alloc, &mut feed, link, count)?;
        if preauth {
            let rev2 = check_offer(alloc, &mut feed, link, count + 1)?;
            let conversation = Conversation {
                alloc,
                feed,
                count: count + 2,
            };
            return Ok(Greeted {
                conversation,
                preauth,
                rev2,
            });
        }
        let rev2 = log_in(alloc, &mut feed, link, count + 1, account, offer)?;
        let conversation = Conversation {
            alloc,
            feed,
            count: count + 3,
        };
        Ok(Greeted {
            conversation,
            preauth,
            rev2,
        })
    }

    /// Enables QRESYNC, with IMAP4rev2 where that was offered (RFC 9051, section 6.3.1; RFC 7162, section 3.2.3).
    ///
    /// `Lacking` where ENABLED doesn't name QRESYNC. The other faults are those of `authenticate`.
    pub fn enable<L: Link>(self, link: &mut L) -> Result<Ready, SessionFault>
        requires room { self.conversation.count + 1 < 4294967295 }
        requires follows { L.tells_files
            → Follows (L.link link.old).connection self.conversation.feed }
        requires stands { L.tells_server
            → Stands None (L.clock link.old) (L.link link.old).connection self.conversation.feed }
        ensures converses { Converses L.Clocked (enabling self.rev2) self.conversation.count
            link.old link.new self.conversation.feed result }
        ensures concludes { IfOk result (λ s. Concludes L.Clocked (enabling self.rev2)
            self.conversation.count link.old link.new self.conversation.feed s.conversation.feed
            (record { count = s.conversation.count; rev2 = self.rev2 })) }
        ensures enabled { L.tells_server
            → IfOk result (λ s. SwitchedOn self.rev2 (next_tag self.conversation.count)
            (L.clock link.old) (L.clock link.new) (L.link link.new).connection s.conversation.feed) }
        ensures still { L.tells_files
            → IfOk result (λ s. Follows (L.link link.new).connection s.conversation.feed) }
        ensures counted { IfOk result (λ s. s.conversation.count ≡ self.conversation.count + 1) }
    {
        let Greeted {
            conversation: Conversation {
                alloc,
                mut feed,
                count,
            },
            rev2,
            ..
        } = self;
        let enabled = ask_enabled(alloc, &mut feed, link, count, rev2)?;
        check_enabled(enabled)?;
        let conversation = Conversation {
            alloc,
            feed,
            count: count + 1,
        };
        Ok(Ready { conversation })
    }
}
