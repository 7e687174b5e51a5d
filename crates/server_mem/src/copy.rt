//! COPY (RFC 9051, section 6.4.7; RFC 4315, section 3).

ghost use Rattle.std.specs.Prelude.{◌≡◌, [], IfOk};
ghost use Rattle.imap_model.specs.Changes.{receiver};
ghost use Rattle.imap_model.specs.PlainServer as plain;
ghost use Rattle.server_mem.specs.Turns.{comes_to};

use crate::MemServer;
use crate::commands::copied;
use crate::lookups::{box_of, message_of};
use crate::mem_server::validity_of;
use crate::rules::broken_rule;
use crate::turn::{Turn, accepted, denied};
use imap_model::{Author, Change, Code};
use mail_base::{BoxName, List, Tag};
use std::alloc::AllocError;
use uid_sets::Uid;

impl MemServer {
    /// COPY.
    pub(crate) fn copy(&self, tag: Tag, uid: Uid, to: &BoxName) -> Result<Turn, AllocError>
        ensures { IfOk result (λ turn. comes_to turn self.now.server ≡ plain.copy_turn self.now.selected tag uid to.now self.now.server) }
    {
        let Some(name) = &self.selected else {
            return Ok(self.answered(denied(self.alloc, Code::Other)));
        };
        let Some((_, mailbox)) = box_of(self.server.boxes.as_slice(), name) else {
            return Ok(self.answered(denied(self.alloc, Code::Other)));
        };
        let Some((_, target)) = box_of(self.server.boxes.as_slice(), to) else {
            return Ok(self.answered(denied(self.alloc, Code::Other)));
        };
        let Some((_, message)) = message_of(mailbox.messages.as_slice(), uid) else {
            return Ok(self.answered(accepted(List::new(self.alloc), Code::None)));
        };
        let new = target.uidnext;
        let change = Change::Add {
            flags: message.flags.copy()?,
            text: message.text.copy()?,
            uid: new,
        };
        let turn = self.added(tag, uid, to, new, &change)?;
        Ok(turn)
    }

    // COPY of a message that is there, which comes under this UID.
    fn added(
        &self,
        tag: Tag,
        uid: Uid,
        to: &BoxName,
        new: Uid,
        change: &Change,
    ) -> Result<Turn, AllocError>
        requires { receiver to.now change.now ≡ to.now }
        ensures { IfOk result (λ turn. comes_to turn self.now.server ≡ plain.change_turn self.now.selected tag to.now change.now self.now.server
            (λ t. plain.accepted [] (plain.copied_code uid to.now new t))) }
    {
        if broken_rule(self.server.boxes.as_slice(), to, change).is_some() {
            return Ok(self.answered(denied(self.alloc, Code::Other)));
        }
        let made = self.made(Author::Ours(tag), to, change)?;
        let validity = validity_of(made.boxes.as_slice(), to);
        let code = self.copied_code(validity, uid, new)?;
        Ok(Turn {
            replies: accepted(List::new(self.alloc), code),
            made: Some(made),
            selected: copied(&self.selected),
        })
    }
}
