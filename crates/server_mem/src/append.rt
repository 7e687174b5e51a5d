//! APPEND (RFC 9051, section 6.3.12; RFC 4315, section 3).

ghost use Rattle.std.specs.Prelude.{◌≡◌, [], IfOk};
ghost use Rattle.imap_model.specs.Changes.{receiver};
ghost use Rattle.imap_model.specs.Lookups.{box_at, validity_of};
ghost use Rattle.imap_model.specs.PlainServer as plain;
ghost use Rattle.imap_model.specs.declared.code.Code.TheVariants as codings;
ghost use Rattle.imap_model.specs.declared.command.Command.TheVariants as commands;
ghost use Rattle.server_mem.specs.States.{plain_at};
ghost use Rattle.server_mem.specs.Turns.{comes_to};

use crate::MemServer;
use crate::commands::copied;
use crate::lookups::box_of;
use crate::mem_server::validity_of;
use crate::rules::broken_rule;
use crate::turn::{Turn, accepted, denied};
use flag_set::FlagSet;
use imap_model::{Author, Change, Code};
use mail_base::{BoxName, Bytes, List, Tag};
use std::alloc::AllocError;
use uid_sets::Uid;

impl MemServer {
    // Whether nothing is appended to a mailbox.
    pub(crate) fn is_closed(&self, name: &BoxName) -> bool
        ensures { result ≡ plain.is_closed self.now.choices.closed name.now }
    {
        match &self.closed {
            None => false,
            Some(closed) => *closed == *name,
        }
    }

    /// APPEND.
    pub(crate) fn append_to(
        &self,
        tag: Tag,
        to: &BoxName,
        flags: &FlagSet,
        text: &Bytes,
    ) -> Result<Turn, AllocError>
        ensures { IfOk result (λ turn. comes_to turn self.now.server ≡ plain_at self.now tag (commands.Append to.now flags.now text.now)) }
    {
        if self.is_closed(to) {
            return Ok(self.answered(denied(self.alloc, Code::Other)));
        }
        let Some((_, mailbox)) = box_of(self.server.boxes.as_slice(), to) else {
            return Ok(self.answered(denied(self.alloc, Code::Other)));
        };
        let uid = mailbox.uidnext;
        let change = Change::Add {
            flags: flags.copy()?,
            text: text.copy()?,
            uid,
        };
        let turn = self.appended(tag, to, uid, &change)?;
        Ok(turn)
    }

    // APPEND to a mailbox that is there.
    fn appended(
        &self,
        tag: Tag,
        to: &BoxName,
        uid: Uid,
        change: &Change,
    ) -> Result<Turn, AllocError>
        requires { receiver to.now change.now ≡ to.now }
        ensures { IfOk result (λ turn. comes_to turn self.now.server ≡ plain.change_turn self.now.selected tag to.now change.now self.now.server
            (λ t. plain.accepted [] (codings.AppendUid (validity_of (box_at to.now t.boxes)) uid))) }
    {
        if broken_rule(self.server.boxes.as_slice(), to, change).is_some() {
            return Ok(self.answered(denied(self.alloc, Code::Other)));
        }
        let made = self.made(Author::Ours(tag), to, change)?;
        let code = Code::AppendUid {
            validity: validity_of(made.boxes.as_slice(), to),
            uid,
        };
        Ok(Turn {
            replies: accepted(List::new(self.alloc), code),
            made: Some(made),
            selected: copied(&self.selected),
        })
    }
}
