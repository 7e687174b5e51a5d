//! MOVE (RFC 9051, section 6.4.8; RFC 4315, section 3).

ghost use Rattle.std.specs.Prelude.{◌≡◌, ◌∷◌, [], IfOk, false};
ghost use Rattle.imap_model.specs.CarriedOut.{only};
ghost use Rattle.imap_model.specs.PlainServer as plain;
ghost use Rattle.imap_model.specs.declared.code.Code.TheVariants as codings;
ghost use Rattle.imap_model.specs.declared.deed.Change.TheVariants as changes;
ghost use Rattle.imap_model.specs.declared.response.Response.TheVariants as responses;
ghost use Rattle.server_mem.specs.Turns.{comes_to};

use crate::MemServer;
use crate::commands::copied;
use crate::lookups::{box_of, message_of};
use crate::mem_server::validity_of;
use crate::replies::coded;
use crate::rules::broken_rule;
use crate::turn::{Turn, accepted, denied};
use imap_model::{Author, Change, Code, Response};
use mail_base::{BoxName, List, Tag, Validity};
use std::alloc::AllocError;
use uid_sets::Uid;

impl MemServer {
    /// MOVE.
    pub(crate) fn shift(&self, tag: Tag, uid: Uid, to: &BoxName) -> Result<Turn, AllocError>
        ensures { IfOk result (λ turn. comes_to turn self.now.server ≡ plain.move_turn self.now.selected tag uid to.now self.now.server) }
    {
        let Some(name) = &self.selected else {
            return Ok(self.answered(denied(self.alloc, Code::Other)));
        };
        let Some((_, mailbox)) = box_of(self.server.boxes.as_slice(), name) else {
            return Ok(self.answered(denied(self.alloc, Code::Other)));
        };
        let Some((_, target)) = box_of(self.server.boxes.as_slice(), to) else {
            return Ok(self.answered(denied(self.alloc, Code::Other)));
        };
        if message_of(mailbox.messages.as_slice(), uid).is_none() {
            return Ok(self.answered(accepted(List::new(self.alloc), Code::None)));
        }
        let turn = self.shifted(tag, name, uid, to, target.uidnext)?;
        Ok(turn)
    }

    // MOVE of a message that is there.
    fn shifted(
        &self,
        tag: Tag,
        name: &BoxName,
        uid: Uid,
        to: &BoxName,
        new: Uid,
    ) -> Result<Turn, AllocError>
        ensures { IfOk result (λ turn. comes_to turn self.now.server ≡ plain.change_turn self.now.selected tag name.now (changes.Shift uid to.now new) self.now.server
            (λ t. plain.accepted (plain.coded (plain.copied_code uid to.now new t) ∷ responses.Vanished false (only uid) ∷ []) codings.None)) }
    {
        let change = Change::Shift {
            uid,
            to: to.copy(),
            new,
        };
        if broken_rule(self.server.boxes.as_slice(), name, &change).is_some() {
            return Ok(self.answered(denied(self.alloc, Code::Other)));
        }
        let made = self.made(Author::Ours(tag), name, &change)?;
        let validity = validity_of(made.boxes.as_slice(), to);
        let told = self.moved_told(validity, uid, new)?;
        Ok(Turn {
            replies: accepted(told, Code::None),
            made: Some(made),
            selected: copied(&self.selected),
        })
    }

    // What is told of a message that moved.
    fn moved_told(
        &self,
        validity: Validity,
        uid: Uid,
        new: Uid,
    ) -> Result<List<Response>, AllocError>
        ensures { IfOk result (λ told. told ≡ plain.coded (codings.CopyUid validity (only uid) (only new)) ∷ responses.Vanished false (only uid) ∷ []) }
    {
        let code = self.copied_code(validity, uid, new)?;
        let mut told = self.one(coded(code))?;
        told.push(Response::Vanished {
            earlier: false,
            uids: self.only(uid)?,
        })?;
        Ok(told)
    }
}
