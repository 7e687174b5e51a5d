//! EXPUNGE of one message (RFC 9051, section 6.4.9; RFC 4315, section 2.1; RFC 7162, section 3.2.10).

ghost use Rattle.std.specs.Prelude.{◌≡◌, ◌∷◌, [], IfOk, false};
ghost use Rattle.flag_set.specs.FlagSet.{has};
ghost use Rattle.imap_model.specs.CarriedOut.{only};
ghost use Rattle.imap_model.specs.Carrying.{deleted};
ghost use Rattle.imap_model.specs.PlainServer as plain;
ghost use Rattle.imap_model.specs.declared.code.Code.TheVariants as codings;
ghost use Rattle.imap_model.specs.declared.deed.Change.TheVariants as changes;
ghost use Rattle.imap_model.specs.declared.response.Response.TheVariants as responses;
ghost use Rattle.server_mem.specs.Turns.{comes_to};

use crate::MemServer;
use crate::commands::copied;
use crate::lookups::{box_of, message_of};
use crate::rules::broken_rule;
use crate::turn::{Turn, accepted, denied};
use flag_set::{FlagKey, FlagSet};
use imap_model::{Author, Change, Code, Response};
use mail_base::{BoxName, List, Tag};
use std::alloc::{AllocError, Global};
use uid_sets::Uid;

// The flag of a message that an EXPUNGE takes away.
fn deleted(alloc: Global) -> Result<FlagKey, AllocError>
    ensures { IfOk result (λ key. key ≡ deleted) }
{
    match FlagKey::new(alloc, b"\\Deleted") {
        Ok(key) => Ok(key),
        Err(_) => Err(AllocError),
    }
}

// Whether a message has that flag.
fn is_deleted(alloc: Global, flags: &FlagSet) -> Result<bool, AllocError>
    ensures { IfOk result (λ is. is ≡ has flags.now deleted) }
{
    let key = deleted(alloc)?;
    Ok(flags.holds(&key))
}

impl MemServer {
    /// EXPUNGE.
    pub(crate) fn expunge(&self, tag: Tag, uid: Uid) -> Result<Turn, AllocError>
        ensures { IfOk result (λ turn. comes_to turn self.now.server ≡ plain.expunge_turn self.now.selected tag uid self.now.server) }
    {
        let Some(name) = &self.selected else {
            return Ok(self.answered(denied(self.alloc, Code::Other)));
        };
        let Some((_, mailbox)) = box_of(self.server.boxes.as_slice(), name) else {
            return Ok(self.answered(denied(self.alloc, Code::Other)));
        };
        let Some((_, message)) = message_of(mailbox.messages.as_slice(), uid) else {
            return Ok(self.answered(accepted(List::new(self.alloc), Code::None)));
        };
        if !is_deleted(self.alloc, &message.flags)? {
            return Ok(self.answered(accepted(List::new(self.alloc), Code::None)));
        }
        let turn = self.expunged(tag, name, uid)?;
        Ok(turn)
    }

    // EXPUNGE of a message that has the flag.
    fn expunged(&self, tag: Tag, name: &BoxName, uid: Uid) -> Result<Turn, AllocError>
        ensures { IfOk result (λ turn. comes_to turn self.now.server ≡ plain.change_turn self.now.selected tag name.now (changes.Drop uid) self.now.server
            (λ t. plain.accepted (responses.Vanished false (only uid) ∷ []) codings.None)) }
    {
        let change = Change::Drop { uid };
        if broken_rule(self.server.boxes.as_slice(), name, &change).is_some() {
            return Ok(self.answered(denied(self.alloc, Code::Other)));
        }
        let made = self.made(Author::Ours(tag), name, &change)?;
        let told = self.one(Response::Vanished {
            earlier: false,
            uids: self.only(uid)?,
        })?;
        Ok(Turn {
            replies: accepted(told, Code::None),
            made: Some(made),
            selected: copied(&self.selected),
        })
    }
}
