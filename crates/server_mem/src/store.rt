//! STORE (RFC 9051, section 6.4.6; RFC 7162, section 3.1.3).

ghost use Rattle.std.specs.Prelude.{◌≡◌, IfOk};
ghost use Rattle.imap_model.specs.Lookups.{box_at};
ghost use Rattle.imap_model.specs.PlainServer as plain;
ghost use Rattle.imap_model.specs.declared.code.Code.TheVariants as codings;
ghost use Rattle.server_mem.specs.Turns.{comes_to};

use crate::MemServer;
use crate::commands::copied;
use crate::lookups::{box_of, message_of};
use crate::questions::row_if;
use crate::rules::broken_rule;
use crate::turn::{Turn, accepted, denied};
use flag_set::FlagSet;
use imap_model::{Author, Change, Code, Mailbox, Response};
use mail_base::{BoxName, List, ModSeq, Tag};
use std::alloc::{AllocError, Global};
use uid_sets::Uid;

impl MemServer {
    /// STORE.
    pub(crate) fn store(
        &self,
        tag: Tag,
        uid: Uid,
        since: ModSeq,
        add: bool,
        asked: &FlagSet,
    ) -> Result<Turn, AllocError>
        ensures { IfOk result (λ turn. comes_to turn self.now.server ≡ plain.store_turn self.now.selected tag uid since add asked.now self.now.server) }
    {
        let Some(name) = &self.selected else {
            return Ok(self.answered(denied(self.alloc, Code::Other)));
        };
        let Some((_, mailbox)) = box_of(self.server.boxes.as_slice(), name) else {
            return Ok(self.answered(denied(self.alloc, Code::Other)));
        };
        let Some((_, message)) = message_of(mailbox.messages.as_slice(), uid) else {
            return Ok(self.answered(accepted(List::new(self.alloc), Code::None)));
        };
        if since.number() < message.modseq.number() {
            let modified = Code::Modified(self.only(uid)?);
            return Ok(self.answered(denied(self.alloc, modified)));
        }
        let flags = stored_flags(add, asked, &message.flags)?;
        let turn = self.stored(tag, name, uid, &Change::SetFlags { uid, flags })?;
        Ok(turn)
    }

    // STORE of other flags.
    fn stored(
        &self,
        tag: Tag,
        name: &BoxName,
        uid: Uid,
        change: &Change,
    ) -> Result<Turn, AllocError>
        ensures { IfOk result (λ turn. comes_to turn self.now.server ≡ plain.change_turn self.now.selected tag name.now change.now self.now.server
            (λ t. plain.accepted (plain.row_in uid (box_at name.now t.boxes)) codings.None)) }
    {
        if broken_rule(self.server.boxes.as_slice(), name, change).is_some() {
            return Ok(self.answered(denied(self.alloc, Code::Other)));
        }
        let made = self.made(Author::Ours(tag), name, change)?;
        let rows = row_in(self.alloc, made.boxes.as_slice(), name, uid)?;
        Ok(Turn {
            replies: accepted(rows, Code::None),
            made: Some(made),
            selected: copied(&self.selected),
        })
    }
}

// The row of a UID in the mailbox of a name, where it is there.
fn row_in(
    alloc: Global,
    boxes: &[Mailbox],
    name: &BoxName,
    uid: Uid,
) -> Result<List<Response>, AllocError>
    ensures { IfOk result (λ rows. rows ≡ plain.row_in uid (box_at name.now boxes.now)) }
{
    match box_of(boxes, name) {
        None => Ok(List::new(alloc)),
        Some((_, mailbox)) => row_if(alloc, mailbox.messages.as_slice(), uid),
    }
}

// A message's flags with, or without, those that are asked for.
fn stored_flags(add: bool, asked: &FlagSet, old: &FlagSet) -> Result<FlagSet, AllocError>
    ensures { IfOk result (λ flags. flags ≡ plain.stored_flags add asked.now old.now) }
{
    if add {
        old.with(asked)
    } else {
        old.without(asked)
    }
}
