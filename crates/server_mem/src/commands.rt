//! What each command comes to (RFC 9051, section 6; RFC 7162, section 3).

ghost use Rattle.std.specs.Prelude.{◌≡◌, ◌++◌, ◌∷◌, [], Some, None, IfOk, OnOk, true, filter, codes};
ghost use Rattle.imap_model.specs.Lawful.{broken_rule};
ghost use Rattle.imap_model.specs.PlainChanges.{with_change};
ghost use Rattle.imap_model.specs.CarriedOut.{only};
ghost use Rattle.imap_model.specs.PlainServer as plain;
ghost use Rattle.imap_model.specs.declared.code.Code.TheVariants as codings;
ghost use Rattle.server_mem.specs.States.{plain_at};
ghost use Rattle.server_mem.specs.Turns.{after, comes_to, is_general};
ghost use Rattle.mail_base.specs.declared.tag.Tag.{Tag};

use crate::MemServer;
use crate::changes::changed;
use crate::mem_server::deed_of;
use crate::replies::is_offered;
use crate::sets::set_of;
use crate::turn::{Made, Turn, accepted};
use imap_model::{Author, Change, Code, Command, Replies, Response};
use mail_base::{BoxName, Bytes, List, Tag, Validity, Words};
use std::alloc::AllocError;
use uid_sets::{Uid, UidSet};

/// A name once more, if there is one.
pub(crate) fn copied(name: &Option<BoxName>) -> Option<BoxName>
    ensures { result ≡ name.now }
{
    match name {
        None => None,
        Some(name) => Some(name.copy()),
    }
}

impl MemServer {
    /// Nothing changes.
    pub(crate) fn answered(&self, replies: Replies) -> Turn
        ensures { comes_to result self.now.server ≡ plain.answered self.now.selected self.now.server replies }
    {
        Turn {
            replies,
            made: None,
            selected: copied(&self.selected),
        }
    }

    /// What a change that breaks no rule makes.
    pub(crate) fn made(
        &self,
        author: Author,
        name: &BoxName,
        change: &Change,
    ) -> Result<Made, AllocError>
        requires { broken_rule self.now.server.boxes name.now change.now ≡ None }
        ensures { IfOk result (λ made. after (Some made) self.now.server ≡ with_change author name.now change.now self.now.server) }
    {
        let boxes = changed(self.alloc, self.server.boxes.as_slice(), name, change)?;
        let deed = deed_of(author, name, change, boxes.as_slice())?;
        Ok(Made { boxes, deed })
    }

    /// One response.
    pub(crate) fn one(&self, response: Response) -> Result<List<Response>, AllocError>
        ensures { IfOk result (λ told. told ≡ response ∷ []) }
    {
        let mut told = List::new(self.alloc);
        told.push(response)?;
        Ok(told)
    }

    /// The set of one UID.
    pub(crate) fn only(&self, uid: Uid) -> Result<UidSet, AllocError>
        ensures { IfOk result (λ set. set ≡ only uid) }
    {
        set_of(self.alloc, &[uid])
    }

    /// COPYUID of one message: its UID, and the new one under this UIDVALIDITY.
    pub(crate) fn copied_code(
        &self,
        validity: Validity,
        uid: Uid,
        new: Uid,
    ) -> Result<Code, AllocError>
        ensures { IfOk result (λ code. code ≡ codings.CopyUid validity (only uid) (only new)) }
    {
        Ok(Code::CopyUid {
            validity,
            source: self.only(uid)?,
            target: self.only(new)?,
        })
    }

    // What is offered, where anything is.
    fn offers_told(&self) -> Result<List<Response>, AllocError>
        ensures { IfOk result (λ told. told ≡ plain.offers_told self.now.choices.offers) }
    {
        let mut told = List::new(self.alloc);
        if !self.offers.as_slice().is_empty() {
            told.push(Response::Capability(self.offers.copy(self.alloc)?))?;
        }
        Ok(told)
    }

    // Adds a name that is offered.
    fn add_offered(&self, names: &mut Words, name: &[u8]) -> Result<(), AllocError>
        ensures { OnOk result (names.new ≡ names.old ++ filter (plain.is_offered self.now.choices.offers) (name.now ∷ [])) }
    {
        if is_offered(self.offers.as_slice(), name) {
            names.push(Bytes::of(name.to_vec(self.alloc)?))?;
        }
        Ok(())
    }

    // What was asked for and is offered.
    fn enabled_names(&self, rev2: bool) -> Result<Words, AllocError>
        ensures { IfOk result (λ names. names ≡ plain.enabled_names self.now.choices rev2) }
    {
        let mut names = Words::new(self.alloc);
        if rev2 {
            self.add_offered(&mut names, b"IMAP4rev2")?;
        }
        self.add_offered(&mut names, b"QRESYNC")?;
        Ok(names)
    }

    // The replies to the commands that no mailbox is asked for.
    fn general(&self, command: &Command) -> Result<Replies, AllocError>
        requires { is_general command.now ≡ true }
        ensures { IfOk result (λ replies. (tag : Tag) → plain_at self.now tag command.now ≡ plain.answered self.now.selected self.now.server replies) }
    {
        let told = match command {
            Command::Capability => self.offers_told()?,
            Command::Login { .. } | Command::Plain { .. } => List::new(self.alloc),
            Command::Enable { rev2 } => self.one(Response::Enabled(self.enabled_names(*rev2)?))?,
            Command::Logout => self.one(Response::Bye)?,
            _ => unreachable!(),
        };
        Ok(accepted(told, Code::None))
    }

    /// What a command comes to. Nothing changes yet.
    pub(crate) fn turn(&self, tag: Tag, command: &Command) -> Result<Turn, AllocError>
        ensures { IfOk result (λ turn. comes_to turn self.now.server ≡ plain_at self.now tag command.now) }
    {
        match command {
            Command::Capability
            | Command::Login { .. }
            | Command::Plain { .. }
            | Command::Enable { .. }
            | Command::Logout => {
                let replies = self.general(command)?;
                Ok(self.answered(replies))
            }
            Command::Select { name, since } => self.select(name, *since),
            Command::FetchAll
            | Command::FetchRow { .. }
            | Command::Search { .. }
            | Command::FetchIds { .. }
            | Command::FetchText { .. } => {
                let replies = self.question(command)?;
                Ok(self.answered(replies))
            }
            Command::Store {
                uid,
                since,
                add,
                flags,
            } => self.store(tag, *uid, *since, *add, flags),
            Command::Shift { uid, to } => self.shift(tag, *uid, to),
            Command::Copy { uid, to } => self.copy(tag, *uid, to),
            Command::Expunge { uid } => self.expunge(tag, *uid),
            Command::Append { to, flags, text } => self.append_to(tag, to, flags, text),
        }
    }
}
