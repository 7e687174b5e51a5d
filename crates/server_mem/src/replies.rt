//! The replies of the server, and what each command comes to (RFC 9051, section 6).

ghost use Rattle.std.specs.Prelude.{◌≡◌, ◌++◌, ◌∷◌, [], Some, None, IfOk, IfSome, IfNone, OnOk, true, false, length, filter, codes};
ghost use Rattle.imap_model.specs.Lookups.{box_at};
ghost use Rattle.imap_model.specs.PlainServer as plain;
ghost use Rattle.imap_model.specs.Remarks.{selected_box};
ghost use Rattle.imap_model.specs.declared.command.Command.TheVariants as commands;
ghost use Rattle.imap_model.specs.declared.server.Server.{Server};
ghost use Rattle.mail_base.specs.declared.tag.Tag.{Tag};
ghost use Rattle.server_mem.specs.States.{plain_at};
ghost use Rattle.server_mem.specs.Turns.{comes_to, reply_of, is_question};

use crate::MemServer;
use crate::lookups::box_of;
use crate::questions::{found, ids_in, row_if, text_if};
use crate::rows::all_rows;
use crate::turn::{accepted, denied};
use imap_model::{Code, Command, Ending, Mailbox, Replies, Response};
use mail_base::Bytes;
use std::alloc::{AllocError, Global};

/// An untagged OK with a code.
pub fn coded(code: Code) -> Response
    ensures { result ≡ plain.coded code }
{
    Response::Untagged {
        ending: Ending::Ok,
        code,
    }
}

impl MemServer {
    /// Whether IMAP4rev2 is offered.
    pub(crate) fn has_rev2(&self) -> bool
        ensures { result ≡ plain.has_rev2 self.now.choices }
    {
        is_offered(self.offers.as_slice(), b"IMAP4rev2")
    }

    // The code of a UID FETCH.
    fn fetch_code(&self, mailbox: &Mailbox) -> Code
        ensures { result ≡ plain.fetch_code self.now.choices mailbox.now }
    {
        if self.has_rev2() {
            Code::None
        } else {
            Code::HighestModSeq(mailbox.highest)
        }
    }

    // The answer to a question about a mailbox.
    fn reply_of(&self, mailbox: &Mailbox, command: &Command) -> Result<Replies, AllocError>
        requires { is_question command.now ≡ true }
        ensures { IfOk result (λ replies. replies ≡ reply_of self.now.choices mailbox.now command.now) }
    {
        let messages = mailbox.messages.as_slice();
        match command {
            Command::FetchAll => {
                let rows = all_rows(self.alloc, messages)?;
                Ok(accepted(rows, self.fetch_code(mailbox)))
            }
            Command::FetchRow { uid } => {
                let rows = row_if(self.alloc, messages, *uid)?;
                Ok(accepted(rows, self.fetch_code(mailbox)))
            }
            Command::Search { from, id } => {
                let told = found(self.alloc, *from, id, messages)?;
                Ok(accepted(told, Code::None))
            }
            Command::FetchIds { uids } => {
                let ids = ids_in(self.alloc, uids, messages)?;
                Ok(accepted(ids, self.fetch_code(mailbox)))
            }
            Command::FetchText { uid } => {
                let rows = text_if(self.alloc, messages, *uid)?;
                Ok(accepted(rows, self.fetch_code(mailbox)))
            }
            _ => unreachable!(),
        }
    }

    // The mailbox that is selected.
    pub(crate) fn selected_box(&self) -> Option<&Mailbox>
        ensures none { IfNone result (selected_box self.now.selected self.now.server.boxes ≡ None) }
        ensures some { IfSome result (λ mailbox. selected_box self.now.selected self.now.server.boxes ≡ Some mailbox.now) }
    {
        match &self.selected {
            None => None,
            Some(name) => match box_of(self.server.boxes.as_slice(), name) {
                None => None,
                Some((_, mailbox)) => Some(mailbox),
            },
        }
    }

    /// The answer to a question.
    pub(crate) fn question(&self, command: &Command) -> Result<Replies, AllocError>
        requires { is_question command.now ≡ true }
        ensures { IfOk result (λ replies. (tag : Tag) → plain_at self.now tag command.now ≡ plain.answered self.now.selected self.now.server replies) }
    {
        match self.selected_box() {
            None => Ok(denied(self.alloc, Code::Other)),
            Some(mailbox) => {
                let replies = self.reply_of(mailbox, command)?;
                Ok(replies)
            }
        }
    }
}

/// Whether a name is among words, in any case.
pub fn is_offered(words: &[Bytes], name: &[u8]) -> bool
    ensures { result ≡ plain.is_offered words.now name.now }
{
    words
        .iter()
        .any(|word| word.as_slice().eq_ignore_ascii_case(name))
}
