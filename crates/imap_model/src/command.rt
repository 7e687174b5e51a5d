//! The commands that this client sends (RFC 9051, section 6; RFC 7162, sections 3.1.3 and 3.2.5; RFC 4315, section 2.1).

ghost use Rattle.std.specs.Prelude.{◌≡◌, ◌↔◌, IsTrue, IfOk};
ghost use Rattle.imap_model.specs.CommandText.{IsWritable};
ghost use Rattle.imap_model.specs.Mutating.{is_mutating};
ghost use Rattle.imap_model.specs.TagText.{IsCommandTag};

use crate::Mark;
use flag_set::FlagSet;
use mail_base::{Account, BoxName, Bytes, ModSeq, Tag};
use std::alloc::AllocError;
use uid_sets::{Uid, UidSet};

/// A command without its tag.
#[derive(Drop)]
pub enum Command {
    /// CAPABILITY: what the server offers.
    Capability,
    /// LOGIN: who the user is, in plain words.
    Login {
        account: Account,
    },
    /// AUTHENTICATE PLAIN: the same, as one base64 text.
    Plain {
        account: Account,
    },
    /// ENABLE QRESYNC, and IMAP4rev2 with it where `rev2` says so.
    Enable {
        rev2: bool,
    },
    /// SELECT, with what the cache knows since its mark, if it has one.
    Select {
        name: BoxName,
        since: Option<Mark>,
    },
    /// UID FETCH of each message's flags and mod-sequence.
    FetchAll,
    /// UID FETCH of one message's flags and mod-sequence.
    FetchRow {
        uid: Uid,
    },
    /// UID SEARCH for a Message-ID among the UIDs of at least `from`.
    Search {
        from: Uid,
        id: Bytes,
    },
    /// UID FETCH of the Message-ID fields.
    FetchIds {
        uids: UidSet,
    },
    /// UID FETCH of one message's whole text, which leaves its flags as they are.
    FetchText {
        uid: Uid,
    },
    /// UID STORE: the flags are added, or taken away, where the message's mod-sequence is at most `since`.
    Store {
        uid: Uid,
        since: ModSeq,
        add: bool,
        flags: FlagSet,
    },
    /// UID MOVE of one message.
    Shift {
        uid: Uid,
        to: BoxName,
    },
    /// UID COPY of one message.
    Copy {
        uid: Uid,
        to: BoxName,
    },
    /// UID EXPUNGE of one message: it goes where it has the flag `\Deleted`.
    Expunge {
        uid: Uid,
    },
    /// APPEND of one message.
    Append {
        to: BoxName,
        flags: FlagSet,
        text: Bytes,
    },
    /// LOGOUT.
    Logout,
}

impl Command {
    /// Whether the command changes a mailbox.
    pub fn is_mutating(&self) -> bool
        ensures { result ≡ is_mutating self.now }
    {
        matches!(
            self,
            Command::Store { .. }
                | Command::Shift { .. }
                | Command::Copy { .. }
                | Command::Expunge { .. }
                | Command::Append { .. }
        )
    }

    /// Whether the command can be sent under the tag: the tag is one of this client's with a number above 0, and what
    /// is searched for holds no NUL.
    pub fn is_writable(&self, tag: Tag) -> bool
        ensures { IsTrue result ↔ IsWritable tag self.now }
    {
        if !is_command_tag(tag) {
            return false;
        }
        match self {
            Command::Search { id, .. } => !id.as_slice().contains(&0),
            Command::Capability
            | Command::Login { .. }
            | Command::Plain { .. }
            | Command::Enable { .. }
            | Command::Select { .. }
            | Command::FetchAll
            | Command::FetchRow { .. }
            | Command::FetchIds { .. }
            | Command::FetchText { .. }
            | Command::Store { .. }
            | Command::Shift { .. }
            | Command::Copy { .. }
            | Command::Expunge { .. }
            | Command::Append { .. }
            | Command::Logout => true,
        }
    }

    /// The same command once more, or want of memory.
    pub fn copy(&self) -> Result<Command, AllocError>
        ensures { IfOk result (λ command. command ≡ self.now) }
    {
        match self {
            Command::Capability => Ok(Command::Capability),
            Command::Login { account } => Ok(Command::Login {
                account: account.copy()?,
            }),
            Command::Plain { account } => Ok(Command::Plain {
                account: account.copy()?,
            }),
            Command::Enable { rev2 } => Ok(Command::Enable { rev2: *rev2 }),
            Command::Select { name, since } => Ok(Command::Select {
                name: name.copy(),
                since: *since,
            }),
            Command::FetchAll => Ok(Command::FetchAll),
            Command::FetchRow { uid } => Ok(Command::FetchRow { uid: *uid }),
            Command::Search { from, id } => Ok(Command::Search {
                from: *from,
                id: id.copy()?,
            }),
            Command::FetchIds { uids } => Ok(Command::FetchIds { uids: uids.copy()? }),
            Command::FetchText { uid } => Ok(Command::FetchText { uid: *uid }),
            Command::Store {
                uid,
                since,
                add,
                flags,
            } => Ok(Command::Store {
                uid: *uid,
                since: *since,
                add: *add,
                flags: flags.copy()?,
            }),
            Command::Shift { uid, to } => Ok(Command::Shift {
                uid: *uid,
                to: to.copy(),
            }),
            Command::Copy { uid, to } => Ok(Command::Copy {
                uid: *uid,
                to: to.copy(),
            }),
            Command::Expunge { uid } => Ok(Command::Expunge { uid: *uid }),
            Command::Append { to, flags, text } => Ok(Command::Append {
                to: to.copy(),
                flags: flags.copy()?,
                text: text.copy()?,
            }),
            Command::Logout => Ok(Command::Logout),
        }
    }
}

// Whether a command can have this tag.
fn is_command_tag(tag: Tag) -> bool
    ensures { IsTrue result ↔ IsCommandTag tag }
{
    match tag {
        Tag::Play(number) | Tag::Count(number) => number > 0,
        Tag::Again { id, turn } => id > 0 && turn >= 2 && turn <= 3,
        Tag::Strange => false,
    }
}
