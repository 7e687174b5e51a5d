//! Changes of mailboxes, and who made them (RFC 9051, sections 2.3.2 and 6.4; RFC 7162, section 3.1).

ghost use Rattle.std.specs.Prelude.{◌≡◌, IfOk};

use flag_set::FlagSet;
use mail_base::{BoxName, Bytes, List, ModSeq, Tag, Validity};
use std::alloc::AllocError;
use uid_sets::Uid;

/// Who made a change.
#[derive(Clone, Copy, Debug, PartialEq, Eq)]
pub enum Author {
    /// Another client, or the server by itself.
    Other,
    /// This client, by the command under this tag.
    Ours(Tag),
}

/// A change of one mailbox, or of two.
#[derive(Drop)]
pub enum Change {
    /// A message comes, under this UID.
    Add {
        flags: FlagSet,
        text: Bytes,
        uid: Uid,
    },
    /// A message gets these flags in place of its own.
    SetFlags {
        uid: Uid,
        flags: FlagSet,
    },
    /// A message goes.
    Drop {
        uid: Uid,
    },
    /// A message goes, and comes to another mailbox under a new UID.
    Shift {
        uid: Uid,
        to: BoxName,
        new: Uid,
    },
    /// The mailbox is renewed under a greater UIDVALIDITY: its messages get these UIDs, in their order, and this mod-sequence
    /// (RFC 9051, section 2.3.1.1).
    Reset {
        validity: Validity,
        uids: List<Uid>,
        uidnext: Uid,
        highest: ModSeq,
    },
}

impl Change {
    /// The same change once more, or want of memory.
    pub fn copy(&self) -> Result<Change, AllocError>
        ensures { IfOk result (λ change. change ≡ self.now) }
    {
        match self {
            Change::Add { flags, text, uid } => Ok(Change::Add {
                flags: flags.copy()?,
                text: text.copy()?,
                uid: *uid,
            }),
            Change::SetFlags { uid, flags } => Ok(Change::SetFlags {
                uid: *uid,
                flags: flags.copy()?,
            }),
            Change::Drop { uid } => Ok(Change::Drop { uid: *uid }),
            Change::Shift { uid, to, new } => Ok(Change::Shift {
                uid: *uid,
                to: to.copy(),
                new: *new,
            }),
            Change::Reset {
                validity,
                uids,
                uidnext,
                highest,
            } => Ok(Change::Reset {
                validity: *validity,
                uids: List::of(uids.as_slice().to_vec(uids.allocator())?),
                uidnext: *uidnext,
                highest: *highest,
            }),
        }
    }
}

/// A change that was made: by whom, in which mailbox, under which UIDVALIDITY, and under which one the message came, if
/// one did.
#[derive(Drop)]
pub struct Deed {
    pub author: Author,
    pub name: BoxName,
    /// The UIDVALIDITY of the mailbox as the change was made.
    pub validity: Validity,
    /// That of the mailbox that got the message of a Shift; else the same.
    pub received: Validity,
    pub change: Change,
}

impl Deed {
    /// The same deed once more, or want of memory.
    pub fn copy(&self) -> Result<Deed, AllocError>
        ensures { IfOk result (λ deed. deed ≡ self.now) }
    {
        Ok(Deed {
            author: self.author,
            name: self.name.copy(),
            validity: self.validity,
            received: self.received,
            change: self.change.copy()?,
        })
    }
}
