//! What is about to be sent for an action.

ghost use Rattle.std.specs.Prelude.{◌≡◌};

use mail_base::{BoxName, ModSeq, Validity};
use uid_sets::Uid;

/// The command that is about to be sent for the action that is due, as it was decided. It is on the disk before the
/// command is sent, so that a lost reply can be judged later.
#[derive(Drop)]
pub enum Intent {
    /// A STORE of the message, which has this mod-sequence (RFC 7162, section 3.1.3).
    Store {
        name: BoxName,
        validity: Validity,
        uid: Uid,
        modseq: ModSeq,
    },
    /// A MOVE of the message (RFC 9051, section 6.4.8).
    Shift {
        from: BoxName,
        validity: Validity,
        uid: Uid,
        to: BoxName,
    },
    /// An APPEND to a mailbox, whose next UID is at least this one (RFC 9051, section 6.3.12).
    Put {
        to: BoxName,
        validity: Validity,
        uidnext: Uid,
    },
}

impl Intent {
    /// The same intent once more. It takes no memory.
    pub fn copy(&self) -> Intent
        ensures { result ≡ self.now }
    {
        match self {
            Intent::Store {
                name,
                validity,
                uid,
                modseq,
            } => Intent::Store {
                name: name.copy(),
                validity: *validity,
                uid: *uid,
                modseq: *modseq,
            },
            Intent::Shift {
                from,
                validity,
                uid,
                to,
            } => Intent::Shift {
                from: from.copy(),
                validity: *validity,
                uid: *uid,
                to: to.copy(),
            },
            Intent::Put {
                to,
                validity,
                uidnext,
            } => Intent::Put {
                to: to.copy(),
                validity: *validity,
                uidnext: *uidnext,
            },
        }
    }
}
