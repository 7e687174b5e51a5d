//! Response codes (RFC 9051, section 7.1; RFC 7162, section 3).

ghost use Rattle.std.specs.Prelude.{◌≡◌, IfOk};

use flag_set::FlagSet;
use mail_base::{ModSeq, Validity, Words};
use std::alloc::{AllocError, Global};
use uid_sets::{Uid, UidSet};

/// The code between the brackets of a status response, as far as this client knows it.
#[derive(Drop)]
pub enum Code {
    /// There is no code.
    None,
    /// CAPABILITY: what the server can do.
    Capability(Words),
    /// UIDNEXT: no message has this UID yet, and none below it is to come.
    UidNext(Uid),
    /// UIDVALIDITY of the selected mailbox.
    UidValidity(Validity),
    /// PERMANENTFLAGS: the flags that can be changed for good, and whether new keywords can be made (`\*`).
    PermanentFlags {
        flags: FlagSet,
        any: bool,
    },
    /// HIGHESTMODSEQ: the greatest mod-sequence in the mailbox.
    HighestModSeq(ModSeq),
    /// NOMODSEQ: the mailbox keeps no mod-sequences.
    NoModSeq,
    /// UIDNOTSTICKY: the mailbox keeps no UIDs.
    UidNotSticky,
    /// APPENDUID: where an appended message landed.
    AppendUid {
        validity: Validity,
        uid: Uid,
    },
    /// COPYUID: which messages were copied or moved, and where each landed.
    CopyUid {
        validity: Validity,
        source: UidSet,
        target: UidSet,
    },
    /// MODIFIED: the messages that a conditional STORE left as they were.
    Modified(UidSet),
    /// CLOSED: what follows belongs to the mailbox that is now selected.
    Closed,
    /// Any other code.
    Other,
}

impl Code {
    /// The same code once more, or want of memory.
    pub fn copy(&self, alloc: Global) -> Result<Code, AllocError>
        ensures { IfOk result (λ code. code ≡ self.now) }
    {
        Ok(match self {
            Code::None => Code::None,
            Code::Capability(words) => Code::Capability(words.copy(alloc)?),
            Code::UidNext(uid) => Code::UidNext(*uid),
            Code::UidValidity(validity) => Code::UidValidity(*validity),
            Code::PermanentFlags { flags, any } => Code::PermanentFlags {
                flags: flags.copy()?,
                any: *any,
            },
            Code::HighestModSeq(modseq) => Code::HighestModSeq(*modseq),
            Code::NoModSeq => Code::NoModSeq,
            Code::UidNotSticky => Code::UidNotSticky,
            Code::AppendUid { validity, uid } => Code::AppendUid {
                validity: *validity,
                uid: *uid,
            },
            Code::CopyUid {
                validity,
                source,
                target,
            } => Code::CopyUid {
                validity: *validity,
                source: source.copy()?,
                target: target.copy()?,
            },
            Code::Modified(uids) => Code::Modified(uids.copy()?),
            Code::Closed => Code::Closed,
            Code::Other => Code::Other,
        })
    }
}
