//! Why a mailbox can't be resynchronised (RFC 7162, sections 3.1.2.2 and 3.2.5; RFC 9051, sections 2.3.1.1 and 7.1).

use imap_model::Item;
use mail_base::{ModSeq, Validity};
use std::alloc::{AllocError, AllocFailed};
use thiserror::Error;

/// Why the codes of a reply to SELECT don't serve. The first that holds is told, in this order.
#[derive(Clone, Copy, Debug, PartialEq, Eq, Error)]
pub enum CodeFault {
    /// NOMODSEQ was told: the mailbox keeps no mod-sequences.
    #[error("the mailbox keeps no mod-sequences")]
    NoModSeq,
    /// UIDNOTSTICKY was told: the mailbox keeps no UIDs.
    #[error("the mailbox keeps no UIDs")]
    NotSticky,
    /// UIDVALIDITY, UIDNEXT or HIGHESTMODSEQ, the first of them that wasn't told.
    #[error("a code wasn't told")]
    NoCode { which: Item },
}

/// Why replies make no delta. The first that holds is told, in this order; want of memory may stand in place of any.
#[derive(Clone, Copy, Debug, PartialEq, Eq, Error)]
pub enum ResyncFault {
    /// Memory is wanting.
    #[error("out of memory")]
    Memory,
    /// NOMODSEQ was told: the mailbox keeps no mod-sequences.
    #[error("the mailbox keeps no mod-sequences")]
    NoModSeq,
    /// UIDNOTSTICKY was told: the mailbox keeps no UIDs.
    #[error("the mailbox keeps no UIDs")]
    NotSticky,
    /// UIDVALIDITY, UIDNEXT or HIGHESTMODSEQ, the first of them that wasn't told.
    #[error("a code wasn't told")]
    NoCode { which: Item },
    /// The mailbox has another UIDVALIDITY than the cache.
    #[error("the mailbox has another UIDVALIDITY")]
    Validity { kept: Validity, told: Validity },
    /// HIGHESTMODSEQ is below that of the cache.
    #[error("the highest mod-sequence fell")]
    Unfit { kept: ModSeq, told: ModSeq },
    /// A FETCH lacks UID, FLAGS or MODSEQ. Its number counts from 0 among all untagged responses of the reply that is
    /// read for rows.
    #[error("a row lacks UID, FLAGS or MODSEQ")]
    BareRow { index: usize },
}

impl From<CodeFault> for ResyncFault {
    ghost use Rattle.std.specs.Prelude.{◌≡◌};
    ghost use Rattle.qresync_core.specs.Resync.{of_codes};

    ghost from_gives = { λ code fault. fault ≡ of_codes code };

    fn from(fault: CodeFault) -> ResyncFault {
        match fault {
            CodeFault::NoModSeq => ResyncFault::NoModSeq,
            CodeFault::NotSticky => ResyncFault::NotSticky,
            CodeFault::NoCode { which } => ResyncFault::NoCode { which },
        }
    }
}

impl From<AllocError> for ResyncFault {
    ghost use Rattle.std.specs.Prelude.{◌≡◌};
    ghost use Rattle.qresync_core.specs.declared.fault.ResyncFault.TheVariants as faults;

    ghost from_gives = { λ _ fault. fault ≡ faults.Memory };

    fn from(_wanting: AllocError) -> ResyncFault {
        ResyncFault::Memory
    }
}

impl<T: Drop> From<AllocFailed<T>> for ResyncFault {
    ghost use Rattle.std.specs.Prelude.{◌≡◌};
    ghost use Rattle.qresync_core.specs.declared.fault.ResyncFault.TheVariants as faults;

    ghost from_gives = { λ _ fault. fault ≡ faults.Memory };

    fn from(_failed: AllocFailed<T>) -> ResyncFault {
        ResyncFault::Memory
    }
}
