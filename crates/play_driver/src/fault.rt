//! Why a run ended early.

ghost use Rattle.std.specs.Prelude.{◌≡◌};
ghost use Rattle.play_driver.specs.Faults.{of_resync, of_unheard};
ghost use Rattle.play_driver.specs.declared.fault.PlayFault.TheVariants as faults;
ghost use Rattle.play_driver.specs.declared.fault.Why.TheVariants as whys;

use imap_model::{Item, Limit};
use imap_session::SessionFault;
use mail_base::{BoxName, Bytes, ModSeq, Validity};
use playback::Unheard;
use qresync_core::ResyncFault;
use std::alloc::AllocError;
use store_core::CommitFault;

/// Why a run ended early.
#[derive(Drop)]
pub enum PlayFault {
    /// Memory is wanting.
    Memory,
    /// The disk failed. What was to be recorded last is there or not.
    Disk,
    /// The link failed.
    Link,
    /// The server said BYE, or NO or BAD to a question: its line.
    Refused { line: Bytes },
    /// What came is no reply, or lacks what the server owes.
    BadReply { why: Why },
    /// The server lacks a thing that this client needs.
    Lacking { what: Item },
    /// A limit is passed by this number.
    Limit { which: Limit, number: u64 },
}

/// What is wrong with a reply.
#[derive(Debug, Drop)]
pub enum Why {
    /// The bytes that came in the connection don't go on as a reply at this place, counted from 0.
    At(u64),
    /// The reply lacks this.
    Lacks(Item),
    /// HIGHESTMODSEQ is below that of the cache (RFC 7162, section 3.1.2.1).
    Lower {
        kept: ModSeq,
        told: ModSeq,
    },
    /// The mailbox of this name has a UIDVALIDITY below that of its cache, or of an action's message or intent (RFC 9051, section
    /// 2.3.1.1).
    Older {
        name: BoxName,
        kept: Validity,
        told: Validity,
    },
}

impl From<AllocError> for PlayFault {
    ghost use Rattle.std.specs.Prelude.{◌≡◌};
    ghost use Rattle.play_driver.specs.declared.fault.PlayFault.TheVariants as faults;

    ghost from_gives = { λ _ fault. fault ≡ faults.Memory };

    fn from(_wanting: AllocError) -> PlayFault {
        PlayFault::Memory
    }
}

impl From<SessionFault> for PlayFault {
    ghost use Rattle.std.specs.Prelude.{◌≡◌};
    ghost use Rattle.play_driver.specs.Faults.{of_session};

    ghost from_gives = { λ session fault. fault ≡ of_session session };

    fn from(fault: SessionFault) -> PlayFault {
        match fault {
            SessionFault::Memory => PlayFault::Memory,
            SessionFault::Link => PlayFault::Link,
            SessionFault::Refused { line } => PlayFault::Refused { line },
            SessionFault::BadReply { at } => PlayFault::BadReply { why: Why::At(at) },
            SessionFault::Lacking { what } => PlayFault::Lacking { what },
            SessionFault::TooLarge { limit, number } => PlayFault::Limit {
                which: limit,
                number,
            },
        }
    }
}

/// The fault of a run for what was told of this mailbox, or why it isn't taken.
pub(crate) fn unheard_of(name: &BoxName, unheard: Unheard) -> PlayFault
    ensures { result ≡ of_unheard name.now unheard }
{
    match unheard {
        Unheard::Memory => PlayFault::Memory,
        Unheard::Resync(fault) => resync_of(name, fault),
        Unheard::Target { kept, told } => older(name, kept, told),
        Unheard::Lacks { item } => PlayFault::BadReply {
            why: Why::Lacks(item),
        },
        Unheard::Rows { count } => PlayFault::Limit {
            which: Limit::Rows,
            number: count,
        },
    }
}

// The fault of a run for that of a resynchronisation of this mailbox.
fn resync_of(name: &BoxName, fault: ResyncFault) -> PlayFault
    ensures { result ≡ of_resync name.now fault }
{
    match fault {
        ResyncFault::Memory => PlayFault::Memory,
        ResyncFault::NoModSeq => PlayFault::Lacking {
            what: Item::ModSeqs,
        },
        ResyncFault::NotSticky => PlayFault::Lacking { what: Item::Sticky },
        ResyncFault::NoCode { which } => PlayFault::BadReply {
            why: Why::Lacks(which),
        },
        ResyncFault::Validity { kept, told } => older(name, kept, told),
        ResyncFault::Unfit { kept, told } => PlayFault::BadReply {
            why: Why::Lower { kept, told },
        },
        ResyncFault::BareRow { .. } => PlayFault::BadReply {
            why: Why::Lacks(Item::Row),
        },
    }
}

// The mailbox has a lower UIDVALIDITY than this one.
fn older(name: &BoxName, kept: Validity, told: Validity) -> PlayFault
    ensures { result ≡ faults.BadReply (whys.Older name.now kept told) }
{
    PlayFault::BadReply {
        why: Why::Older {
            name: name.copy(),
            kept,
            told,
        },
    }
}

impl From<CommitFault> for PlayFault {
    ghost use Rattle.std.specs.Prelude.{◌≡◌};
    ghost use Rattle.play_driver.specs.Faults.{of_commit};

    ghost from_gives = { λ commit fault. fault ≡ of_commit commit };

    fn from(fault: CommitFault) -> PlayFault {
        match fault {
            CommitFault::Memory => PlayFault::Memory,
            CommitFault::Disk => PlayFault::Disk,
            CommitFault::Full { wanted, .. } => PlayFault::Limit {
                which: Limit::Journal,
                number: wanted,
            },
        }
    }
}
