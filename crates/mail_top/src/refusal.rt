//! Why a command isn't carried out.

use crate::Reason;
use flag_set::FlagFault;
use journal_core::Place9;
use mail_header::IdFault;
use std::alloc::AllocError;
use store_core::{CommitFault, StoreFault};
use thiserror::Error;
use world_traits::ReadFailed;

/// Why a command isn't carried out.
#[derive(Clone, Copy, Debug, PartialEq, Eq, Drop, Error)]
pub enum Refusal {
    /// The disk failed.
    #[error("the disk failed")]
    Disk,
    /// Memory is wanting.
    #[error("out of memory")]
    Memory,
    /// The input failed.
    #[error("the input failed")]
    Input,
    /// A journal is there already.
    #[error("a journal is there")]
    Already,
    /// The files are no journal, or a record isn't whole, spells no event, or one that may not come there.
    #[error("no journal")]
    NotAJournal { why: Place9 },
    /// The book as it is, or the input, speaks against it.
    #[error("refused")]
    Reason { reason: Reason },
    /// The queue would have more actions than it may.
    #[error("too many actions")]
    Actions,
    /// The journal would end at this place, past its limit.
    #[error("a full journal")]
    Full { end: u64 },
    /// The journal is of an older version, and no generation is left in which it is taken over.
    #[error("no generation is left")]
    Generation,
}

impl From<StoreFault> for Refusal {
    ghost use Rattle.std.specs.Prelude.{◌≡◌};
    ghost use Rattle.mail_top.specs.Faults.{of_store};

    ghost from_gives = { λ store refusal. refusal ≡ of_store store };

    fn from(fault: StoreFault) -> Refusal {
        match fault {
            StoreFault::Memory => Refusal::Memory,
            StoreFault::Disk => Refusal::Disk,
            StoreFault::Already => Refusal::Already,
            StoreFault::Full { wanted, .. } => Refusal::Full { end: wanted },
            StoreFault::NotAJournal { why } => Refusal::NotAJournal { why },
        }
    }
}

impl From<CommitFault> for Refusal {
    ghost use Rattle.std.specs.Prelude.{◌≡◌};
    ghost use Rattle.mail_top.specs.Faults.{of_commit};

    ghost from_gives = { λ commit refusal. refusal ≡ of_commit commit };

    fn from(fault: CommitFault) -> Refusal {
        match fault {
            CommitFault::Memory => Refusal::Memory,
            CommitFault::Disk => Refusal::Disk,
            CommitFault::Full { wanted, .. } => Refusal::Full { end: wanted },
        }
    }
}

impl From<AllocError> for Refusal {
    ghost use Rattle.std.specs.Prelude.{◌≡◌};
    ghost use Rattle.mail_top.specs.declared.refusal.Refusal.TheVariants as refusals;

    ghost from_gives = { λ _ refusal. refusal ≡ refusals.Memory };

    fn from(_wanting: AllocError) -> Refusal {
        Refusal::Memory
    }
}

impl From<Reason> for Refusal {
    ghost use Rattle.std.specs.Prelude.{◌≡◌};
    ghost use Rattle.mail_top.specs.declared.refusal.Refusal.TheVariants as refusals;

    ghost from_gives = { λ reason refusal. refusal ≡ refusals.Reason reason };

    fn from(reason: Reason) -> Refusal {
        Refusal::Reason { reason }
    }
}

impl From<FlagFault> for Refusal {
    ghost use Rattle.std.specs.Prelude.{◌≡◌};
    ghost use Rattle.mail_top.specs.Faults.{of_flag};

    ghost from_gives = { λ flaw refusal. refusal ≡ of_flag flaw };

    fn from(fault: FlagFault) -> Refusal {
        match fault {
            FlagFault::Memory => Refusal::Memory,
            FlagFault::TooLong { .. } | FlagFault::BadFlag { .. } | FlagFault::TooMany { .. } => {
                Refusal::from(Reason::BadFlag)
            }
        }
    }
}

impl From<ReadFailed> for Refusal {
    ghost use Rattle.std.specs.Prelude.{◌≡◌};
    ghost use Rattle.mail_top.specs.declared.refusal.Refusal.TheVariants as refusals;

    ghost from_gives = { λ _ refusal. refusal ≡ refusals.Input };

    fn from(_failed: ReadFailed) -> Refusal {
        Refusal::Input
    }
}

impl From<IdFault> for Refusal {
    ghost use Rattle.std.specs.Prelude.{◌≡◌};
    ghost use Rattle.mail_top.specs.Faults.{of_id};

    ghost from_gives = { λ flaw refusal. refusal ≡ of_id flaw };

    fn from(fault: IdFault) -> Refusal {
        match fault {
            IdFault::Memory => Refusal::Memory,
            IdFault::Missing
            | IdFault::Twice { .. }
            | IdFault::TooLong { .. }
            | IdFault::BadForm { .. } => Refusal::from(Reason::NoMessageId),
        }
    }
}
