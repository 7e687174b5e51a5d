//! Why there is no store, and why an event isn't recorded.

use journal_core::{AppendFault, CreateFault, OpenFault, Place9, TurnFault};
use std::alloc::AllocError;
use thiserror::Error;

/// Why a store isn't made or opened.
#[derive(Clone, Copy, Debug, PartialEq, Eq, Drop, Error)]
pub enum StoreFault {
    /// Memory is wanting.
    #[error("out of memory")]
    Memory,
    /// The disk failed.
    #[error("the disk failed")]
    Disk,
    /// A journal is there.
    #[error("a journal is there")]
    Already,
    /// The journal ends at `end` and would end at `wanted`, past its limit. Places are counted in bytes from 0.
    #[error("the journal is full")]
    Full { end: u64, wanted: u64 },
    /// The files are no journal; or the record at a place isn't whole, spells no event, or one that may not come there.
    #[error("no journal")]
    NotAJournal { why: Place9 },
}

/// Why an event isn't recorded.
#[derive(Clone, Copy, Debug, PartialEq, Eq, Drop, Error)]
pub enum CommitFault {
    /// Memory is wanting.
    #[error("out of memory")]
    Memory,
    /// The disk failed. A stop or a reopening gives the book with or without the event.
    #[error("the disk failed")]
    Disk,
    /// The journal ends at `end` and would end at `wanted`, past its limit. Places are counted in bytes from 0, and
    /// `wanted` is at most 2^64 - 1.
    #[error("the journal is full")]
    Full { end: u64, wanted: u64 },
}

impl From<OpenFault> for StoreFault {
    ghost use Rattle.std.specs.Prelude.{◌≡◌};
    ghost use Rattle.store_core.specs.Faults.{of_opening};

    ghost from_gives = { λ opening fault. fault ≡ of_opening opening };

    fn from(fault: OpenFault) -> StoreFault {
        match fault {
            OpenFault::Memory => StoreFault::Memory,
            OpenFault::Disk => StoreFault::Disk,
            OpenFault::NotAJournal { why } => StoreFault::NotAJournal { why },
        }
    }
}

impl From<CreateFault> for StoreFault {
    ghost use Rattle.std.specs.Prelude.{◌≡◌};
    ghost use Rattle.store_core.specs.Faults.{of_creating};

    ghost from_gives = { λ creating fault. fault ≡ of_creating creating };

    fn from(fault: CreateFault) -> StoreFault {
        match fault {
            CreateFault::Memory => StoreFault::Memory,
            CreateFault::Disk => StoreFault::Disk,
            CreateFault::NotAJournal { why } => StoreFault::NotAJournal { why },
            CreateFault::Already => StoreFault::Already,
            CreateFault::Full { end, wanted } => StoreFault::Full { end, wanted },
        }
    }
}

impl From<TurnFault> for StoreFault {
    ghost use Rattle.std.specs.Prelude.{◌≡◌};
    ghost use Rattle.store_core.specs.Faults.{of_turning};

    ghost from_gives = { λ turning fault. fault ≡ of_turning turning };

    fn from(fault: TurnFault) -> StoreFault {
        match fault {
            TurnFault::Disk => StoreFault::Disk,
            TurnFault::Full { end, wanted } => StoreFault::Full { end, wanted },
        }
    }
}

impl From<AllocError> for StoreFault {
    ghost use Rattle.std.specs.Prelude.{◌≡◌};
    ghost use Rattle.store_core.specs.declared.fault.StoreFault.TheVariants as faults;

    ghost from_gives = { λ _ fault. fault ≡ faults.Memory };

    fn from(_wanting: AllocError) -> StoreFault {
        StoreFault::Memory
    }
}

impl From<AppendFault> for CommitFault {
    ghost use Rattle.std.specs.Prelude.{◌≡◌};
    ghost use Rattle.store_core.specs.Faults.{of_adding};

    ghost from_gives = { λ adding fault. fault ≡ of_adding adding };

    fn from(fault: AppendFault) -> CommitFault {
        match fault {
            AppendFault::Disk => CommitFault::Disk,
            AppendFault::Full { end, wanted } => CommitFault::Full { end, wanted },
        }
    }
}

impl From<AllocError> for CommitFault {
    ghost use Rattle.std.specs.Prelude.{◌≡◌};
    ghost use Rattle.store_core.specs.declared.fault.CommitFault.TheVariants as faults;

    ghost from_gives = { λ _ fault. fault ≡ faults.Memory };

    fn from(_wanting: AllocError) -> CommitFault {
        CommitFault::Memory
    }
}
