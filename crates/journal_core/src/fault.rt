//! Why files are no journal.

use std::alloc::AllocError;
use thiserror::Error;
use world_traits::DiskFailed;

/// What is wrong with the files of a journal.
#[derive(Clone, Copy, Debug, PartialEq, Eq, Drop, Error)]
pub enum Place9 {
    /// No side has at least 14 bytes and an open head gate.
    #[error("no journal")]
    Absent,
    /// A side has at least 14 bytes and an open head gate, and its bytes from 1 to 12 are wrong.
    #[error("a wrong header")]
    Header,
    /// Both sides are set up with one generation.
    #[error("two sides of one generation")]
    Generations,
    /// The gate at this place is open, in bytes from 0, and its record or the next gate doesn't
    /// stand whole, or its length is 0 or above 2^30.
    #[error("a broken record")]
    Record { at: u64 },
}

/// Why a journal can't be read.
#[derive(Clone, Copy, Debug, PartialEq, Eq, Drop, Error)]
pub enum OpenFault {
    /// Memory is wanting.
    #[error("out of memory")]
    Memory,
    /// The disk failed.
    #[error("the disk failed")]
    Disk,
    /// The files are no journal.
    #[error("no journal")]
    NotAJournal { why: Place9 },
}

impl From<DiskFailed> for OpenFault {
    ghost use Rattle.std.specs.Prelude.{◌≡◌};
    ghost use Rattle.journal_core.specs.declared.fault.OpenFault.TheVariants as faults;

    ghost from_gives = { λ _ fault. fault ≡ faults.Disk };

    fn from(_failed: DiskFailed) -> OpenFault {
        OpenFault::Disk
    }
}

impl From<AllocError> for OpenFault {
    ghost use Rattle.std.specs.Prelude.{◌≡◌};
    ghost use Rattle.journal_core.specs.declared.fault.OpenFault.TheVariants as faults;

    ghost from_gives = { λ _ fault. fault ≡ faults.Memory };

    fn from(_wanting: AllocError) -> OpenFault {
        OpenFault::Memory
    }
}

impl From<Place9> for OpenFault {
    ghost use Rattle.std.specs.Prelude.{◌≡◌};
    ghost use Rattle.journal_core.specs.declared.fault.OpenFault.TheVariants as faults;

    ghost from_gives = { λ why fault. fault ≡ faults.NotAJournal why };

    fn from(why: Place9) -> OpenFault {
        OpenFault::NotAJournal { why }
    }
}
