//! Why a frame is read as no response.

ghost use Rattle.std.specs.Prelude.{◌≡◌};

use flag_set::FlagFault;
use imap_model::Limit;
use std::alloc::{AllocError, AllocFailed};
use thiserror::Error;

/// Why a frame is read as no response.
#[derive(Clone, Copy, Debug, PartialEq, Eq, Drop, Error)]
pub enum ResponseFault {
    /// The frame spells no response. At `at` begins the first token that doesn't fit: the place is counted in bytes of
    /// the frame, from 0, and is the frame's length where it ends too early.
    #[error("no response")]
    BadForm { at: usize },
    /// The frame spells a response with a flag, or a list of flags, that is too large.
    #[error("a flag or a list of flags is too large")]
    TooLarge { limit: Limit, number: u64 },
    /// Memory is wanting.
    #[error("out of memory")]
    Memory,
}

// Why a part of a line isn't read.
#[derive(Clone, Copy, Debug, PartialEq, Eq)]
pub(crate) enum Misfit {
    // What stands in front of the line's last so many bytes doesn't fit.
    At { left: usize },
    Memory,
}

impl From<AllocError> for Misfit {
    ghost use Rattle.imap_response.specs.declared.fault.Misfit.TheVariants.{Memory};

    ghost from_gives = { λ _ fault. fault ≡ Memory };

    fn from(_refused: AllocError) -> Misfit {
        Misfit::Memory
    }
}

impl<T: Drop> From<AllocFailed<T>> for Misfit {
    ghost use Rattle.imap_response.specs.declared.fault.Misfit.TheVariants.{Memory};

    ghost from_gives = { λ _ fault. fault ≡ Memory };

    fn from(_refused: AllocFailed<T>) -> Misfit {
        Misfit::Memory
    }
}
