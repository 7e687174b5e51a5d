//! Why a text is refused as a flag or as a list of flags (RFC 9051, section 9, flag and flag-list).

use std::alloc::AllocError;
use thiserror::Error;

/// The bytes of the longest flag that is read (this client's profile).
pub const MAX_FLAG: usize = 255;

/// The keys of the largest list of flags that is read (this client's profile).
pub const MAX_FLAGS: usize = 1024;

/// Why a text is refused as a flag, or as a list of flags.
#[derive(Clone, Copy, Debug, PartialEq, Eq, Error)]
pub enum FlagFault {
    /// A flag of more than `MAX_FLAG` bytes, with the count of its bytes.
    #[error("a flag is too long")]
    TooLong { length: usize },
    /// A text that isn't a flag, with the place in it of the first byte that doesn't fit, or its length.
    #[error("a flag is malformed")]
    BadFlag { at: usize },
    /// A list of more than `MAX_FLAGS` different flags, with their count up to the first that is too many.
    #[error("a list has too many flags")]
    TooMany { count: usize },
    /// Want of memory.
    #[error("out of memory")]
    Memory,
}

impl From<AllocError> for FlagFault {
    ghost use Rattle.flag_set.specs.declared.flag_fault.FlagFault.TheVariants.{Memory};
    ghost use Rattle.std.specs.Prelude.{◌≡◌};

    ghost from_gives = { λ _ fault. fault ≡ Memory };

    fn from(_refused: AllocError) -> FlagFault {
        FlagFault::Memory
    }
}
