//! Why a text is no set of UIDs (RFC 9051, section 9, sequence-set).

ghost use Rattle.std.specs.Prelude.{◌≡◌};
ghost use Rattle.uid_sets.specs.declared.set_fault.SetFault.TheVariants.{Memory};

use std::alloc::{AllocError, AllocFailed};
use thiserror::Error;

/// The first fault of a text from the left. Places are counted in bytes of the text, from 0.
#[derive(Clone, Copy, Debug, PartialEq, Eq, Error)]
pub enum SetFault {
    /// There was no memory for the set.
    #[error("out of memory")]
    Memory,
    /// The text has no bytes.
    #[error("no UID")]
    Empty,
    /// The number that begins at `at` is 0.
    #[error("the number at byte {at} is 0")]
    Zero { at: usize },
    /// The number that begins at `at` is above 4,294,967,295.
    #[error("the number at byte {at} is above 4294967295")]
    BadNumber { at: usize },
    /// At `at` a digit, `:` or `,` is due and isn't there. The place may be the text's end.
    #[error("no digit, colon or comma at byte {at}")]
    BadByte { at: usize },
}

impl From<AllocError> for SetFault {
    ghost from_gives = { λ _ fault. fault ≡ Memory };

    fn from(_: AllocError) -> SetFault {
        SetFault::Memory
    }
}

impl<T: Drop> From<AllocFailed<T>> for SetFault {
    ghost from_gives = { λ _ fault. fault ≡ Memory };

    fn from(_failed: AllocFailed<T>) -> SetFault {
        SetFault::Memory
    }
}
