//! Why bytes are refused as the record of an event.

ghost use Rattle.std.specs.Prelude.{◌≡◌};
ghost use Rattle.record_codec.specs.declared.fault.RecordFault.TheVariants.{Memory};

use std::alloc::AllocError;
use thiserror::Error;

/// Why bytes are refused as the record of an event.
#[derive(Clone, Copy, Debug, PartialEq, Eq, Error)]
pub enum RecordFault {
    /// The body spells no event. The first field that doesn't fit begins at this place.
    #[error("a record is malformed")]
    BadForm { at: usize },
    /// Want of memory.
    #[error("out of memory")]
    Memory,
}

impl From<AllocError> for RecordFault {
    ghost from_gives = { λ _ fault. fault ≡ Memory };

    fn from(_refused: AllocError) -> RecordFault {
        RecordFault::Memory
    }
}
