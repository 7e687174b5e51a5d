//! Why a reader of a field gives no value.

ghost use Rattle.std.specs.Prelude.{◌≡◌};
ghost use Rattle.record_codec.specs.declared.misfit.Misfit.TheVariants.{Memory};

use std::alloc::{AllocError, AllocFailed};

/// Why a reader of a field gives no value.
#[derive(Clone, Copy, Debug, PartialEq, Eq, Drop)]
pub(crate) enum Misfit {
    /// Memory is wanting.
    Memory,
    /// The field doesn't fit. From its first byte on so many bytes were left.
    Left(usize),
}

impl From<AllocError> for Misfit {
    ghost from_gives = { λ _ misfit. misfit ≡ Memory };

    fn from(_: AllocError) -> Misfit {
        Misfit::Memory
    }
}

impl<T: Drop> From<AllocFailed<T>> for Misfit {
    ghost from_gives = { λ _ misfit. misfit ≡ Memory };

    fn from(_failed: AllocFailed<T>) -> Misfit {
        Misfit::Memory
    }
}
