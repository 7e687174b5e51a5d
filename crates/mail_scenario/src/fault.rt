//! Why a scenario ends before its last line.

use cases::WordFault;
use std::alloc::{AllocError, AllocFailed};

/// Why a scenario ends before its last line.
#[derive(Clone, Copy)]
pub enum LineFault {
    /// The line is none of the language, or doesn't fit where it stands.
    Unfit,
    /// The mailboxes aren't those of a well-formed server.
    NotWellFormed,
    /// Memory is wanting.
    Memory,
}

impl From<WordFault> for LineFault {
    fn from(fault: WordFault) -> LineFault {
        match fault {
            WordFault::Memory => LineFault::Memory,
            WordFault::Form => LineFault::Unfit,
        }
    }
}

impl From<AllocError> for LineFault {
    ghost use Rattle.mail_scenario.specs.declared.fault.LineFault.TheVariants.{Memory};
    ghost use Rattle.std.specs.Prelude.{◌≡◌};

    ghost from_gives = { λ _ fault. fault ≡ Memory };

    fn from(_: AllocError) -> LineFault {
        LineFault::Memory
    }
}

impl<T: Drop> From<AllocFailed<T>> for LineFault {
    ghost use Rattle.mail_scenario.specs.declared.fault.LineFault.TheVariants.{Memory};
    ghost use Rattle.std.specs.Prelude.{◌≡◌};

    ghost from_gives = { λ _ fault. fault ≡ Memory };

    fn from(_: AllocFailed<T>) -> LineFault {
        LineFault::Memory
    }
}
