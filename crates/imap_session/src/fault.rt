//! Why a session ended.

use imap_model::{Item, Limit};
use mail_base::Bytes;
use std::alloc::{AllocError, AllocFailed};
use world_traits::LinkFailed;

/// Why a session ended.
#[derive(Drop)]
pub enum SessionFault {
    /// Memory is wanting.
    Memory,
    /// The link failed.
    Link,
    /// The server said BYE, or NO or BAD to a question: its line.
    Refused { line: Bytes },
    /// What came is no reply: the place of the frame, or of the byte.
    BadReply { at: u64 },
    /// What the server told lacks a thing that this client needs.
    Lacking { what: Item },
    /// What came passes a limit.
    TooLarge { limit: Limit, number: u64 },
}

impl From<AllocError> for SessionFault {
    ghost use Rattle.std.specs.Prelude.{◌≡◌};
    ghost use Rattle.imap_session.specs.declared.fault.SessionFault.TheVariants as faults;

    ghost from_gives = { λ _ fault. fault ≡ faults.Memory };

    fn from(_refused: AllocError) -> SessionFault {
        SessionFault::Memory
    }
}

impl<T: Drop> From<AllocFailed<T>> for SessionFault {
    ghost use Rattle.std.specs.Prelude.{◌≡◌};
    ghost use Rattle.imap_session.specs.declared.fault.SessionFault.TheVariants as faults;

    ghost from_gives = { λ _ fault. fault ≡ faults.Memory };

    fn from(_refused: AllocFailed<T>) -> SessionFault {
        SessionFault::Memory
    }
}

impl From<LinkFailed> for SessionFault {
    ghost use Rattle.std.specs.Prelude.{◌≡◌};
    ghost use Rattle.imap_session.specs.declared.fault.SessionFault.TheVariants as faults;

    ghost from_gives = { λ _ fault. fault ≡ faults.Link };

    fn from(_failed: LinkFailed) -> SessionFault {
        SessionFault::Link
    }
}
