//! What playback needs next, and why a reply isn't taken.

use action_queue::{Event, Outcome};
use imap_model::{Command, Item};
use mail_base::{ActionId, BoxName, Validity};
use qresync_core::ResyncFault;
use std::alloc::{AllocError, AllocFailed};
use thiserror::Error;

/// What playback needs next (this client's profile of RFC 4549, section 4.2).
#[derive(Drop)]
pub enum Need {
    /// The mailbox is to be selected, and all that it tells since its cache gathered (RFC 7162, section 3.2.5).
    Select(BoxName),
    /// A question is to be asked of the selected mailbox.
    Ask(Command),
    /// An event is to be recorded before anything else is done.
    Commit(Event),
    /// The action that is due ended so, which is to be recorded.
    Settle(ActionId, Outcome),
    /// The try of the action that is due had no effect, since another changed the message before it. It is to be taken back: so many tries
    /// were then, and the action begins anew.
    Withdraw(ActionId, u8),
    /// The command of the action that is due is to be sent, under the tag of the action's try. Its intent is recorded.
    Send(ActionId, Command),
    /// No action is unsettled, and each mailbox was resynchronised since.
    Finished,
}

/// Why a reply wasn't taken. Of the last four the first that holds is told.
#[derive(Clone, Copy, Debug, PartialEq, Eq, Error)]
pub enum Unheard {
    /// Memory is wanting.
    #[error("out of memory")]
    Memory,
    /// The replies to the resynchronisation make no delta.
    #[error("the mailbox can't be resynchronised: {0}")]
    Resync(ResyncFault),
    /// The mailbox's UIDVALIDITY is below that of the message that the action is about, or of the action's intent
    /// (RFC 9051, section 2.3.1.1).
    #[error("the mailbox has a lower UIDVALIDITY than the action's")]
    Target { kept: Validity, told: Validity },
    /// The reply lacks what the server owes.
    #[error("the reply lacks an item")]
    Lacks { item: Item },
    /// The mailbox's cache would have this many rows, more than `MAX_ROWS`.
    #[error("too many rows: {count}")]
    Rows { count: u64 },
}

impl From<AllocError> for Unheard {
    ghost use Rattle.std.specs.Prelude.{◌≡◌};
    ghost use Rattle.playback.specs.declared.need.Unheard.TheVariants as unheards;

    ghost from_gives = { λ _ fault. fault ≡ unheards.Memory };

    fn from(_wanting: AllocError) -> Unheard {
        Unheard::Memory
    }
}

impl<T: Drop> From<AllocFailed<T>> for Unheard {
    ghost use Rattle.std.specs.Prelude.{◌≡◌};
    ghost use Rattle.playback.specs.declared.need.Unheard.TheVariants as unheards;

    ghost from_gives = { λ _ fault. fault ≡ unheards.Memory };

    fn from(_failed: AllocFailed<T>) -> Unheard {
        Unheard::Memory
    }
}

impl From<ResyncFault> for Unheard {
    ghost use Rattle.std.specs.Prelude.{◌≡◌};
    ghost use Rattle.playback.specs.Choosing.{of_resync};

    ghost from_gives = { λ resync fault. fault ≡ of_resync resync };

    fn from(fault: ResyncFault) -> Unheard {
        match fault {
            ResyncFault::Memory => Unheard::Memory,
            ResyncFault::NoModSeq
            | ResyncFault::NotSticky
            | ResyncFault::NoCode { .. }
            | ResyncFault::Validity { .. }
            | ResyncFault::Unfit { .. }
            | ResyncFault::BareRow { .. } => Unheard::Resync(fault),
        }
    }
}
