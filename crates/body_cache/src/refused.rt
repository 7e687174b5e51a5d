//! Why a reading isn't carried out.

use crate::{GetFault, ReadReason};
use mail_base::Bytes;
use mail_top::Refusal;
use play_driver::PlayFault;
use std::alloc::AllocError;

/// Why a reading isn't carried out.
#[derive(Drop)]
pub enum ReadFault {
    /// The journal isn't opened, or memory is wanting.
    Refused(Refusal),
    /// The book as it is, the shelf or the server speaks against it.
    Reason(ReadReason),
    /// The session ended early.
    Stopped(PlayFault),
    /// The mailbox has another UIDVALIDITY than its cache: the line that tells it.
    Renewed(Bytes),
    /// The shelf failed.
    Shelf,
}

impl From<Refusal> for ReadFault {
    ghost use Rattle.std.specs.Prelude.{◌≡◌};
    ghost use Rattle.body_cache.specs.declared.refused.ReadFault.TheVariants as faults;

    ghost from_gives = { λ refusal fault. fault ≡ faults.Refused refusal };

    fn from(refusal: Refusal) -> ReadFault {
        ReadFault::Refused(refusal)
    }
}

impl From<ReadReason> for ReadFault {
    ghost use Rattle.std.specs.Prelude.{◌≡◌};
    ghost use Rattle.body_cache.specs.declared.refused.ReadFault.TheVariants as faults;

    ghost from_gives = { λ reason fault. fault ≡ faults.Reason reason };

    fn from(reason: ReadReason) -> ReadFault {
        ReadFault::Reason(reason)
    }
}

impl From<AllocError> for ReadFault {
    ghost use Rattle.std.specs.Prelude.{◌≡◌};
    ghost use Rattle.mail_top.specs.declared.refusal.Refusal.TheVariants as refusals;
    ghost use Rattle.body_cache.specs.declared.refused.ReadFault.TheVariants as faults;

    ghost from_gives = { λ _ fault. fault ≡ faults.Refused refusals.Memory };

    fn from(_wanting: AllocError) -> ReadFault {
        ReadFault::Refused(Refusal::Memory)
    }
}

impl From<GetFault> for ReadFault {
    ghost use Rattle.std.specs.Prelude.{◌≡◌};
    ghost use Rattle.body_cache.specs.Telling.{of_get};

    ghost from_gives = { λ get fault. fault ≡ of_get get };

    fn from(fault: GetFault) -> ReadFault {
        match fault {
            GetFault::Memory => ReadFault::Refused(Refusal::Memory),
            GetFault::Failed => ReadFault::Shelf,
        }
    }
}
