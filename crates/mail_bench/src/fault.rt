//! Why a stream isn't measured to its end.

use imap_response::ResponseFault;
use mail_base::FeedFault;
use std::alloc::AllocError;

/// Why a stream isn't measured to its end.
#[derive(Clone, Copy, Debug, PartialEq, Eq)]
pub enum MeterFault {
    /// The stream has a fault, or memory is wanting for it.
    Feed(FeedFault),
    /// A frame isn't read.
    Response(ResponseFault),
}

impl From<FeedFault> for MeterFault {
    ghost use Rattle.std.specs.Prelude.{◌≡◌};
    ghost use Rattle.mail_bench.specs.declared.fault.MeterFault.TheVariants as faults;

    ghost from_gives = { λ fed fault. fault ≡ faults.Feed fed };

    fn from(fault: FeedFault) -> MeterFault {
        MeterFault::Feed(fault)
    }
}

impl From<ResponseFault> for MeterFault {
    ghost use Rattle.std.specs.Prelude.{◌≡◌};
    ghost use Rattle.mail_bench.specs.declared.fault.MeterFault.TheVariants as faults;

    ghost from_gives = { λ refused fault. fault ≡ faults.Response refused };

    fn from(fault: ResponseFault) -> MeterFault {
        MeterFault::Response(fault)
    }
}

impl From<AllocError> for MeterFault {
    ghost use Rattle.std.specs.Prelude.{◌≡◌};
    ghost use Rattle.mail_base.specs.declared.frame.FeedFault.TheVariants as feeds;
    ghost use Rattle.mail_bench.specs.declared.fault.MeterFault.TheVariants as faults;

    ghost from_gives = { λ _ fault. fault ≡ faults.Feed feeds.Memory };

    fn from(_refused: AllocError) -> MeterFault {
        MeterFault::Feed(FeedFault::Memory)
    }
}
