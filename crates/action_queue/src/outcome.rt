//! How an action ended.

use mail_base::{ActionId, ModSeq, Validity};
use uid_sets::Uid;

/// Where a moved or appended message landed (RFC 4315, section 3).
#[derive(Clone, Copy, Debug, PartialEq, Eq)]
pub struct Place {
    pub validity: Validity,
    pub uid: Uid,
}

/// Why an action ended as a conflict. The first seven, and `ValidityChanged`, say that it had no effect, the others that it
/// had its one effect or none.
#[derive(Clone, Copy, Debug, PartialEq, Eq)]
pub enum Kind {
    /// The message isn't there any more.
    MessageGone,
    /// The flags were so already.
    AlreadySo,
    /// The message has changed since it was seen with this mod-sequence.
    FlagsChanged { m: ModSeq },
    /// The server answered NO.
    RefusedNo,
    /// The server answered BAD.
    RefusedBad,
    /// The mailbox doesn't keep such flags.
    NotPermanent,
    /// The action that was to make the message ended as a conflict.
    TargetUnknown { k: ActionId },
    /// After a lost reply the flags are as asked.
    FoundSo,
    /// After a lost reply the message has another mod-sequence, and the flags aren't as asked.
    StoreUnsure { m: ModSeq, f: ModSeq },
    /// After a lost reply the message that was to be moved isn't there.
    SourceGone,
    /// After a lost reply the message whose flags were to change isn't there.
    GoneAfterLoss,
    /// After a lost reply there are two or more messages with the Message-ID.
    Ambiguous { u: Uid, v: Uid },
    /// The message's mailbox was recreated under the greater UIDVALIDITY `n`: `o` names a message that can't be found any more.
    ValidityChanged { o: Validity, n: Validity },
    /// After a lost reply the intent's mailbox was recreated under a greater UIDVALIDITY.
    ResetAfterLoss { o: Validity, n: Validity },
}

/// How an action ended: its effect is there, or it is a conflict.
#[derive(Clone, Copy, Debug, PartialEq, Eq)]
pub enum Outcome {
    /// Done, at a place where a message was moved or appended.
    Done { place: Option<Place> },
    /// A conflict of this kind.
    Conflict(Kind),
}
