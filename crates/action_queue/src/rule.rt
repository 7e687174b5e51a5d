//! The rules of the book, which say which events may come.

/// The version of a journal. A first one knows no further tries.
#[derive(Clone, Copy, Debug, PartialEq, Eq)]
pub enum Version {
    First,
    Second,
}

/// A rule that an event breaks. The rules are tried in this order.
#[derive(Clone, Copy, Debug, PartialEq, Eq)]
pub enum Rule {
    /// The book has begun already.
    BeginAgain,
    /// An accepted action's number isn't the next one.
    WrongNumber,
    /// A mailbox isn't one of the book's.
    UnknownBox,
    /// A target names no earlier move or append.
    BadTarget,
    /// The queue would have more than `MAX_ACTIONS` actions.
    TooMany,
    /// Some action is unsettled.
    NotAllSettled,
    /// An intent is pending already.
    PendingAlready,
    /// Every action is settled.
    NothingWaiting,
    /// The action isn't the first one that is unsettled.
    WrongAction,
    /// The intent isn't one for the action.
    WrongIntent,
    /// The number of tries isn't the next one, is above two, or stands in a journal of the first version.
    WrongTries,
    /// The outcome rests on an intent, and none is pending.
    NeedsIntent,
    /// The outcome is told before an intent, and one is pending.
    NoIntentDue,
    /// A flag action is done with a place, or another one without.
    WrongPlace,
    /// The kind isn't one for the action, or names another number.
    WrongKind,
    /// A mailbox with a cache learns all its rows, or one without a cache only some.
    WrongWhole,
    /// The delta has another UIDVALIDITY than the cache; or a cache that is taken away isn't there, has another one than is said,
    /// or none below the one that was told.
    WrongValidity,
    /// The delta's highest mod-sequence is below the cache's.
    LowerMark,
    /// The cache would have more than `MAX_ROWS` rows.
    TooManyRows,
}
