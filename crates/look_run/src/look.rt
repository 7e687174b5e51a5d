//! What is looked at, and why it can't be shown.

/// What the words ask to see.
#[derive(Clone, Copy, Debug, PartialEq, Eq)]
pub enum Look {
    /// All actions, each with how it stands.
    History,
    /// The letter that the action of this number puts into a mailbox.
    Letter(u32),
}

/// Why a letter can't be shown.
#[derive(Clone, Copy, Debug, PartialEq, Eq)]
pub enum LookReason {
    /// There is no action of this number.
    NoAction,
    /// The action isn't an append.
    NoLetter,
}
