//! Why a command is refused by the book as it is, or by its input.

/// Why a command is refused by the book as it is, or by its input. The reasons are looked for in this order.
#[derive(Clone, Copy, Debug, PartialEq, Eq)]
pub enum Reason {
    /// A mailbox isn't one of the journal's.
    NoMailbox,
    /// The message isn't in the mailbox, as the user sees it.
    NoMessage,
    /// A user can't ask for the flag.
    BadFlag,
    /// A message is to be moved to the mailbox that it is in.
    SameMailbox,
    /// As many actions are unsettled as may be.
    QueueFull,
    /// The message has too many bytes.
    TooLarge,
    /// The message has a byte 0.
    BadText,
    /// The message has no Message-ID, more than one, or one that is too long or without the form.
    NoMessageId,
}
