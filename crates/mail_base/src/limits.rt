//! How much this client takes (this client's profile). Each number stands here alone.

/// The most messages of a mailbox.
pub const MAX_ROWS: usize = 200_000;

/// The most actions that wait to be played.
pub const MAX_QUEUE: usize = 65_535;

/// The most actions of a journal, whatever became of them.
pub const MAX_ACTIONS: usize = 1_000_000;

/// The most bytes of a message's text.
pub const MAX_TEXT: usize = 33_554_432;
