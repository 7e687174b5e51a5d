//! The names of the journal's files in its folder.

/// The left file, which is locked.
pub const LEFT: &str = "journal.0";

/// The right file.
pub const RIGHT: &str = "journal.1";

/// The mark of a sync that failed.
pub const FAILED: &str = "journal.failed";
