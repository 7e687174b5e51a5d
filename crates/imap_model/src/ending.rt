//! How a command ends (RFC 9051, section 7.1).

/// The word of a status response that completes a command, or that stands in an untagged one.
#[derive(Clone, Copy, Debug, PartialEq, Eq)]
pub enum Ending {
    /// OK: it was done.
    Ok,
    /// NO: it failed, and nothing changed.
    No,
    /// BAD: the server didn't take it for a command.
    Bad,
}
