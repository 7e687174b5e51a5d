//! What is too large for this client (this client's profile).

/// A thing of which this client takes no more than so much.
#[derive(Clone, Copy, Debug, PartialEq, Eq)]
pub enum Limit {
    /// The octets of a literal.
    Literal,
    /// The bytes of a line, without its literals.
    Line,
    /// The bytes of the reply to one command.
    Reply,
    /// The messages of a mailbox.
    Rows,
    /// The different flags of a list.
    Flags,
    /// The bytes of a flag.
    Flag,
    /// The bytes of the journal.
    Journal,
    /// The actions of the journal.
    Actions,
    /// How often the journal can be written anew.
    Generation,
}
