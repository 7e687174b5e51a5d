//! What a server's answer may lack (RFC 7162; RFC 4315; RFC 6851).

/// A thing that this client needs of a server and that was not told.
#[derive(Clone, Copy, Debug, PartialEq, Eq)]
pub enum Item {
    /// QRESYNC among the capabilities, or among what was enabled.
    Qresync,
    /// UIDPLUS among the capabilities.
    Uidplus,
    /// MOVE among the capabilities.
    Move,
    /// A way to log in.
    Login,
    /// Mod-sequences in the mailbox: NOMODSEQ was told.
    ModSeqs,
    /// UIDs that stay: UIDNOTSTICKY was told.
    Sticky,
    /// The code UIDVALIDITY.
    UidValidity,
    /// The code UIDNEXT.
    UidNext,
    /// The code HIGHESTMODSEQ.
    HighestModSeq,
    /// The code COPYUID, with the one message that was moved.
    CopyUid,
    /// The code APPENDUID.
    AppendUid,
    /// FLAGS of a message.
    Flags,
    /// MODSEQ of a message.
    ModSeq,
    /// The row of a message.
    Row,
    /// BODY[] of a message, its whole text.
    Body,
}
