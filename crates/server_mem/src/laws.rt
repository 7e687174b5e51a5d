//! What holds of what is heard (RFC 9051, sections 2.2.1 and 4.3) and answered (section 7.1).

ghost use Rattle.server_mem.specs.Denied.{DeniesExactly};
ghost use Rattle.server_mem.specs.TwoPieces.{TwoPieces};

/// What is heard in two pieces is what is heard in one.
pub fn two_pieces()
    ensures { TwoPieces }
{}

/// A command is answered NO exactly where a mailbox that it names isn't there, it needs a selected mailbox and none is
/// selected, a rule forbids what it would change, the message changed since the mark, or nothing is appended to the mailbox;
/// and else by OK.
pub fn denies_exactly()
    ensures { DeniesExactly }
{}
