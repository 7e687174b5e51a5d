//! How many bytes a server may tell at once.

ghost use Rattle.std.specs.Prelude.{◌≡◌};
ghost use Rattle.imap_session.specs.Most.{most_of};

use imap_model::Command;

/// How many bytes the greeting may have, and the reply to each command before the first SELECT: twice what a line may have. A
/// list of capabilities has a few hundred (RFC 9051, sections 6.1.1 and 7.1).
pub const MOST_BEFORE: u32 = 2_097_152;

/// How many bytes a reply may have from the first SELECT on.
pub const MOST: u32 = 268_435_456;

/// How many bytes the reply to this command may have.
pub fn most_of(command: &Command) -> u32
    ensures { result ≡ most_of command.now }
{
    match command {
        Command::Capability
        | Command::Login { .. }
        | Command::Plain { .. }
        | Command::Enable { .. } => MOST_BEFORE,
        Command::Select { .. }
        | Command::FetchAll
        | Command::FetchRow { .. }
        | Command::Search { .. }
        | Command::FetchIds { .. }
        | Command::FetchText { .. }
        | Command::Store { .. }
        | Command::Shift { .. }
        | Command::Copy { .. }
        | Command::Expunge { .. }
        | Command::Append { .. }
        | Command::Logout => MOST,
    }
}
