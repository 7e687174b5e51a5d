//! What is heard.

use imap_model::Command;
use mail_base::{BoxName, Tag};

/// What the parts of a text are, as far as they have come.
#[derive(Drop)]
pub enum Heard {
    /// The whole text of a command under its tag.
    Command { tag: Tag, command: Command },
    /// The front of one: the client waits to be asked for the next part. `append` is the mailbox that an APPEND names.
    Front { tag: Tag, append: Option<BoxName> },
    /// Neither.
    Nothing,
}
