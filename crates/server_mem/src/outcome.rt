//! How what is heard is answered.

use imap_model::Command;
use mail_base::{Bytes, Tag};

/// How the parts of a text were answered, as far as they have come.
#[derive(Drop)]
pub enum Answered {
    /// They are the whole text of a command, which was carried out.
    Carried { tag: Tag, command: Command },
    /// They are the front of a text, and the next part was asked for.
    Asked { tag: Tag },
    /// They are the front of an APPEND to the mailbox that is closed to it: NO was said in place of asking, and they were
    /// dropped.
    Refused { tag: Tag },
    /// They are no text: BAD was said, with the tag that they begin with, if they begin with one, and they were dropped.
    Bad { tag: Option<Tag> },
}

/// One more part of a text, and its answer.
#[derive(Drop)]
pub struct Answer {
    /// The part, octet for octet.
    pub part: Bytes,
    /// How the text was answered that it belongs to.
    pub answered: Answered,
    /// The lines that were told.
    pub lines: Vec<u8>,
}
