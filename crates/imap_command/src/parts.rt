//! The text of a command as it is sent (RFC 9051, sections 4.3 and 7.6).

ghost use Rattle.std.specs.Prelude.{◌≡◌, length};

use mail_base::{Bytes, List};
use std::marker::Model;

/// The parts of a command's text, of which the last ends with the command's CRLF. Behind each other part the client
/// waits for a line that begins with `+`.
#[derive(Drop)]
pub struct Parts {
    list: List<Bytes>,
}

impl Model for Parts {
    ghost use Rattle.std.specs.Prelude.{List, ℕ};

    ghost Value = { List (List ℕ) };

    ghost view = { λ parts. parts.list };
}

impl Parts {
    /// The parts of a list. It takes no memory.
    pub(crate) fn of(list: List<Bytes>) -> Parts
        ensures { result ≡ list }
    {
        Parts { list }
    }

    /// How many parts there are.
    pub fn len(&self) -> usize
        ensures { result ≡ length self.now }
    {
        self.list.len()
    }

    /// The parts, in the order in which they are sent.
    pub fn as_slice(&self) -> &[Bytes]
        ensures { result.now ≡ self.now }
    {
        self.list.as_slice()
    }
}
