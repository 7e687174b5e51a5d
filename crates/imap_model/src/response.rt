//! What a server sends (RFC 9051, section 7; RFC 7162, section 3.2.10).

ghost use Rattle.std.specs.Prelude.{◌≡◌, IfOk};

use crate::{Code, Ending, Fetched};
use mail_base::{Tag, Words};
use std::alloc::{AllocError, Global};
use uid_sets::UidSet;

/// One line of a server with its literals, as far as this client knows it.
#[derive(Drop)]
pub enum Response {
    /// A command is completed: OK, NO or BAD behind its tag.
    Done {
        tag: Tag,
        ending: Ending,
        code: Code,
    },
    /// OK, NO or BAD without a tag.
    Untagged {
        ending: Ending,
        code: Code,
    },
    /// BYE: the server ends the connection.
    Bye,
    /// PREAUTH: a greeting after which no login is due.
    Preauth {
        code: Code,
    },
    /// `+`: the next part of a command is awaited.
    Go,
    /// CAPABILITY: what the server can do.
    Capability(Words),
    /// ENABLED: what was switched on.
    Enabled(Words),
    /// EXISTS: how many messages the mailbox has.
    Exists(u32),
    /// FETCH: items of one message. Its number isn't kept.
    Fetch(Fetched),
    /// VANISHED: messages that are gone, `earlier` where they were gone before the mailbox was selected.
    Vanished {
        earlier: bool,
        uids: UidSet,
    },
    /// SEARCH or ESEARCH: the messages that were found.
    Found(UidSet),
    /// Any other untagged line.
    Other,
}

impl Response {
    /// The same response once more, or want of memory.
    pub fn copy(&self, alloc: Global) -> Result<Response, AllocError>
        ensures { IfOk result (λ response. response ≡ self.now) }
    {
        Ok(match self {
            Response::Done { tag, ending, code } => Response::Done {
                tag: *tag,
                ending: *ending,
                code: code.copy(alloc)?,
            },
            Response::Untagged { ending, code } => Response::Untagged {
                ending: *ending,
                code: code.copy(alloc)?,
            },
            Response::Bye => Response::Bye,
            Response::Preauth { code } => Response::Preauth {
                code: code.copy(alloc)?,
            },
            Response::Go => Response::Go,
            Response::Capability(words) => Response::Capability(words.copy(alloc)?),
            Response::Enabled(words) => Response::Enabled(words.copy(alloc)?),
            Response::Exists(count) => Response::Exists(*count),
            Response::Fetch(fetched) => Response::Fetch(fetched.copy()?),
            Response::Vanished { earlier, uids } => Response::Vanished {
                earlier: *earlier,
                uids: uids.copy()?,
            },
            Response::Found(uids) => Response::Found(uids.copy()?),
            Response::Other => Response::Other,
        })
    }
}
