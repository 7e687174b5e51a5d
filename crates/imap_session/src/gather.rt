//! A listener that keeps the whole reply.

ghost use Rattle.std.specs.Prelude.{◌≡◌, []};
ghost use Rattle.imap_session.specs.Replying.{read_as};

use imap_model::{Last, Listen, Replies, Response};
use mail_base::List;
use std::alloc::{AllocError, Global};

/// Keeps the untagged responses of a reply, in the order in which they came.
#[derive(Drop)]
pub struct Gather {
    rows: List<Response>,
}

impl Gather {
    /// Nothing was taken yet.
    pub fn new(alloc: Global) -> Gather
        ensures { result.rows ≡ [] }
    {
        Gather {
            rows: List::new(alloc),
        }
    }

    /// The whole reply, with how it ended.
    pub fn replies(self, last: Last) -> Replies
        ensures { result ≡ read_as self.rows last.ending last.code }
    {
        let Last { ending, code } = last;
        Replies {
            untagged: self.rows,
            ending,
            code,
        }
    }
}

impl Listen for Gather {
    ghost Stands = { λ gather told. gather.rows ≡ told };

    fn take(&mut self, response: Response) -> Result<(), AllocError> {
        self.rows.push(response)
    }
}
