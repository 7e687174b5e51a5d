//! The whole reply to one command (RFC 9051, section 2.2.2).

ghost use Rattle.std.specs.Prelude.{◌≡◌, IfOk};

use crate::{Code, Ending, Response};
use mail_base::List;
use std::alloc::{AllocError, Global};

/// What a server sent to a command: the untagged responses in their order, and how the completion ended, with its code.
#[derive(Drop)]
pub struct Replies {
    pub untagged: List<Response>,
    pub ending: Ending,
    pub code: Code,
}

impl Replies {
    /// The same replies once more, or want of memory.
    pub fn copy(&self, alloc: Global) -> Result<Replies, AllocError>
        ensures { IfOk result (λ replies. replies ≡ self.now) }
    {
        Ok(Replies {
            untagged: copied(alloc, self.untagged.as_slice())?,
            ending: self.ending,
            code: self.code.copy(alloc)?,
        })
    }
}

fn copied(alloc: Global, responses: &[Response]) -> Result<List<Response>, AllocError>
    ensures { IfOk result (λ copies. copies ≡ responses.now) }
{
    let mut copies = List::new(alloc);
    for response in responses {
        copies.push(response.copy(alloc)?)?;
    }
    Ok(copies)
}
