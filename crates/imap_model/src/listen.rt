//! What takes the responses of a reply, and how a reply ended (RFC 9051, section 2.2.2).

use crate::{Code, Ending, Response};
use std::alloc::AllocError;

/// Takes the untagged responses of a reply, one by one, as they come, in place of a list of them.
///
/// An impl keeps of them what it wants, and says by `Stands` what this has to do with the list of all that were taken.
/// Whoever asks begins with one that stands for no responses, hands each over as it is read, and knows at the end that
/// it stands for all of them, in their order.
pub trait Listen {
    ghost use Rattle.std.specs.Prelude.{◌≡◌, ◌++◌, [], ◌∷◌, List, OnOk, OnErr};
    ghost use Rattle.imap_model.specs.Small.{IsSmall};
    ghost use Rattle.imap_model.specs.declared.response.Response.{Response};

    /// What was taken are these responses.
    ghost Stands: { Self → List Response → Type 0 };

    /// Takes one response more. On want of memory all is as before, and the response is given up.
    fn take(&mut self, response: Response) -> Result<(), AllocError>
        requires small { IsSmall response }
        ensures taken { (list : List Response) → Stands self.old list →
            OnOk result (Stands self.new (list ++ response ∷ [])) }
        ensures kept { OnErr result (self.new ≡ self.old) };
}

/// How the reply to a command ended, with the code of its completion. What came before it went to a `Listen`.
#[derive(Drop)]
pub struct Last {
    pub ending: Ending,
    pub code: Code,
}
