//! An action of the queue.

ghost use Rattle.std.specs.Prelude.{◌≡◌, IfOk};

use crate::{Action, Outcome};
use std::alloc::AllocError;

/// An accepted action, how it ended, where it has, and how often it was taken back for a further try.
#[derive(Drop)]
pub struct Queued {
    pub action: Action,
    pub outcome: Option<Outcome>,
    pub tries: u8,
}

impl Queued {
    /// The same once more. Fails for want of memory alone.
    pub fn copy(&self) -> Result<Queued, AllocError>
        ensures { IfOk result (λ queued. queued ≡ self.now) }
    {
        let action = self.action.copy()?;
        Ok(Queued {
            action,
            outcome: self.outcome,
            tries: self.tries,
        })
    }
}
