//! The message that an action is about.

ghost use Rattle.std.specs.Prelude.{◌≡◌};

use mail_base::{ActionId, BoxName, Validity};
use uid_sets::Uid;

/// A message: one of a mailbox, by its UID under a UIDVALIDITY (RFC 9051, section 2.3.1.1), or the one that a move or
/// an append of the queue makes, whose UID isn't known before.
#[derive(Drop)]
pub enum Target {
    Real {
        name: BoxName,
        validity: Validity,
        uid: Uid,
    },
    Dummy(ActionId),
}

impl Target {
    /// The same target once more. It takes no memory.
    pub fn copy(&self) -> Target
        ensures { result ≡ self.now }
    {
        match self {
            Target::Real {
                name,
                validity,
                uid,
            } => Target::Real {
                name: name.copy(),
                validity: *validity,
                uid: *uid,
            },
            Target::Dummy(id) => Target::Dummy(*id),
        }
    }
}
