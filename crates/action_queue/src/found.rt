//! What a target resolves to.

ghost use Rattle.std.specs.Prelude.{◌≡◌};
ghost use Rattle.action_queue.specs.Targets.{is_at, is_never};

use mail_base::{ActionId, BoxName, Validity};
use uid_sets::Uid;

/// What a target resolves to: a message of a mailbox, one that action `by` is still to make, or one that it never makes.
#[derive(Drop)]
pub enum Found {
    Real {
        name: BoxName,
        validity: Validity,
        uid: Uid,
    },
    NotYet {
        by: ActionId,
    },
    Never {
        by: ActionId,
    },
}

impl Found {
    /// Whether it is this message of this mailbox.
    pub(crate) fn is_at(&self, at: &BoxName, under: Validity, number: Uid) -> bool
        ensures { result ≡ is_at self.now at.now under number }
    {
        match self {
            Found::Real {
                name,
                validity,
                uid,
            } => *name == *at
                && validity.number() == under.number()
                && uid.number() == number.number(),
            Found::NotYet { .. } | Found::Never { .. } => false,
        }
    }

    /// Whether it is a message that this action never makes.
    pub(crate) fn is_never(&self, id: ActionId) -> bool
        ensures { result ≡ is_never self.now id }
    {
        match self {
            Found::Never { by } => by.number() == id.number(),
            Found::Real { .. } | Found::NotYet { .. } => false,
        }
    }
}
