//! What a text is kept under.

ghost use Rattle.std.specs.Prelude.{◌≡◌};
ghost use Rattle.body_cache.specs.Shelf.{is_same_key};

use mail_base::{BoxName, Bytes, Validity};
use uid_sets::Uid;

/// A message of a mailbox, by its UID under the mailbox's UIDVALIDITY (RFC 9051, section 2.3.1.1).
#[derive(Debug, Drop)]
pub struct Key {
    pub name: BoxName,
    pub validity: Validity,
    pub uid: Uid,
}

impl Key {
    /// The same key once more. It takes no memory.
    pub fn copy(&self) -> Key
        ensures { result ≡ self.now }
    {
        Key {
            name: self.name.copy(),
            validity: self.validity,
            uid: self.uid,
        }
    }

    /// Whether both keys are of the same message.
    pub fn is_same(&self, other: &Key) -> bool
        ensures { result ≡ is_same_key self.now other.now }
    {
        self.name.as_bytes() == other.name.as_bytes()
            && self.validity.number() == other.validity.number()
            && self.uid.number() == other.uid.number()
    }
}

/// A text with its key.
#[derive(Drop)]
pub struct KeptText {
    pub key: Key,
    pub text: Bytes,
}
