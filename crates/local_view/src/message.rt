//! The messages that the user can see.

ghost use Rattle.std.specs.Prelude.{◌≡◌};
ghost use Rattle.action_queue.specs.Targets.{resolved};
ghost use Rattle.action_queue.specs.Book.{cache_at};
ghost use Rattle.action_queue.specs.declared.found.Found.TheVariants as found;
ghost use Rattle.local_view.specs.Messages.{message_of, is_under};

use action_queue::{Book, Found, Known, Target};
use dummy_ids::resolve;
use mail_base::{ActionId, BoxName, Validity};
use uid_sets::Uid;

/// A message: one of a mailbox's cache, or the one that an unsettled move or append makes.
#[derive(Drop)]
pub enum Message {
    Cached { name: BoxName, uid: Uid },
    Made(ActionId),
}

/// The message that a target resolves to, as far as the caches and the queue know of it.
pub(crate) fn message_of(book: &Book, target: &Target) -> Option<Message>
    ensures { result ≡ message_of book.now.boxes (resolved book.now.queue.items target.now) }
{
    match resolve(book, target) {
        Found::Real {
            name,
            validity,
            uid,
        } => cached(book, name, validity, uid),
        Found::NotYet { by } => Some(Message::Made(by)),
        Found::Never { .. } => None,
    }
}

// The message of a UID, where it is meant under the cache's UIDVALIDITY.
fn cached(book: &Book, name: BoxName, validity: Validity, uid: Uid) -> Option<Message>
    ensures { result ≡ message_of book.now.boxes (found.Real name validity uid) }
{
    if !is_under(book, &name, validity) {
        return None;
    }
    Some(Message::Cached { name, uid })
}

// Whether the mailbox has a cache of this UIDVALIDITY.
fn is_under(book: &Book, name: &BoxName, validity: Validity) -> bool
    ensures { result ≡ is_under validity (cache_at name.now book.now.boxes) }
{
    match book.known(name) {
        Some(
            Known {
                cache: Some(cache),
                ..
            },
        ) => cache.validity.number() == validity.number(),
        Some(Known { cache: None, .. }) | None => false,
    }
}
