//! The mailbox of a message, as the user's words name it.

ghost use Rattle.std.specs.Prelude.{◌≡◌};
ghost use Rattle.std.specs.Option.{option_copied};
ghost use Rattle.dummy_ids.specs.Places.{to_of, to_of_queued, box_of, makes_into};
ghost use Rattle.action_queue.specs.Targets.{action_at};

use action_queue::{Action, Book, Queued, Target};
use mail_base::{ActionId, BoxName};

/// The mailbox that an action puts a message into. A flag action makes none.
pub fn to_of(action: &Action) -> Option<&BoxName>
    ensures { option_copied result ≡ to_of action.now }
{
    match action {
        Action::Flag { .. } => None,
        Action::Move { to, .. } | Action::Append { to, .. } => Some(to),
    }
}

/// Whether an action puts a message into this mailbox.
pub fn makes_into(action: &Action, name: &BoxName) -> bool
    ensures { result ≡ makes_into name.now action.now }
{
    match to_of(action) {
        Some(to) => *to == *name,
        None => false,
    }
}

/// The mailbox of a target: the one that it names, or, of a dummy, the one that its action puts the message into. `None` where
/// a dummy's number is that of no move or append.
pub fn box_of<'a>(book: &'a Book, target: &'a Target) -> Option<&'a BoxName>
    ensures { option_copied result ≡ box_of book.now.queue.items target.now }
{
    match target {
        Target::Real { name, .. } => Some(name),
        Target::Dummy(id) => to_of(&action_at(book, *id)?.action),
    }
}

// The action of this number.
fn action_at(book: &Book, id: ActionId) -> Option<&Queued>
    ensures { option_copied result ≡ action_at book.now.queue.items id }
{
    book.queue.as_slice().get(id.number() as usize - 1)
}
