//! Whether a message is in the view of a mailbox.

ghost use Rattle.std.specs.Prelude.{◌≡◌, ℕ, true, false, IfOk, IsSome};
ghost use Rattle.action_queue.specs.Book.{meaning, cache_at};
ghost use Rattle.action_queue.specs.Rules.{is_bad_target};
ghost use Rattle.action_queue.specs.declared.target.Target.TheVariants as targets;
ghost use Rattle.local_view.specs.Listing.{view, has_row, shows};
ghost use Rattle.local_view.specs.Sights.{row_in};
ghost use Rattle.local_view.specs.declared.seen.Ident.TheVariants as ident;

use crate::listing::view;
use crate::{Ident, Seen};
use action_queue::Book;
use mail_base::BoxName;
use std::alloc::{AllocError, Global};

/// Whether a message is in the view of a mailbox. It costs what the view does. Fails for want of memory alone.
pub fn is_shown(alloc: Global, book: &Book, name: &BoxName, id: Ident) -> Result<bool, AllocError>
    ensures value { IfOk result (λ is. is ≡ has_row id (view (meaning book.now) name.now)) }

    // A UID that is in it is one of the mailbox's cache, and a dummy is made by a move or an append of the queue.
    ensures cached { IfOk result (λ is. is ≡ true → (uid : ℕ) → id ≡ ident.Real uid →
        IsSome (row_in uid (cache_at name.now book.now.boxes))) }
    ensures made { IfOk result (λ is. is ≡ true → (n : ℕ) → id ≡ ident.Dummy n →
        is_bad_target book.now.queue.items (targets.Dummy n) ≡ false) }
{
    let rows = view(alloc, book, name)?;
    Ok(is_among(&id, &rows))
}

// Whether one of the rows is this message's.
fn is_among(id: &Ident, rows: &[Seen]) -> bool
    ensures { result ≡ has_row id.now rows.now }
{
    rows.iter().any(|row| is_row_of(id, row))
}

// Whether a row is this message's.
fn is_row_of(id: &Ident, row: &Seen) -> bool
    ensures { result ≡ shows id.now row.now }
{
    match (id, &row.id) {
        (Ident::Real(uid), Ident::Real(other)) => uid.number() == other.number(),
        (Ident::Dummy(number), Ident::Dummy(other)) => number.number() == other.number(),
        (Ident::Real(_), Ident::Dummy(_)) | (Ident::Dummy(_), Ident::Real(_)) => false,
    }
}
