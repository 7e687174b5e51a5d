//! What a target resolves to.

ghost use Rattle.std.specs.Prelude.{◌≡◌, ◌↔◌, ℕ, List};
ghost use Rattle.action_queue.specs.Targets.{resolved};
ghost use Rattle.action_queue.specs.declared.found.Found.TheVariants as found;
ghost use Rattle.action_queue.specs.declared.target.Target.TheVariants as targets;
ghost use Rattle.dummy_ids.specs.Makers.{IsMaker, IsOpen, HasFailed, HasLanded};

use action_queue::{Book, Found, Target};

/// What a target resolves to: the message that it names, or, of a dummy, the one that its action has made, is still to make, or
/// never makes. It costs one look-up, however many actions there are, and takes no memory.
pub fn resolve(book: &Book, target: &Target) -> Found
    ensures value { result ≡ resolved book.now.queue.items target.now }

    // A message of the server stands for itself.
    ensures real { (name : List ℕ) (validity uid : ℕ) → (target.now ≡ targets.Real name validity uid) →
        result ≡ found.Real name validity uid }

    // A dummy is one of a move or an append of the queue. Its action is done, unsettled or a conflict, and so it has a place
    // in the mailbox that the action names, is still to come, or never comes.
    ensures landed { (n : ℕ) → (target.now ≡ targets.Dummy n) → IsMaker book.now.queue.items n → (to : List ℕ) (validity uid : ℕ) →
        (result ≡ found.Real to validity uid) ↔ HasLanded book.now.queue.items n to validity uid }
    ensures not_yet { (n : ℕ) → (target.now ≡ targets.Dummy n) → IsMaker book.now.queue.items n → (by : ℕ) →
        (result ≡ found.NotYet by) ↔ ((by ≡ n) × IsOpen book.now.queue.items n) }
    ensures never { (n : ℕ) → (target.now ≡ targets.Dummy n) → IsMaker book.now.queue.items n → (by : ℕ) →
        (result ≡ found.Never by) ↔ ((by ≡ n) × HasFailed book.now.queue.items n) }
{
    book.resolved(target)
}
