//! The queue of actions, with the number of those that are settled.

ghost use Rattle.std.specs.Prelude.{◌≡◌, ◌≤◌, ◌<◌, ◌∷◌, ◌++◌, [], length, IfOk, OnOk, None};
ghost use Rattle.std.specs.Option.{option_copied};
ghost use Rattle.action_queue.specs.Queues.{due, due_action, accepted, ended, settled, tried, change_first};

use crate::{Action, Outcome, Queued};
use mail_base::MAX_ACTIONS;
use std::alloc::{AllocError, Global};
use std::marker::Model;

/// Actions in the order in which they were accepted, the settled ones first. How many are settled is kept, and not
/// searched for. Contracts see the actions, and how many more are taken without memory.
#[derive(Drop)]
pub struct Queue {
    items: Vec<Queued>,
    settled: usize,
}

impl Model for Queue {
    ghost use Rattle.mail_base.specs.declared.limits.TheConstants.{MAX_ACTIONS};
    ghost use Rattle.std.specs.Prelude.{◌≡◌, ◌≤◌, ◌-◌, length, vec_len, vec_capacity};
    ghost use Rattle.action_queue.specs.Queues.{Entries, due, IsInOrder};

    ghost Value = { Entries };

    ghost view = { λ queue. record { items = queue.items.items; spare = vec_capacity queue.items - vec_len queue.items } };

    ghost invariant = { λ queue. (queue.settled ≡ due queue.items.items) × IsInOrder queue.items.items × (length queue.items.items ≤ MAX_ACTIONS) };
}

impl Queue {
    /// No actions. It takes no memory.
    pub fn new(alloc: Global) -> Queue
        ensures { result.items ≡ [] }
    {
        Queue {
            items: Vec::new(alloc),
            settled: 0,
        }
    }

    /// The actions, to read them.
    pub fn as_slice(&self) -> &[Queued]
        ensures { result.now ≡ self.now.items }
    {
        &self.items
    }

    /// How many actions there are.
    pub fn len(&self) -> usize
        ensures value { result ≡ length self.now.items }
        ensures most { result ≤ MAX_ACTIONS }
    {
        self.items.len()
    }

    /// How many actions are settled before the first unsettled one.
    pub fn settled(&self) -> usize
        ensures value { result ≡ due self.now.items }
        ensures within { result ≤ length self.now.items }
        ensures most { result ≤ MAX_ACTIONS }
    {
        self.settled
    }

    /// The action that is due, if one is unsettled.
    pub fn due(&self) -> Option<&Queued>
        ensures { option_copied result ≡ due_action self.now.items }
    {
        self.items.get(self.settled)
    }

    // Where its memory comes from.
    pub(crate) fn allocator(&self) -> Global {
        *self.items.allocator()
    }

    // Makes room for one more action. On want of memory nothing changes.
    pub(crate) fn reserve(&mut self) -> Result<(), AllocError>
        ensures same { self.new.items ≡ self.old.items }
        ensures room { OnOk result (1 ≤ self.new.spare) }
    {
        self.items.reserve(1)
    }

    // Accepts an action.
    pub(crate) fn accept(&mut self, action: Action)
        requires room { 1 ≤ self.old.spare }
        requires few { length self.old.items < MAX_ACTIONS }
        ensures { self.new.items ≡ self.old.items ++ accepted action ∷ [] }
    {
        self.items.push_reserved(Queued {
            action,
            outcome: None,
            tries: 0,
        });
    }

    // Puts an action that ended behind the others, which all have an outcome.
    pub(crate) fn add_ended(&mut self, action: Action, outcome: Outcome)
        requires room { 1 ≤ self.old.spare }
        requires few { length self.old.items < 1000000 }
        requires all { due_action self.old.items ≡ None }
        ensures { self.new.items ≡ self.old.items ++ ended action outcome ∷ [] }
    {
        self.items.push_reserved(Queued {
            action,
            outcome: Some(outcome),
            tries: 0,
        });
        self.settled += 1;
    }

    // Gives the action that is due its outcome.
    pub(crate) fn settle(&mut self, outcome: Outcome)
        requires { due self.old.items < length self.old.items }
        ensures { self.new.items ≡ change_first (settled outcome) self.old.items }
    {
        let queued = &mut self.items[self.settled];
        queued.outcome = Some(outcome);
        queued.tries = 0;
        self.settled += 1;
    }

    // Tells how many tries of the action that is due were taken back.
    pub(crate) fn withdraw(&mut self, tries: u8)
        requires { due self.old.items < length self.old.items }
        ensures { self.new.items ≡ change_first (tried tries) self.old.items }
    {
        let queued = &mut self.items[self.settled];
        queued.tries = tries;
    }

    /// The same actions once more. Fails for want of memory alone.
    pub fn copy(&self) -> Result<Queue, AllocError>
        ensures { IfOk result (λ queue. queue.items ≡ self.now.items) }
    {
        let items = copied(self.allocator(), &self.items)?;
        Ok(Queue {
            items,
            settled: self.settled,
        })
    }
}

// The same actions once more.
fn copied(alloc: Global, items: &[Queued]) -> Result<Vec<Queued>, AllocError>
    ensures { IfOk result (λ copies. copies.items ≡ items.now) }
{
    let mut copies = Vec::with_capacity(alloc, items.len())?;
    for item in items {
        copies.push(item.copy()?)?;
    }
    Ok(copies)
}
