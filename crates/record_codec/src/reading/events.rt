//! Reads an event.

ghost use Rattle.std.specs.Prelude.{◌≡◌};
ghost use Rattle.record_codec.specs.Reading.{plain, begin_at, accept_at, intend_at, settle_at, learn_at, old_at, reset_at, withdraw_at, plain_at};
ghost use Rattle.record_codec.specs.Giving.{Gives};

use super::Fields;
use crate::misfit::Misfit;
use action_queue::Event;
use std::alloc::Global;

impl Fields<'_> {
    /// An event.
    #[tactic(auto, unfolding(crate::specs::Reading::plain_at))]
    pub(crate) fn event(&mut self, alloc: Global) -> Result<Event, Misfit>
        ensures { Gives plain result self.new.rest.now (plain_at self.old.rest.now) }
    {
        let left = self.rest.len();
        let letter = self.byte()?;
        if letter == b'B' {
            return self.begin(alloc);
        }
        if letter == b'A' {
            return self.accept(alloc);
        }
        if letter == b'I' {
            return self.intend();
        }
        if letter == b'S' {
            return self.settle();
        }
        if letter == b'L' {
            return self.learn(alloc);
        }
        if letter == b'O' {
            return self.ended(alloc);
        }
        if letter == b'R' {
            return self.reset();
        }
        if letter == b'W' {
            return self.withdraw();
        }
        Err(Misfit::Left(left))
    }

    // The names with which a journal begins.
    #[tactic(auto, unfolding(crate::specs::Reading::begin_at))]
    fn begin(&mut self, alloc: Global) -> Result<Event, Misfit>
        ensures { Gives plain result self.new.rest.now (begin_at self.old.rest.now) }
    {
        let names = self.name_list(alloc)?;
        Ok(Event::Begin { names })
    }

    // An action that is accepted.
    #[tactic(auto, unfolding(crate::specs::Reading::accept_at))]
    fn accept(&mut self, alloc: Global) -> Result<Event, Misfit>
        ensures { Gives plain result self.new.rest.now (accept_at self.old.rest.now) }
    {
        let id = self.id()?;
        let action = self.action(alloc)?;
        Ok(Event::Accept { id, action })
    }

    // What was about to be sent for an action.
    #[tactic(auto, unfolding(crate::specs::Reading::intend_at))]
    fn intend(&mut self) -> Result<Event, Misfit>
        ensures { Gives plain result self.new.rest.now (intend_at self.old.rest.now) }
    {
        let id = self.id()?;
        let intent = self.intent()?;
        Ok(Event::Intend { id, intent })
    }

    // How an action ended.
    #[tactic(auto, unfolding(crate::specs::Reading::settle_at))]
    fn settle(&mut self) -> Result<Event, Misfit>
        ensures { Gives plain result self.new.rest.now (settle_at self.old.rest.now) }
    {
        let id = self.id()?;
        let outcome = self.outcome()?;
        Ok(Event::Settle { id, outcome })
    }

    // What a mailbox became.
    #[tactic(auto, unfolding(crate::specs::Reading::learn_at))]
    fn learn(&mut self, alloc: Global) -> Result<Event, Misfit>
        ensures { Gives plain result self.new.rest.now (learn_at self.old.rest.now) }
    {
        let name = self.name()?;
        let delta = self.delta(alloc)?;
        Ok(Event::Learn { name, delta })
    }

    // An action that has ended, with how it did.
    #[tactic(auto, unfolding(crate::specs::Reading::old_at))]
    fn ended(&mut self, alloc: Global) -> Result<Event, Misfit>
        ensures { Gives plain result self.new.rest.now (old_at self.old.rest.now) }
    {
        let id = self.id()?;
        let action = self.action(alloc)?;
        let outcome = self.outcome()?;
        Ok(Event::Old {
            id,
            action,
            outcome,
        })
    }

    // A mailbox whose UIDVALIDITY rose.
    #[tactic(auto, unfolding(crate::specs::Reading::reset_at))]
    fn reset(&mut self) -> Result<Event, Misfit>
        ensures { Gives plain result self.new.rest.now (reset_at self.old.rest.now) }
    {
        let name = self.name()?;
        let kept = self.validity()?;
        let told = self.validity()?;
        Ok(Event::Reset { name, kept, told })
    }

    // A command that was taken back.
    #[tactic(auto, unfolding(crate::specs::Reading::withdraw_at))]
    fn withdraw(&mut self) -> Result<Event, Misfit>
        ensures { Gives plain result self.new.rest.now (withdraw_at self.old.rest.now) }
    {
        let id = self.id()?;
        let tries = self.byte()?;
        Ok(Event::Withdraw { id, tries })
    }
}
