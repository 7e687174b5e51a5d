//! Reads what was about to be sent.

ghost use Rattle.std.specs.Prelude.{◌≡◌};
ghost use Rattle.record_codec.specs.Reading.{store_at, shift_at, put_at, intent_at};
ghost use Rattle.record_codec.specs.Giving.{Gives};

use super::Fields;
use crate::misfit::Misfit;
use action_queue::Intent;

impl Fields<'_> {
    /// What was about to be sent.
    #[tactic(auto, unfolding(crate::specs::Reading::intent_at))]
    pub(crate) fn intent(&mut self) -> Result<Intent, Misfit>
        ensures { Gives (λ x. x) result self.new.rest.now (intent_at self.old.rest.now) }
    {
        let left = self.rest.len();
        let letter = self.byte()?;
        if letter == b'S' {
            return self.store();
        }
        if letter == b'M' {
            return self.shift();
        }
        if letter == b'P' {
            return self.put();
        }
        Err(Misfit::Left(left))
    }

    // A message and its mod-sequence.
    #[tactic(auto, unfolding(crate::specs::Reading::store_at))]
    fn store(&mut self) -> Result<Intent, Misfit>
        ensures { Gives (λ x. x) result self.new.rest.now (store_at self.old.rest.now) }
    {
        let name = self.name()?;
        let validity = self.validity()?;
        let uid = self.uid()?;
        let modseq = self.modseq()?;
        Ok(Intent::Store {
            name,
            validity,
            uid,
            modseq,
        })
    }

    // A message and a mailbox.
    #[tactic(auto, unfolding(crate::specs::Reading::shift_at))]
    fn shift(&mut self) -> Result<Intent, Misfit>
        ensures { Gives (λ x. x) result self.new.rest.now (shift_at self.old.rest.now) }
    {
        let from = self.name()?;
        let validity = self.validity()?;
        let uid = self.uid()?;
        let to = self.name()?;
        Ok(Intent::Shift {
            from,
            validity,
            uid,
            to,
        })
    }

    // A mailbox with its UIDVALIDITY and UIDNEXT.
    #[tactic(auto, unfolding(crate::specs::Reading::put_at))]
    fn put(&mut self) -> Result<Intent, Misfit>
        ensures { Gives (λ x. x) result self.new.rest.now (put_at self.old.rest.now) }
    {
        let to = self.name()?;
        let validity = self.validity()?;
        let uidnext = self.uid()?;
        Ok(Intent::Put {
            to,
            validity,
            uidnext,
        })
    }
}
