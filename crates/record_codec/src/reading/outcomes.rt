//! Reads how an action ended.

ghost use Rattle.std.specs.Prelude.{◌≡◌};
ghost use Rattle.record_codec.specs.Reading.{landed_at, place_at, changed_at, unknown_at, unsure_at, ambiguous_at, changed_validity_at, reset_loss_at, kind_by, kind_at, done_at, conflict_at, outcome_at};
ghost use Rattle.record_codec.specs.Giving.{Gives};

use super::Fields;
use crate::misfit::Misfit;
use action_queue::{Kind, Outcome, Place};

impl Fields<'_> {
    /// How an action ended.
    #[tactic(auto, unfolding(crate::specs::Reading::outcome_at))]
    pub(crate) fn outcome(&mut self) -> Result<Outcome, Misfit>
        ensures { Gives (λ x. x) result self.new.rest.now (outcome_at self.old.rest.now) }
    {
        let left = self.rest.len();
        let letter = self.byte()?;
        if letter == b'D' {
            return self.done();
        }
        if letter == b'C' {
            return self.conflict();
        }
        Err(Misfit::Left(left))
    }

    // Done, and where a message landed.
    #[tactic(auto, unfolding(crate::specs::Reading::done_at))]
    fn done(&mut self) -> Result<Outcome, Misfit>
        ensures { Gives (λ x. x) result self.new.rest.now (done_at self.old.rest.now) }
    {
        let place = self.place()?;
        Ok(Outcome::Done { place })
    }

    // Why an action is a conflict.
    #[tactic(auto, unfolding(crate::specs::Reading::conflict_at))]
    fn conflict(&mut self) -> Result<Outcome, Misfit>
        ensures { Gives (λ x. x) result self.new.rest.now (conflict_at self.old.rest.now) }
    {
        let kind = self.kind()?;
        Ok(Outcome::Conflict(kind))
    }

    // Whether a message landed somewhere, and where.
    #[tactic(auto, unfolding(crate::specs::Reading::place_at))]
    fn place(&mut self) -> Result<Option<Place>, Misfit>
        ensures { Gives (λ x. x) result self.new.rest.now (place_at self.old.rest.now) }
    {
        let left = self.rest.len();
        let told = self.byte()?;
        if told == 0 {
            return Ok(None);
        }
        if told == 1 {
            return self.landed();
        }
        Err(Misfit::Left(left))
    }

    // Where a message landed.
    #[tactic(auto, unfolding(crate::specs::Reading::landed_at))]
    fn landed(&mut self) -> Result<Option<Place>, Misfit>
        ensures { Gives (λ x. x) result self.new.rest.now (landed_at self.old.rest.now) }
    {
        let validity = self.validity()?;
        let uid = self.uid()?;
        Ok(Some(Place { validity, uid }))
    }

    // A kind of conflict, with its numbers.
    #[tactic(auto, unfolding(crate::specs::Reading::kind_at))]
    fn kind(&mut self) -> Result<Kind, Misfit>
        ensures { Gives (λ x. x) result self.new.rest.now (kind_at self.old.rest.now) }
    {
        let left = self.rest.len();
        let number = self.byte()?;
        self.kind_of(number, left)
    }

    // The numbers of a kind.
    fn kind_of(&mut self, number: u8, left: usize) -> Result<Kind, Misfit>
        ensures { Gives (λ x. x) result self.new.rest.now (kind_by number left self.old.rest.now) }
    {
        match number {
            1 => Ok(Kind::MessageGone),
            2 => Ok(Kind::AlreadySo),
            3 => self.changed(),
            4 => Ok(Kind::RefusedNo),
            5 => Ok(Kind::RefusedBad),
            6 => Ok(Kind::NotPermanent),
            7 => self.unknown(),
            8 => Ok(Kind::FoundSo),
            9 => self.unsure(),
            10 => Ok(Kind::SourceGone),
            11 => Ok(Kind::GoneAfterLoss),
            12 => self.ambiguous(),
            13 => self.changed_validity(),
            14 => self.reset_loss(),
            _ => Err(Misfit::Left(left)),
        }
    }

    // The mod-sequence with which a message was seen that has changed.
    #[tactic(auto, unfolding(crate::specs::Reading::changed_at))]
    fn changed(&mut self) -> Result<Kind, Misfit>
        ensures { Gives (λ x. x) result self.new.rest.now (changed_at self.old.rest.now) }
    {
        let m = self.modseq()?;
        Ok(Kind::FlagsChanged { m })
    }

    // The action that was to make a message.
    #[tactic(auto, unfolding(crate::specs::Reading::unknown_at))]
    fn unknown(&mut self) -> Result<Kind, Misfit>
        ensures { Gives (λ x. x) result self.new.rest.now (unknown_at self.old.rest.now) }
    {
        let k = self.id()?;
        Ok(Kind::TargetUnknown { k })
    }

    // Two mod-sequences.
    #[tactic(auto, unfolding(crate::specs::Reading::unsure_at))]
    fn unsure(&mut self) -> Result<Kind, Misfit>
        ensures { Gives (λ x. x) result self.new.rest.now (unsure_at self.old.rest.now) }
    {
        let m = self.modseq()?;
        let f = self.modseq()?;
        Ok(Kind::StoreUnsure { m, f })
    }

    // Two UIDs.
    #[tactic(auto, unfolding(crate::specs::Reading::ambiguous_at))]
    fn ambiguous(&mut self) -> Result<Kind, Misfit>
        ensures { Gives (λ x. x) result self.new.rest.now (ambiguous_at self.old.rest.now) }
    {
        let u = self.uid()?;
        let v = self.uid()?;
        Ok(Kind::Ambiguous { u, v })
    }

    // The UIDVALIDITY of a message, and the greater one of its mailbox.
    #[tactic(auto, unfolding(crate::specs::Reading::changed_validity_at))]
    fn changed_validity(&mut self) -> Result<Kind, Misfit>
        ensures { Gives (λ x. x) result self.new.rest.now (changed_validity_at self.old.rest.now) }
    {
        let o = self.validity()?;
        let n = self.validity()?;
        Ok(Kind::ValidityChanged { o, n })
    }

    // The UIDVALIDITY of an intent, and the greater one of its mailbox.
    #[tactic(auto, unfolding(crate::specs::Reading::reset_loss_at))]
    fn reset_loss(&mut self) -> Result<Kind, Misfit>
        ensures { Gives (λ x. x) result self.new.rest.now (reset_loss_at self.old.rest.now) }
    {
        let o = self.validity()?;
        let n = self.validity()?;
        Ok(Kind::ResetAfterLoss { o, n })
    }
}
