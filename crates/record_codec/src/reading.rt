//! Reads the fields of a record's body from the left.

ghost use Rattle.std.specs.Prelude.{◌≡◌, is_some, IfSome, length};
ghost use Rattle.std.specs.Int.{w16, w32, w64};
ghost use Rattle.record_codec.specs.Reading.{byte_at, number_at, nonzero_at, modseq_at, counted_at, octets_at, is_name, name_at, real_at, dummy_at, target_at};
ghost use Rattle.record_codec.specs.Giving.{Gives};

mod actions;
mod deltas;
mod events;
mod intents;
mod keys;
mod names;
mod outcomes;

use crate::misfit::Misfit;
use action_queue::Target;
use mail_base::{ActionId, BoxName, ModSeq, Validity};
use uid_sets::Uid;

/// What is left of a body.
#[derive(Drop)]
pub(crate) struct Fields<'a> {
    rest: &'a [u8],
}

impl<'a> Fields<'a> {
    /// All of a body.
    pub(crate) fn of(body: &'a [u8]) -> Fields<'a>
        ensures { result.rest.now ≡ body.now }
    {
        Fields { rest: body }
    }

    /// How many bytes are left.
    pub(crate) fn left(&self) -> usize
        ensures { result ≡ length self.now.rest.now }
    {
        self.rest.len()
    }

    /// A byte.
    #[tactic(auto, unfolding(crate::specs::Reading::byte_at))]
    pub(crate) fn byte(&mut self) -> Result<u8, Misfit>
        ensures { Gives (λ x. x) result self.new.rest.now (byte_at self.old.rest.now) }
    {
        match self.rest {
            [first, rest @ ..] => {
                self.rest = rest;
                Ok(*first)
            }
            [] => Err(Misfit::Left(0)),
        }
    }

    /// A number of two bytes.
    #[tactic(auto, unfolding(crate::specs::Reading::number_at))]
    pub(crate) fn u16(&mut self) -> Result<u16, Misfit>
        ensures { Gives (λ x. x) result self.new.rest.now (number_at w16 self.old.rest.now) }
    {
        if self.rest.len() < 2 {
            return Err(Misfit::Left(self.rest.len()));
        }
        let (front, rest) = self.rest.split_at(2);
        self.rest = rest;
        Ok(u16::from_be_bytes([front[0], front[1]]))
    }

    /// A number of four bytes.
    #[tactic(auto, unfolding(crate::specs::Reading::number_at))]
    pub(crate) fn u32(&mut self) -> Result<u32, Misfit>
        ensures { Gives (λ x. x) result self.new.rest.now (number_at w32 self.old.rest.now) }
    {
        if self.rest.len() < 4 {
            return Err(Misfit::Left(self.rest.len()));
        }
        let (front, rest) = self.rest.split_at(4);
        self.rest = rest;
        Ok(u32::from_be_bytes([front[0], front[1], front[2], front[3]]))
    }

    /// A number of eight bytes.
    #[tactic(auto, unfolding(crate::specs::Reading::number_at))]
    pub(crate) fn u64(&mut self) -> Result<u64, Misfit>
        ensures { Gives (λ x. x) result self.new.rest.now (number_at w64 self.old.rest.now) }
    {
        if self.rest.len() < 8 {
            return Err(Misfit::Left(self.rest.len()));
        }
        let (front, rest) = self.rest.split_at(8);
        self.rest = rest;
        Ok(u64::from_be_bytes([
            front[0], front[1], front[2], front[3], front[4], front[5], front[6], front[7],
        ]))
    }

    /// A UID.
    #[tactic(auto, unfolding(crate::specs::Reading::nonzero_at))]
    pub(crate) fn uid(&mut self) -> Result<Uid, Misfit>
        ensures { Gives (λ x. x) result self.new.rest.now (nonzero_at self.old.rest.now) }
    {
        let left = self.rest.len();
        let number = self.u32()?;
        match Uid::new(number) {
            Some(value) => Ok(value),
            None => Err(Misfit::Left(left)),
        }
    }

    /// A UIDVALIDITY.
    #[tactic(auto, unfolding(crate::specs::Reading::nonzero_at))]
    pub(crate) fn validity(&mut self) -> Result<Validity, Misfit>
        ensures { Gives (λ x. x) result self.new.rest.now (nonzero_at self.old.rest.now) }
    {
        let left = self.rest.len();
        let number = self.u32()?;
        match Validity::new(number) {
            Some(value) => Ok(value),
            None => Err(Misfit::Left(left)),
        }
    }

    /// An action's number.
    #[tactic(auto, unfolding(crate::specs::Reading::nonzero_at))]
    pub(crate) fn id(&mut self) -> Result<ActionId, Misfit>
        ensures { Gives (λ x. x) result self.new.rest.now (nonzero_at self.old.rest.now) }
    {
        let left = self.rest.len();
        let number = self.u32()?;
        match ActionId::new(number) {
            Some(value) => Ok(value),
            None => Err(Misfit::Left(left)),
        }
    }

    /// A mod-sequence.
    #[tactic(auto, unfolding(crate::specs::Reading::modseq_at))]
    pub(crate) fn modseq(&mut self) -> Result<ModSeq, Misfit>
        ensures { Gives (λ x. x) result self.new.rest.now (modseq_at self.old.rest.now) }
    {
        let left = self.rest.len();
        let number = self.u64()?;
        match ModSeq::new(number) {
            Some(value) => Ok(value),
            None => Err(Misfit::Left(left)),
        }
    }

    /// A text behind its length in one byte.
    #[tactic(auto, unfolding(crate::specs::Reading::counted_at))]
    pub(crate) fn counted(&mut self) -> Result<&'a [u8], Misfit>
        ensures { Gives (λ x. x.now) result self.new.rest.now (counted_at self.old.rest.now) }
    {
        let Some((size, behind)) = self.rest.split_first() else {
            return Err(Misfit::Left(0));
        };
        let size = *size as usize;
        if behind.len() < size {
            return Err(Misfit::Left(self.rest.len()));
        }
        let (text, rest) = behind.split_at(size);
        self.rest = rest;
        Ok(text)
    }

    /// So many bytes.
    #[tactic(auto, unfolding(crate::specs::Reading::octets_at))]
    pub(crate) fn octets(&mut self, size: usize) -> Result<&'a [u8], Misfit>
        ensures { Gives (λ x. x.now) result self.new.rest.now (octets_at size self.old.rest.now) }
    {
        if self.rest.len() < size {
            return Err(Misfit::Left(self.rest.len()));
        }
        let (text, rest) = self.rest.split_at(size);
        self.rest = rest;
        Ok(text)
    }

    /// A name of a mailbox.
    #[tactic(auto, unfolding(crate::specs::Reading::name_at))]
    pub(crate) fn name(&mut self) -> Result<BoxName, Misfit>
        ensures { Gives (λ x. x) result self.new.rest.now (name_at self.old.rest.now) }
    {
        let left = self.rest.len();
        let text = self.counted()?;
        match kept_name(text) {
            Some(name) => Ok(name),
            None => Err(Misfit::Left(left)),
        }
    }

    // A message of a mailbox.
    #[tactic(auto, unfolding(crate::specs::Reading::real_at))]
    fn real(&mut self) -> Result<Target, Misfit>
        ensures { Gives (λ x. x) result self.new.rest.now (real_at self.old.rest.now) }
    {
        let name = self.name()?;
        let validity = self.validity()?;
        let uid = self.uid()?;
        Ok(Target::Real {
            name,
            validity,
            uid,
        })
    }

    // The message that an action makes.
    #[tactic(auto, unfolding(crate::specs::Reading::dummy_at))]
    fn dummy(&mut self) -> Result<Target, Misfit>
        ensures { Gives (λ x. x) result self.new.rest.now (dummy_at self.old.rest.now) }
    {
        let id = self.id()?;
        Ok(Target::Dummy(id))
    }

    /// The message that an action is about.
    #[tactic(auto, unfolding(crate::specs::Reading::target_at))]
    pub(crate) fn target(&mut self) -> Result<Target, Misfit>
        ensures { Gives (λ x. x) result self.new.rest.now (target_at self.old.rest.now) }
    {
        let left = self.rest.len();
        let letter = self.byte()?;
        if letter == b'R' {
            return self.real();
        }
        if letter == b'D' {
            return self.dummy();
        }
        Err(Misfit::Left(left))
    }
}

// The name that is kept as these bytes, if one is.
fn kept_name(text: &[u8]) -> Option<BoxName>
    ensures some { IfSome result (λ name. name ≡ text.now) }
    ensures test { is_some result ≡ is_name text.now }
{
    match BoxName::new(text) {
        Ok(name) => {
            if name.as_bytes() == text {
                Some(name)
            } else {
                None
            }
        }
        Err(_) => None,
    }
}
