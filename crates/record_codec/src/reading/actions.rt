//! Reads what is asked: actions and their parts.

ghost use Rattle.std.specs.Prelude.{◌≡◌, ℕ, length, None, Some, IfOk, IfErr, IfSome, IfNone};
ghost use Rattle.mail_header.specs.Identifier.{id_bodies};
ghost use Rattle.record_codec.specs.Reading.{sign_at, the_id, text_at, flag_at, move_at, append_at, action_at};
ghost use Rattle.record_codec.specs.Giving.{Gives};

use super::Fields;
use crate::misfit::Misfit;
use action_queue::Action;
use mail_base::Bytes;
use mail_header::{IdFault, message_id};
use std::alloc::Global;

impl Fields<'_> {
    /// What an action asks.
    #[tactic(auto, unfolding(crate::specs::Reading::action_at))]
    pub(crate) fn action(&mut self, alloc: Global) -> Result<Action, Misfit>
        ensures { Gives (λ x. x) result self.new.rest.now (action_at self.old.rest.now) }
    {
        let left = self.rest.len();
        let letter = self.byte()?;
        if letter == b'F' {
            return self.flag(alloc);
        }
        if letter == b'M' {
            return self.moved();
        }
        if letter == b'P' {
            return self.append(alloc);
        }
        Err(Misfit::Left(left))
    }

    // Flags of a message.
    #[tactic(auto, unfolding(crate::specs::Reading::flag_at))]
    fn flag(&mut self, alloc: Global) -> Result<Action, Misfit>
        ensures { Gives (λ x. x) result self.new.rest.now (flag_at self.old.rest.now) }
    {
        let target = self.target()?;
        let add = self.sign()?;
        let flags = self.flags(alloc, 1)?;
        Ok(Action::Flag { target, add, flags })
    }

    // Whether flags are added.
    #[tactic(auto, unfolding(crate::specs::Reading::sign_at))]
    fn sign(&mut self) -> Result<bool, Misfit>
        ensures { Gives (λ x. x) result self.new.rest.now (sign_at self.old.rest.now) }
    {
        let left = self.rest.len();
        let sign = self.byte()?;
        if sign == b'+' {
            return Ok(true);
        }
        if sign == b'-' {
            return Ok(false);
        }
        Err(Misfit::Left(left))
    }

    // A message and a mailbox.
    #[tactic(auto, unfolding(crate::specs::Reading::move_at))]
    fn moved(&mut self) -> Result<Action, Misfit>
        ensures { Gives (λ x. x) result self.new.rest.now (move_at self.old.rest.now) }
    {
        let target = self.target()?;
        let to = self.name()?;
        Ok(Action::Move { target, to })
    }

    // A mailbox, flags and a text.
    #[tactic(auto, unfolding(crate::specs::Reading::append_at))]
    fn append(&mut self, alloc: Global) -> Result<Action, Misfit>
        ensures { Gives (λ x. x) result self.new.rest.now (append_at self.old.rest.now) }
    {
        let to = self.name()?;
        let flags = self.flags(alloc, 0)?;
        let (text, id) = self.text(alloc)?;
        Ok(Action::Append {
            to,
            flags,
            text,
            id,
        })
    }

    // A text behind its size, and its Message-ID.
    #[tactic(auto, unfolding(crate::specs::Reading::text_at))]
    fn text(&mut self, alloc: Global) -> Result<(Bytes, Bytes), Misfit>
        ensures { Gives (λ x. x) result self.new.rest.now (text_at self.old.rest.now) }
    {
        let size = self.u32()?;
        let left = self.rest.len();
        let text = self.octets(size as usize)?;
        let Some(id) = id_of(alloc, text)? else {
            return Err(Misfit::Left(left));
        };
        let copy = Vec::from_slice(alloc, text)?;
        Ok((Bytes::of(copy), id))
    }
}

// The Message-ID of a text, if it has one.
fn id_of(alloc: Global, text: &[u8]) -> Result<Option<Bytes>, Misfit>
    ensures some { IfOk result (λ told. IfSome told (λ id. the_id (id_bodies text.now) ≡ Some id)) }
    ensures none { IfOk result (λ told. IfNone told (the_id (id_bodies text.now) ≡ None)) }
    ensures memory { IfErr result (λ misfit. misfit ≡ Misfit.Memory) }
{
    match message_id(alloc, text) {
        Ok(id) => Ok(Some(Bytes::of(id))),
        Err(fault) => match fault {
            IdFault::Memory => Err(Misfit::Memory),
            _ => Ok(None),
        },
    }
}
