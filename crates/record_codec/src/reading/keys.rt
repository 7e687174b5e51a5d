//! Reads flags: keys behind their count, which rise.

ghost use Rattle.std.specs.Prelude.{◌≡◌, ◌&&◌, ◌-◌, length, take, None, IfOk, IfErr, IfSome, is_some, is_none, true, OnOk, ◌∷◌, ◌++◌, []};
ghost use Rattle.std.specs.Str.{bytes_eq};
ghost use Rattle.flag_set.specs.Flag.{refusal};
ghost use Rattle.flag_set.specs.FlagKey.{key_of};
ghost use Rattle.flag_set.specs.FlagSet.{IsFlagSet, put};
ghost use Rattle.record_codec.specs.Reading.{AreBytes, many_at, key_at, last_key, this_key, stands_behind, flags_at};
ghost use Rattle.record_codec.specs.Spelling.{SpellFlags};
ghost use Rattle.record_codec.specs.Giving.{Gives};

use super::Fields;
use crate::misfit::Misfit;
use flag_set::{FlagFault, FlagKey, FlagSet, MAX_FLAGS};
use std::alloc::Global;
use std::cmp::Ordering;

/// The flags that were read last, and the bytes that spell them.
#[derive(Drop)]
pub(crate) struct LastFlags<'a> {
    text: &'a [u8],
    flags: FlagSet,
}

impl LastFlags<'_> {
    /// No flags.
    pub(crate) fn none(alloc: Global) -> Self
        ensures { SpellFlags result.text.now result.flags }
    {
        LastFlags {
            text: b"\x00\x00",
            flags: FlagSet::none(alloc),
        }
    }
}

impl<'a> Fields<'a> {
    /// At most 1,024 flags. Where the same bytes come again, as in most rows of a mailbox, the set is copied and its keys
    /// aren't read.
    pub(crate) fn flags_like(
        &mut self,
        alloc: Global,
        last: &mut LastFlags<'a>,
    ) -> Result<FlagSet, Misfit>
        requires { SpellFlags last.old.text.now last.old.flags }
        ensures read { Gives (λ x. x) result self.new.rest.now (flags_at 0 self.old.rest.now) }
        ensures last { OnOk result (SpellFlags last.new.text.now last.new.flags) }
    {
        if let Some(rest) = self.rest.strip_prefix(last.text) {
            let flags = last.flags.copy()?;
            self.rest = rest;
            return Ok(flags);
        }
        let from = self.rest;
        let flags = self.flags(alloc, 0)?;
        last.text = in_front(from, self.rest.len());
        last.flags = flags.copy()?;
        Ok(flags)
    }
}

impl Fields<'_> {
    /// At least so many flags, and at most `MAX_FLAGS`.
    #[tactic(auto, unfolding(crate::specs::Reading::flags_at))]
    pub(crate) fn flags(&mut self, alloc: Global, least: u16) -> Result<FlagSet, Misfit>
        ensures { Gives (λ x. x) result self.new.rest.now (flags_at least self.old.rest.now) }
    {
        let left = self.rest.len();
        let count = self.u16()?;
        if count < least {
            return Err(Misfit::Left(left));
        }
        if count as usize > MAX_FLAGS {
            return Err(Misfit::Left(left));
        }
        self.keys(alloc, count)
    }

    // So many keys, which rise.
    fn keys(&mut self, alloc: Global, count: u16) -> Result<FlagSet, Misfit>
        ensures { Gives (λ x. x) result self.new.rest.now (many_at key_at this_key count None self.old.rest.now) }
    {
        let mut set = FlagSet::none(alloc);
        let mut left = count;
        while left > 0 {
            let key = self.key(alloc, &set)?;
            set.add(key)?;
            left -= 1;
        }
        Ok(set)
    }

    // A key behind those of a set.
    #[tactic(auto, unfolding(crate::specs::Reading::key_at))]
    fn key(&mut self, alloc: Global, set: &FlagSet) -> Result<FlagKey, Misfit>
        ensures read { Gives (λ x. x) result self.new.rest.now (key_at (last_key set.now) self.old.rest.now) }
        ensures behind { IfOk result (λ key. put key set.now ≡ set.now ++ key ∷ []) }
    {
        let left = self.rest.len();
        let text = self.counted()?;
        let Some(key) = kept_key(alloc, text)? else {
            return Err(Misfit::Left(left));
        };
        if !comes_last(set, &key) {
            return Err(Misfit::Left(left));
        }
        Ok(key)
    }
}

// The bytes in front of the last ones, of which there are so many.
fn in_front(bytes: &[u8], left: usize) -> &[u8]
    ensures value { result.now ≡ take (length bytes.now - left) bytes.now }
    ensures bytes { AreBytes bytes.now }
{
    bytes.split_at(bytes.len().saturating_sub(left)).0
}

// The key that is kept as these bytes, if one is.
fn kept_key(alloc: Global, text: &[u8]) -> Result<Option<FlagKey>, Misfit>
    ensures some { IfOk result (λ kept. IfSome kept (λ key. key ≡ text.now)) }
    ensures test { IfOk result (λ kept. is_some kept ≡ (is_none (refusal text.now) && bytes_eq (key_of text.now) text.now)) }
    ensures memory { IfErr result (λ misfit. misfit ≡ Misfit.Memory) }
{
    match FlagKey::new(alloc, text) {
        Ok(key) => {
            if key.as_bytes() == text {
                Ok(Some(key))
            } else {
                Ok(None)
            }
        }
        Err(FlagFault::Memory) => Err(Misfit::Memory),
        Err(_) => Ok(None),
    }
}

// Whether a key stands behind each of a set.
fn comes_last(set: &FlagSet, key: &FlagKey) -> bool
    ensures test { result ≡ stands_behind (last_key set.now) key.now }
    ensures set { IsFlagSet set.now }
{
    match set.keys().split_last() {
        Some((last, _)) => last.cmp(key) == Ordering::Less,
        None => true,
    }
}
