//! Calls of `mailbox_cache`: the cache of a mailbox, delta by delta. `cache whole ..` begins one,
//! and `cache part ..` goes on with it. `rows` tells what it holds, and `exceeds 2 part ..` whether
//! it would have more than so many rows after a delta.

ghost use Rattle.std.specs.Prelude.{◌≡◌, ◌≤◌, true, false};

use crate::boxes::boxed;
use crate::compared::put_compared;
use cases::{Answer, Input, WordFault, delta, put_modseq, put_rows, put_uid, put_validity};
use mailbox_cache::{Cache, Delta};
use std::alloc::Global;

/// A cache whose deltas are kept, and one whose deltas are given up.
#[derive(Drop)]
pub struct Both {
    pub kept: Cache,
    moved: Cache,
}

/// The caches after the delta that the words are: those of a whole one, or what a part makes of
/// those before.
pub fn taken(before: Option<Box<Both>>, input: &mut Input) -> Result<Box<Both>, WordFault> {
    match before {
        Some(both) => gone_on(both, input),
        None => begun(input),
    }
}

fn begun(input: &mut Input) -> Result<Box<Both>, WordFault> {
    let delta = delta(input)?;
    boxed(input.alloc, first(input.alloc, delta))
}

fn gone_on(both: Box<Both>, input: &mut Input) -> Result<Box<Both>, WordFault> {
    let delta = delta(input)?;
    boxed(
        input.alloc,
        after(input.alloc, Box::into_inner(both), delta),
    )
}

fn first(alloc: Global, delta: Delta) -> Result<Both, WordFault> {
    if !delta.whole {
        drop(delta);
        return Err(WordFault::Form);
    }
    let kept = Cache::first(alloc, &delta)?;
    let moved = Cache::of(delta);
    Ok(Both { kept, moved })
}

// Both after a delta that may be applied.
fn after(alloc: Global, both: Both, delta: Delta) -> Result<Both, WordFault> {
    let Both { kept, moved } = both;
    let applied = applied(alloc, &kept, &delta);
    drop(kept);
    let moved = moved_on(moved, delta);
    both_of(applied?, moved)
}

fn both_of(kept: Cache, moved: Result<Cache, WordFault>) -> Result<Both, WordFault> {
    match moved {
        Ok(moved) => Ok(Both { kept, moved }),
        Err(fault) => {
            drop(kept);
            Err(fault)
        }
    }
}

// The copy of what a cache and a delta give.
fn applied(alloc: Global, cache: &Cache, delta: &Delta) -> Result<Cache, WordFault> {
    if delta.whole || delta.validity != cache.validity || delta.highest < cache.highest {
        return Err(WordFault::Form);
    }
    let applied = cache.apply(alloc, delta)?;
    Ok(applied.copy()?)
}

fn moved_on(cache: Cache, delta: Delta) -> Result<Cache, WordFault> {
    if delta.whole || delta.validity != cache.validity || delta.highest < cache.highest {
        return Err(WordFault::Form);
    }
    Ok(cache.after(delta)?)
}

impl Both {
    /// Answers a call on the caches, or tells that it is none.
    pub fn answers(
        &self,
        call: &str,
        input: &mut Input,
        answer: &mut Answer,
    ) -> Result<bool, WordFault> {
        match call {
            "rows" => self.put(input.alloc, answer)?,
            "exceeds" => self.put_exceeds(input, answer)?,
            _ => return Ok(false),
        }
        Ok(true)
    }

    // What both hold.
    fn put(&self, alloc: Global, answer: &mut Answer) -> Result<(), WordFault> {
        let kept = told(alloc, &self.kept)?;
        let moved = told(alloc, &self.moved)?;
        put_compared(answer, &kept, "but where rows are moved", &moved)
    }

    fn put_exceeds(&self, input: &mut Input, answer: &mut Answer) -> Result<(), WordFault> {
        let limit = input.short()? as usize;
        let delta = delta(input)?;
        let exceeds = self.kept.would_exceed(limit, &delta);
        drop(delta);
        answer.yes(exceeds)
    }
}

fn told(alloc: Global, cache: &Cache) -> Result<Answer, WordFault> {
    let mut told = Answer::new(alloc);
    put_cache(&mut told, cache)?;
    Ok(told)
}

fn put_cache(answer: &mut Answer, cache: &Cache) -> Result<(), WordFault> {
    put_validity(answer, cache.validity)?;
    put_uid(answer, cache.uidnext)?;
    put_modseq(answer, cache.highest)?;
    put_rows(answer, cache.rows.as_slice())
}
