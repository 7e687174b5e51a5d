//! Calls of `uid_sets`: sets of UIDs, as their texts.

use crate::numbers::pair;
use cases::{Answer, Input, WordFault, put_set, put_uid, set, uid};
use uid_sets::{SetFault, UidRange, UidSet};

/// A set and one UID more.
pub fn put_with(input: &mut Input, answer: &mut Answer) -> Result<(), WordFault> {
    let mut set = set(input)?;
    set.add(uid(input)?)?;
    put_set(answer, &set)
}

/// A set from a UID on.
pub fn put_from(input: &mut Input, answer: &mut Answer) -> Result<(), WordFault> {
    let set = set(input)?;
    let rest = set.from(uid(input)?)?;
    put_set(answer, &rest)
}

/// The union of two sets.
pub fn put_union(input: &mut Input, answer: &mut Answer) -> Result<(), WordFault> {
    let left = set(input)?;
    let right = set(input)?;
    let union = left.union(&right)?;
    put_set(answer, &union)
}

/// A set without the UIDs of another one.
pub fn put_minus(input: &mut Input, answer: &mut Answer) -> Result<(), WordFault> {
    let left = set(input)?;
    let right = set(input)?;
    let rest = left.minus(&right)?;
    put_set(answer, &rest)
}

/// Whether a set holds a UID.
pub fn put_holds(input: &mut Input, answer: &mut Answer) -> Result<(), WordFault> {
    let set = set(input)?;
    let uid = uid(input)?;
    answer.yes(set.contains(uid))
}

/// The copy of the set that a text names, and how many ranges it has.
pub fn put_read(input: &mut Input, answer: &mut Answer) -> Result<(), WordFault> {
    match UidSet::read(input.alloc, input.text()?) {
        Ok(set) => {
            put_set(answer, &set.copy()?)?;
            answer.at("ranges", set.ranges().len())
        }
        Err(SetFault::Memory) => Err(WordFault::Memory),
        Err(SetFault::Empty) => answer.word("empty"),
        Err(SetFault::BadByte { at }) => answer.at("bad byte at", at),
        Err(SetFault::Zero { at }) => answer.at("zero at", at),
        Err(SetFault::BadNumber { at }) => answer.at("bad number at", at),
    }
}

/// The only UID of a set, or `none`.
pub fn put_only(input: &mut Input, answer: &mut Answer) -> Result<(), WordFault> {
    match set(input)?.only() {
        Some(uid) => put_uid(answer, uid),
        None => answer.word("none"),
    }
}

/// The set that a list of ranges is, where it is one.
pub fn put_of(input: &mut Input, answer: &mut Answer) -> Result<(), WordFault> {
    let mut ranges = Vec::new(input.alloc);
    for _ in 0..input.len() {
        let (low, high) = pair(input)?;
        ranges.push(UidRange { low, high })?;
    }
    match UidSet::of(ranges) {
        Some(set) => put_set(answer, &set),
        None => answer.word("no set"),
    }
}
