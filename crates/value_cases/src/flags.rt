//! Calls of `flag_set`: flags, lists of flags, and sets of them.

use cases::{Answer, Input, WordFault, flags, key, put_flags};
use flag_set::{FlagFault, FlagKey, FlagSet, is_flag_list, is_permanent_list, read_permanent};
use std::alloc::AllocError;

/// The key of a flag.
pub fn put_flag(input: &mut Input, answer: &mut Answer) -> Result<(), WordFault> {
    let text = input.text()?;
    put_key(answer, FlagKey::new(input.alloc, text))
}

/// The key of a flag that is asked for.
pub fn put_asked(input: &mut Input, answer: &mut Answer) -> Result<(), WordFault> {
    let text = input.text()?;
    put_key(answer, FlagKey::asked(input.alloc, text))
}

/// The set of flags that are added one after another.
pub fn put_added(input: &mut Input, answer: &mut Answer) -> Result<(), WordFault> {
    let flags = flags(input)?;
    put_flags(answer, &flags)
}

/// What two sets are to one another, and what they make.
pub fn put_both(input: &mut Input, answer: &mut Answer) -> Result<(), WordFault> {
    let left = flags(input)?;
    let told = put_beside(input, &left, answer);
    drop(left);
    told
}

fn put_beside(input: &mut Input, left: &FlagSet, answer: &mut Answer) -> Result<(), WordFault> {
    input.end_step()?;
    let right = flags(input)?;
    let told = put_pair(answer, left, &right);
    drop(right);
    told
}

/// Whether a set holds a flag.
pub fn put_holds(input: &mut Input, answer: &mut Answer) -> Result<(), WordFault> {
    let flag = input.text()?;
    let key = key(input.alloc, flag)?;
    let flags = flags(input)?;
    answer.yes(flags.holds(&key))
}

// The copy of a key, and whether it is a keyword.
fn put_key(answer: &mut Answer, key: Result<FlagKey, FlagFault>) -> Result<(), WordFault> {
    match key {
        Ok(key) => {
            answer.text(key.copy()?.as_bytes())?;
            answer.word(if key.is_keyword() {
                "keyword"
            } else {
                "system"
            })
        }
        Err(fault) => put_fault(answer, fault),
    }
}

fn put_fault(answer: &mut Answer, fault: FlagFault) -> Result<(), WordFault> {
    match fault {
        FlagFault::TooLong { length } => answer.at("too long", length),
        FlagFault::BadFlag { at } => answer.at("bad flag at", at),
        FlagFault::TooMany { count } => answer.at("too many", count),
        FlagFault::Memory => Err(WordFault::Memory),
    }
}

/// The copy of the set that a list is read as.
pub fn put_list(input: &mut Input, answer: &mut Answer) -> Result<(), WordFault> {
    match FlagSet::read_list(input.alloc, input.text()?) {
        Ok(flags) => {
            let copy = flags.copy();
            drop(flags);
            put_set(answer, copy)
        }
        Err(fault) => put_fault(answer, fault),
    }
}

/// How many flags a list has.
pub fn put_count(input: &mut Input, answer: &mut Answer) -> Result<(), WordFault> {
    match FlagSet::read_list(input.alloc, input.text()?) {
        Ok(flags) => {
            let count = flags.len();
            drop(flags);
            answer.place(count)
        }
        Err(fault) => put_fault(answer, fault),
    }
}

// What two sets are to one another, and what they make.
fn put_pair(answer: &mut Answer, left: &FlagSet, right: &FlagSet) -> Result<(), WordFault> {
    answer.at("count", left.len())?;
    answer.told("equal", *left == *right)?;
    answer.told("all", left.holds_all(right))?;
    answer.told("none", left.holds_none(right))?;
    answer.word("; with")?;
    put_set(answer, left.with(right))?;
    answer.word("; without")?;
    put_set(answer, left.without(right))
}

// Adds a set that was made.
fn put_set(answer: &mut Answer, made: Result<FlagSet, AllocError>) -> Result<(), WordFault> {
    let flags = made?;
    let told = put_flags(answer, &flags);
    drop(flags);
    told
}

/// The flags of a list of permanent ones, and whether any other may be made.
pub fn put_permanent(input: &mut Input, answer: &mut Answer) -> Result<(), WordFault> {
    match read_permanent(input.alloc, input.text()?) {
        Ok((flags, any)) => {
            answer.word(if any { "any" } else { "only" })?;
            put_flags(answer, &flags)
        }
        Err(fault) => put_fault(answer, fault),
    }
}

/// Whether a text is a list of flags, and whether it is one of permanent flags.
pub fn put_forms(input: &mut Input, answer: &mut Answer) -> Result<(), WordFault> {
    let text = input.text()?;
    answer.yes(is_flag_list(text))?;
    answer.yes(is_permanent_list(text))
}
