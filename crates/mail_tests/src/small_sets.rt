//! Small sets of UIDs against lists of their members (RFC 9051, section 9, sequence-set).

use std::alloc::{AllocError, Global};
use std::test::Fail;
use uid_sets::{Uid, UidSet};

/// The numbers that the small sets are made of: 1 to 8.
const SMALL: usize = 9;

// The calls stand in helpers that answer a plain value: a set that is held at an assert is dear to prove.

/// Whether a mask holds a number, from 1 on.
fn is_in(mask: u32, number: u32) -> bool {
    let mut rest = mask;
    for _ in 1..number {
        rest /= 2;
    }
    rest % 2 == 1
}

/// The small set whose members are the bits of a mask, in one order or the other.
fn set_of(alloc: Global, mask: u32, rising: bool) -> Result<UidSet, AllocError> {
    let mut set = UidSet::none(alloc);
    for i in 1..SMALL {
        let number = if rising { i } else { SMALL - i };
        if is_in(mask, number as u32)
            && let Some(uid) = Uid::new(number as u32)
        {
            set.add(uid)?;
        }
    }
    Ok(set)
}

/// The members of a set as a list of answers, one for each small number, where its ranges rise and don't touch.
fn members(set: &UidSet) -> Option<[bool; SMALL]> {
    let mut answers = [false; SMALL];
    let mut floor = 0u64;
    for range in set.ranges() {
        if u64::from(range.low) <= floor || range.high < range.low {
            return None;
        }
        floor = u64::from(range.high) + 1;
        for number in 1..SMALL {
            if range.low <= number as u32 && number as u32 <= range.high {
                answers[number] = true;
            }
        }
    }
    Some(answers)
}

/// Whether the members of a set are those of a list of answers.
fn agrees(set: &UidSet, expected: &[bool; SMALL]) -> bool {
    members(set) == Some(*expected)
}

/// The answers of a mask, one for each small number.
fn answers(mask: u32) -> [bool; SMALL] {
    let mut held = [false; SMALL];
    for number in 1..SMALL {
        held[number] = is_in(mask, number as u32);
    }
    held
}

/// How many numbers are held.
fn count_of(held: &[bool; SMALL]) -> u32 {
    let mut count = 0u32;
    for number in 1..SMALL {
        count = count.saturating_add(u32::from(held[number]));
    }
    count
}

/// The answers from a number on.
fn answers_from(held: &[bool; SMALL], low: usize) -> [bool; SMALL] {
    let mut rest = [false; SMALL];
    for number in 1..SMALL {
        rest[number] = held[number] && number >= low;
    }
    rest
}

/// The answers of a union.
fn answers_of_either(left: &[bool; SMALL], right: &[bool; SMALL]) -> [bool; SMALL] {
    let mut union = [false; SMALL];
    for number in 1..SMALL {
        union[number] = left[number] || right[number];
    }
    union
}

/// The answers of a set without another one.
fn answers_of_rest(left: &[bool; SMALL], right: &[bool; SMALL]) -> [bool; SMALL] {
    let mut minus = [false; SMALL];
    for number in 1..SMALL {
        minus[number] = left[number] && !right[number];
    }
    minus
}

/// Whether a set that was made has the members of a list of answers.
fn made_agrees(made: Result<UidSet, AllocError>, expected: &[bool; SMALL]) -> bool {
    match made {
        Ok(set) => agrees(&set, expected),
        Err(_) => false,
    }
}

/// Whether a set of these answers tells how many they are, and the part of it from each number on.
fn set_agrees(set: &UidSet, held: &[bool; SMALL]) -> bool {
    let count = count_of(held);
    let mut fine = set.is_empty() == (count == 0) && set.only().is_some() == (count == 1);
    for number in 1..SMALL {
        if let Some(one) = Uid::new(number as u32) {
            fine = fine
                && set.contains(one) == held[number]
                && made_agrees(set.from(one), &answers_from(held, number));
        }
    }
    fine && agrees(set, held)
}

/// Whether the set of a mask agrees with its answers, whatever the order in which it was made.
fn mask_agrees(alloc: Global, mask: u32) -> bool {
    let held = answers(mask);
    match set_of(alloc, mask, false) {
        Ok(set) => set_agrees(&set, &held) && made_agrees(set_of(alloc, mask, true), &held),
        Err(_) => false,
    }
}

/// Whether the union and the difference of two masks' sets agree with their answers.
fn pair_agrees(alloc: Global, left: u32, right: u32) -> bool {
    let (held, taken) = (answers(left), answers(right));
    match (set_of(alloc, left, false), set_of(alloc, right, true)) {
        (Ok(a), Ok(b)) => {
            made_agrees(a.union(&b), &answers_of_either(&held, &taken))
                && made_agrees(a.minus(&b), &answers_of_rest(&held, &taken))
        }
        _ => false,
    }
}

#[test]
fn small_sets_agree_with_lists_of_answers(rt: HostRuntime) -> Result<(), Fail> {
    for left in 0..256u32 {
        assert!(rt; mask_agrees(rt.alloc(), left));
        for step in 0..64u32 {
            let right = (step * 37 + left * 11) % 256;
            assert!(rt; pair_agrees(rt.alloc(), left, right));
        }
    }
    Ok(())
}
