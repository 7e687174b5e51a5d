//! Reads a sequence-set without `*` (RFC 9051, section 9): numbers and ranges with commas between.

ghost use Rattle.std.specs.Prelude.{◌≡◌, ◌<◌, ◌≤◌, ◌==◌, ◌+◌, ◌^◌, length, MatchOption, IsTrue, IfSome, IfNone, IfOk, IfErr, OnOk, IsPermutation, position};
ghost use Rattle.std.specs.List.Sorted.{IsNonDecreasingBy};
ghost use Rattle.std.specs.List.{before_first, after_first, position_or_len};
ghost use Rattle.std.specs.Str.Parse.{AllDigits, digits_value};
ghost use Rattle.uid_sets.specs.SequenceSet.{number, item, items_of, digit_count, Spells, Refuses};

use super::join::joined;
use super::set_fault::SetFault;
use super::uid::UidRange;
use std::alloc::{AllocError, Global};

/// The canonical ranges of the members that the text names.
pub fn ranges_of(alloc: Global, text: &[u8]) -> Result<Vec<UidRange>, SetFault>
    requires { 0 < length text.now }
    ensures value { IfOk result (λ ranges. Spells text.now ranges.items) }
    ensures fault { IfErr result (λ fault. Refuses text.now fault) }
{
    let mut written = written_of(alloc, text)?;
    put_in_order(&mut written)?;
    Ok(joined(alloc, &written)?)
}

/// Puts ranges in the order of their low ends: in one walk where they stand in it.
fn put_in_order(ranges: &mut Vec<UidRange>) -> Result<(), AllocError>
    ensures ordered { OnOk result (IsNonDecreasingBy (λ range. range.low) ranges.new.items) }
    ensures permutation { IsPermutation ranges.old.items ranges.new.items }
{
    if is_in_order(ranges) {
        return Ok(());
    }
    ranges.sort_by_key(|range| range.low)
}

/// Whether ranges rise by their low ends.
fn is_in_order(ranges: &[UidRange]) -> bool
    ensures { IsTrue result → IsNonDecreasingBy (λ range. range.low) ranges.now }
{
    ranges.is_sorted_by_key(|range| range.low)
}

/// The items in the order in which they are written.
fn written_of(alloc: Global, text: &[u8]) -> Result<Vec<UidRange>, SetFault>
    requires { 0 < length text.now }
    ensures value { IfOk result (λ written. items_of text.now ≡ Ok written.items) }
    ensures fault { IfErr result (λ fault. Refuses text.now fault) }
{
    let mut written = Vec::new(alloc);
    let mut at = 0;
    let mut left = Some(text);
    while let Some(texts) = left {
        let (first, behind) = cut(texts, b',');
        written.push(item_of(at, first)?)?;
        at += first.len() + 1;
        left = behind;
    }
    Ok(written)
}

/// The text before the first `mark`, and the text behind it where there is one.
fn cut(text: &[u8], mark: u8) -> (&[u8], Option<&[u8]>)
    ensures before { result.0.now ≡ before_first (λ byte. byte == mark) text.now }
    ensures behind { MatchOption result.1
        (position_or_len (λ byte. byte == mark) text.now ≡ length text.now)
        (λ behind. (position_or_len (λ byte. byte == mark) text.now < length text.now)
        × (behind.now ≡ after_first (λ byte. byte == mark) text.now)) }
{
    match place_of(text, mark) {
        Some(place) => (&text[..place], Some(&text[place + 1..])),
        None => (text, None),
    }
}

/// The place of the first `mark`.
fn place_of(text: &[u8], mark: u8) -> Option<usize>
    ensures { result ≡ position (λ byte. byte == mark) text.now }
{
    text.iter().position(|byte| *byte == mark)
}

/// Reads an item, whose text begins at `at`: a number, or two with a colon between.
#[tactic(auto, unfolding(crate::specs::SequenceSet::item))]
fn item_of(at: usize, text: &[u8]) -> Result<UidRange, SetFault>
    requires { at + length text.now < 2 ^ 64 }
    ensures { result ≡ item at text.now }
{
    let (first, second) = cut(text, b':');
    let low = number_of(at, first)?;
    let Some(second) = second else {
        return Ok(UidRange { low, high: low });
    };
    let high = number_of(at + first.len() + 1, second)?;
    Ok(UidRange {
        low: low.min(high),
        high: low.max(high),
    })
}

/// Reads a nonzero number, whose text begins at `at`.
fn number_of(at: usize, text: &[u8]) -> Result<u32, SetFault>
    requires { at + length text.now < 2 ^ 64 }
    ensures { result ≡ number at text.now }
{
    let count = digit_count_of(text);
    if count == 0 {
        return Err(SetFault::BadByte { at });
    }
    match value_of(&text[..count]) {
        Some(0) => Err(SetFault::Zero { at }),
        None => Err(SetFault::BadNumber { at }),
        Some(_) if count < text.len() => Err(SetFault::BadByte { at: at + count }),
        Some(value) => Ok(value),
    }
}

/// How many digits the text begins with.
fn digit_count_of(text: &[u8]) -> usize
    ensures { result ≡ digit_count text.now }
{
    text.iter().take_while(|byte| byte.is_ascii_digit()).count()
}

/// The number that digits spell, where it has 32 bits.
fn value_of(digits: &[u8]) -> Option<u32>
    requires { AllDigits 10 digits.now }
    ensures value { IfSome result (λ value. value ≡ digits_value 10 digits.now) }
    ensures too_large { IfNone result (2 ^ 32 ≤ digits_value 10 digits.now) }
{
    let mut value = 0u64;
    for digit in digits {
        value = value * 10 + u64::from(digit - b'0');
        if value > u64::from(u32::MAX) {
            return None;
        }
    }
    Some(value as u32)
}
