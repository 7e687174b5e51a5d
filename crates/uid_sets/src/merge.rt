//! The union and the difference of two sets, each as one walk over both lists (RFC 9051, section 9, sequence-set).

ghost use Rattle.std.specs.Prelude.{◌+◌, ◌<◌, ◌≤◌, ◌↔◌, ◌⊎◌, ℕ, OnOk, IfOk, length, drop, max};
ghost use Rattle.uid_sets.specs.Uid.{IsWithin};
ghost use Rattle.uid_sets.specs.Rising.{floor_behind};
ghost use Rattle.uid_sets.specs.UidSet.{Member, IsCanonical, IsRange};

use super::join::join;
use super::uid::UidRange;
use std::alloc::{AllocError, Global};

/// The ranges of what either list holds.
pub fn union_of(
    alloc: Global,
    left: &[UidRange],
    right: &[UidRange],
) -> Result<Vec<UidRange>, AllocError>
    requires left { IsCanonical left.now }
    requires right { IsCanonical right.now }
    ensures canonical { IfOk result (λ ranges. IsCanonical ranges.items) }
    ensures members { IfOk result (λ ranges. (uid : ℕ) → Member ranges.items uid
        ↔ (Member left.now uid ⊎ Member right.now uid)) }
{
    let mut ranges = Vec::new(alloc);
    let mut i = 0;
    let mut j = 0;
    while i < left.len() || j < right.len() {
        if j == right.len() || i < left.len() && left[i].low <= right[j].low {
            join(&mut ranges, left[i])?;
            i += 1;
        } else {
            join(&mut ranges, right[j])?;
            j += 1;
        }
    }
    Ok(ranges)
}

/// The ranges of what `kept` holds and `taken` lacks.
pub fn difference_of(
    alloc: Global,
    kept: &[UidRange],
    taken: &[UidRange],
) -> Result<Vec<UidRange>, AllocError>
    requires kept { IsCanonical kept.now }
    requires taken { IsCanonical taken.now }
    ensures canonical { IfOk result (λ ranges. IsCanonical ranges.items) }
    ensures members { IfOk result (λ ranges. (uid : ℕ) → Member ranges.items uid
        ↔ (Member kept.now uid × ¬ Member taken.now uid)) }
{
    let mut ranges = Vec::new(alloc);
    let mut passed = 0;
    for range in kept {
        passed += push_rest(&mut ranges, *range, &taken[passed..])?;
    }
    Ok(ranges)
}

/// Puts what `taken` leaves of a range behind the ranges. The answer is how many of `taken` end before the range does.
fn push_rest(
    ranges: &mut Vec<UidRange>,
    range: UidRange,
    taken: &[UidRange],
) -> Result<usize, AllocError>
    requires canonical { IsCanonical ranges.old.items }
    requires range { IsRange (floor_behind 0 ranges.old.items) range }
    requires taken { IsCanonical taken.now }
    ensures canonical { OnOk result (IsCanonical ranges.new.items) }
    ensures floor { OnOk result (floor_behind 0 ranges.new.items ≤ range.high + 1) }
    ensures members { OnOk result ((uid : ℕ) → Member ranges.new.items uid
        ↔ (Member ranges.old.items uid
        ⊎ (IsWithin range.low range.high uid × ¬ Member taken.now uid))) }
    ensures within { IfOk result (λ passed. passed ≤ length taken.now) }
    ensures passed { IfOk result (λ passed. (uid : ℕ) → range.high < uid →
        Member taken.now uid ↔ Member (drop passed taken.now) uid) }
{
    let mut low = range.low;
    let mut passed = 0;
    for hole in taken {
        if range.high < hole.low {
            break;
        }
        push_below(ranges, low, hole.low)?;
        if range.high <= hole.high {
            return Ok(passed);
        }
        low = low.max(hole.high + 1);
        passed += 1;
    }
    ranges.push(UidRange {
        low,
        high: range.high,
    })?;
    Ok(passed)
}

/// Puts the UIDs from `low` up to, and without, `end` behind the ranges.
fn push_below(ranges: &mut Vec<UidRange>, low: u32, end: u32) -> Result<(), AllocError>
    requires canonical { IsCanonical ranges.old.items }
    requires floor { floor_behind 0 ranges.old.items < low }
    ensures canonical { OnOk result (IsCanonical ranges.new.items) }
    ensures floor { OnOk result (floor_behind 0 ranges.new.items < max low (end + 1)) }
    ensures members { OnOk result ((uid : ℕ) → Member ranges.new.items uid
        ↔ (Member ranges.old.items uid ⊎ ((low ≤ uid) × (uid < end)))) }
{
    if low < end {
        ranges.push(UidRange { low, high: end - 1 })?;
    }
    Ok(())
}

/// The ranges of the members of at least `low`.
pub fn rest_of(alloc: Global, ranges: &[UidRange], low: u32) -> Result<Vec<UidRange>, AllocError>
    requires { IsCanonical ranges.now }
    ensures canonical { IfOk result (λ rest. IsCanonical rest.items) }
    ensures members { IfOk result (λ rest.
        (uid : ℕ) → Member rest.items uid ↔ (Member ranges.now uid × (low ≤ uid))) }
{
    let mut rest = Vec::new(alloc);
    for range in ranges {
        if range.high < low {
            continue;
        }
        rest.push(UidRange {
            low: range.low.max(low),
            high: range.high,
        })?;
    }
    Ok(rest)
}
