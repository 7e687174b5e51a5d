//! Ranges put one behind the other, and joined where they overlap or touch (RFC 9051, section 9, sequence-set).

ghost use Rattle.std.specs.Prelude.{◌≡◌, ◌≤◌, ◌↔◌, ◌⊎◌, ℕ, OnOk, OnErr, IfOk};
ghost use Rattle.uid_sets.specs.Uid.{IsWithin};
ghost use Rattle.uid_sets.specs.Rising.{last_low, RisesByLow};
ghost use Rattle.uid_sets.specs.UidSet.{Member, IsCanonical, IsRange};

use super::uid::UidRange;
use std::alloc::{AllocError, Global};

/// Puts a range behind ranges, none of which begins later, in constant time.
pub fn join(ranges: &mut Vec<UidRange>, range: UidRange) -> Result<(), AllocError>
    requires canonical { IsCanonical ranges.old.items }
    requires range { IsRange 0 range }
    requires rising { last_low ranges.old.items ≤ range.low }
    ensures canonical { IsCanonical ranges.new.items }
    ensures members { OnOk result ((uid : ℕ) → Member ranges.new.items uid
        ↔ (Member ranges.old.items uid ⊎ IsWithin range.low range.high uid)) }
    ensures rising { OnOk result (last_low ranges.new.items ≤ range.low) }
    ensures kept { OnErr result (ranges.new.items ≡ ranges.old.items) }
{
    let count = ranges.len();
    if count > 0 {
        let last = ranges[count - 1];
        if range.low - 1 <= last.high {
            ranges[count - 1] = UidRange {
                low: last.low,
                high: last.high.max(range.high),
            };
            return Ok(());
        }
    }
    ranges.push(range)?;
    Ok(())
}

/// The canonical list of the members of ranges that rise by their low ends.
pub fn joined(alloc: Global, rising: &[UidRange]) -> Result<Vec<UidRange>, AllocError>
    requires { RisesByLow 0 rising.now }
    ensures canonical { IfOk result (λ ranges. IsCanonical ranges.items) }
    ensures members { IfOk result (λ ranges.
        (uid : ℕ) → Member ranges.items uid ↔ Member rising.now uid) }
{
    let mut ranges = Vec::new(alloc);
    for range in rising {
        join(&mut ranges, *range)?;
    }
    Ok(ranges)
}
