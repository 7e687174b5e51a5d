//! Whether ranges are the list of a set (RFC 9051, section 9, sequence-set).

ghost use Rattle.std.specs.Prelude.{◌↔◌, IsTrue};
ghost use Rattle.uid_sets.specs.UidSet.{IsCanonical};

use super::uid::UidRange;

/// Whether the ranges rise, each of nonzero numbers with its ends in order, and with a free number between neighbours.
pub fn is_canonical(ranges: &[UidRange]) -> bool
    ensures { IsTrue result ↔ IsCanonical ranges.now }
{
    // The next range begins above this.
    let mut floor = 0u64;
    for range in ranges {
        if u64::from(range.low) <= floor || range.high < range.low {
            return false;
        }
        floor = u64::from(range.high) + 1;
    }
    true
}
