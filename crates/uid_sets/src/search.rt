//! Looks for a UID among ranges (RFC 9051, section 2.3.1.1).

ghost use Rattle.std.specs.Prelude.{◌<◌, ◌≤◌, ◌↔◌, IsTrue};
ghost use Rattle.std.specs.List.Sorted.{IsPartitionPoint};
ghost use Rattle.uid_sets.specs.UidSet.{Member, IsCanonical};

use super::uid::UidRange;

/// Whether one of the ranges holds the UID.
pub fn holds(ranges: &[UidRange], uid: u32) -> bool
    requires { IsCanonical ranges.now }
    ensures { IsTrue result ↔ Member ranges.now uid }
{
    let place = place_of(ranges, uid);
    place < ranges.len() && ranges[place].low <= uid
}

/// How many ranges end below the UID, by a binary search.
fn place_of(ranges: &[UidRange], uid: u32) -> usize
    requires { IsCanonical ranges.now }
    ensures { IsPartitionPoint (λ range. range.high < uid) (λ range. uid ≤ range.high) ranges.now result }
{
    ranges.partition_point(|range| range.high < uid)
}
