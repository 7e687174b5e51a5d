//! Looks for UIDs among rows that rise, and counts what a delta leaves of them (RFC 7162, section 3.2).

ghost use Rattle.std.specs.Prelude.{◌≡◌, ◌≤◌, ◌+◌, ◌∷◌, [], IsTrue, length, take, drop, is_some};
ghost use Rattle.std.specs.Option.{option_copied};
ghost use Rattle.mailbox_cache.specs.Rows.{row_at, has_uid, without_uids, strangers, Rises, AreApart, AllBelow, StartsFrom, starts_with_uid};

use crate::Row;
use uid_sets::{Uid, UidRange, UidSet};

/// How many rows have a UID below this one, by a binary search.
pub(crate) fn place_of(rows: &[(Uid, Row)], uid: Uid) -> usize
    requires { Rises rows.now }
    ensures within { result ≤ length rows.now }
    ensures below { AllBelow uid (take result rows.now) }
    ensures behind { StartsFrom uid (drop result rows.now) }
{
    rows.partition_point(|(other, _)| other.number() < uid.number())
}

/// Whether the row at this place has this UID.
pub(crate) fn is_at(rows: &[(Uid, Row)], place: usize, uid: Uid) -> bool
    ensures { result ≡ starts_with_uid uid (drop place rows.now) }
{
    match rows.get(place) {
        Some((other, _)) => other.number() == uid.number(),
        None => false,
    }
}

/// The row of this UID.
pub(crate) fn row_in(rows: &[(Uid, Row)], uid: Uid) -> Option<&Row>
    requires { Rises rows.now }
    ensures { option_copied result ≡ row_at uid rows.now }
{
    let place = place_of(rows, uid);
    let (other, row) = rows.get(place)?;
    if other.number() != uid.number() {
        return None;
    }
    Some(row)
}

// Whether there is a row of this UID.
fn has_row(rows: &[(Uid, Row)], uid: Uid) -> bool
    requires { Rises rows.now }
    ensures { result ≡ is_some (row_at uid rows.now) }
{
    row_in(rows, uid).is_some()
}

/// Whether the UID is one of the set.
pub(crate) fn has_uid(set: &UidSet, uid: Uid) -> bool
    ensures { result ≡ has_uid set.now uid }
{
    set.contains(uid)
}

/// Whether no row has a UID of the ranges, by a look-up for each of these.
pub(crate) fn are_apart(rows: &[(Uid, Row)], ranges: &[UidRange]) -> bool
    requires { Rises rows.now }
    ensures { IsTrue result → AreApart ranges.now rows.now }
{
    for range in ranges {
        if !is_apart(rows, range) {
            return false;
        }
    }
    true
}

// Whether no row has a UID of the range, of which UIDs below 1 are none.
fn is_apart(rows: &[(Uid, Row)], range: &UidRange) -> bool
    requires { Rises rows.now }
    ensures { IsTrue result → AreApart (range.now ∷ []) rows.now }
{
    let Some(low) = Uid::new(range.low) else {
        return false;
    };
    let place = place_of(rows, low);
    is_above(rows, place, range.high)
}

// Whether no row stands at this place, or one whose UID is above this number.
fn is_above(rows: &[(Uid, Row)], place: usize, number: u32) -> bool
    ensures { IsTrue result → StartsFrom (number + 1) (drop place rows.now) }
{
    match rows.get(place) {
        Some((uid, _)) => uid.number() > number,
        None => true,
    }
}

/// How many rows have UIDs that aren't among the vanished ones.
pub(crate) fn kept_len(rows: &[(Uid, Row)], vanished: &UidSet) -> usize
    ensures { result ≡ length (without_uids vanished.now rows.now) }
{
    let mut count = 0;
    for (uid, _) in rows {
        if has_uid(vanished, *uid) {
            continue;
        }
        count += 1;
    }
    count
}

/// How many of the new rows have UIDs that the others don't have.
pub(crate) fn new_len(rows: &[(Uid, Row)], new: &[(Uid, Row)]) -> usize
    requires { Rises rows.now }
    ensures { result ≡ strangers new.now rows.now }
{
    let mut count = 0;
    for (uid, _) in new {
        if has_row(rows, *uid) {
            continue;
        }
        count += 1;
    }
    count
}
