//! Puts rows into others and takes rows away, where they stand, without memory (RFC 7162, section 3.2).

ghost use Rattle.std.specs.Prelude.{◌≡◌, ◌≤◌, ◌<◌, ◌+◌, ◌++◌, List, ℕ, length, reverse, vec_len, vec_capacity};
ghost use Rattle.mailbox_cache.specs.Rows.{without_uids, put_row, put_rows, Rises, AllBelow};
ghost use Rattle.mailbox_cache.specs.declared.row.Row.{Row};

use crate::Row;
use crate::search::{are_apart, has_uid, is_at, place_of};
use uid_sets::{Uid, UidSet};

/// Puts rows in place of those of their UIDs, and new ones at their places. Rows that stand behind a new one are set aside
/// and come back, so new rows at the end move no other row; only where the rows have no room for the new ones, all of them
/// move to `aside`.
pub(crate) fn put_rows(
    mut rows: Vec<(Uid, Row)>,
    new: Vec<(Uid, Row)>,
    mut aside: Vec<(Uid, Row)>,
) -> Vec<(Uid, Row)>
    requires rising { Rises rows.items }
    requires told { Rises new.items }
    requires empty { length aside.items ≡ 0 }
    requires room { length rows.items + length new.items ≤ vec_capacity aside }
    ensures { result.items ≡ put_rows new.items rows.items }
{
    put_aside(&mut rows, new, &mut aside);
    joined(rows, aside)
}

// Puts the rows one by one, the last one first. What was set aside stands behind the others, its last row first.
fn put_aside(rows: &mut Vec<(Uid, Row)>, mut new: Vec<(Uid, Row)>, aside: &mut Vec<(Uid, Row)>)
    requires rising { Rises rows.old.items }
    requires told { Rises new.items }
    requires room { vec_len rows.old + vec_len aside.old + vec_len new ≤ vec_capacity aside.old }
    ensures joined { rows.new.items ++ reverse aside.new.items
        ≡ put_rows new.items rows.old.items ++ reverse aside.old.items }
    ensures room_still { vec_len rows.new + vec_len aside.new ≤ vec_capacity aside.new }
{
    while let Some(row) = new.pop() {
        put_one(rows, aside, row);
    }
}

// Puts a row in place of that of its UID, or sets it aside in front of the rows that stand behind it. Rows with lower UIDs
// may be put in afterwards.
fn put_one(rows: &mut Vec<(Uid, Row)>, aside: &mut Vec<(Uid, Row)>, row: (Uid, Row))
    requires rising { Rises rows.old.items }
    requires room { vec_len rows.old + vec_len aside.old < vec_capacity aside.old }
    ensures joined { (before : List (ℕ × Row)) → AllBelow row.0 before →
        put_rows before rows.new.items ++ reverse aside.new.items
        ≡ put_rows before (put_row row rows.old.items) ++ reverse aside.old.items }
    ensures rising_still { Rises rows.new.items }
    ensures len { vec_len rows.new + vec_len aside.new ≤ vec_len rows.old + vec_len aside.old + 1 }
    ensures capacity { vec_capacity aside.new ≡ vec_capacity aside.old }
{
    let place = place_of(rows, row.0);
    if is_at(rows, place, row.0) {
        rows[place] = row;
        return;
    }
    set_aside(rows, place, aside);
    aside.push_reserved(row);
}

// Sets the rows from a place on aside.
fn set_aside(rows: &mut Vec<(Uid, Row)>, place: usize, aside: &mut Vec<(Uid, Row)>)
    requires within { place ≤ vec_len rows.old }
    requires room { vec_len rows.old + vec_len aside.old ≤ vec_capacity aside.old }
    ensures joined { rows.new.items ++ reverse aside.new.items ≡ rows.old.items ++ reverse aside.old.items }
    ensures place { vec_len rows.new ≡ place }
    ensures len { vec_len rows.new + vec_len aside.new ≡ vec_len rows.old + vec_len aside.old }
    ensures capacity { vec_capacity aside.new ≡ vec_capacity aside.old }
{
    while place < rows.len() {
        if let Some(row) = rows.pop() {
            aside.push_reserved(row);
        }
    }
}

// The rows, and behind them those that were set aside: these come back where there is room, and else the others follow them.
fn joined(mut rows: Vec<(Uid, Row)>, mut aside: Vec<(Uid, Row)>) -> Vec<(Uid, Row)>
    requires { vec_len rows + vec_len aside ≤ vec_capacity aside }
    ensures { result.items ≡ rows.items ++ reverse aside.items }
{
    if aside.len() <= rows.capacity() - rows.len() {
        return brought_back(rows, aside);
    }
    set_aside(&mut rows, 0, &mut aside);
    aside.reverse();
    aside
}

// The rows with those that were set aside behind them.
fn brought_back(mut rows: Vec<(Uid, Row)>, mut aside: Vec<(Uid, Row)>) -> Vec<(Uid, Row)>
    requires { vec_len rows + vec_len aside ≤ vec_capacity rows }
    ensures { result.items ≡ rows.items ++ reverse aside.items }
{
    while let Some(row) = aside.pop() {
        rows.push_reserved(row);
    }
    rows
}

/// Removes the rows whose UIDs are among the vanished ones. It costs a look-up for each range, and a pass where one of the
/// rows is among them.
pub(crate) fn remove_uids(rows: &mut Vec<(Uid, Row)>, vanished: &UidSet)
    requires { Rises rows.old.items }
    ensures { rows.new.items ≡ without_uids vanished.now rows.old.items }
{
    if are_apart(rows, vanished.ranges()) {
        return;
    }
    rows.retain(|(uid, _)| !has_uid(vanished, *uid));
}
