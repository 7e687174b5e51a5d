//! How many bytes the body of an event's record has, counted without writing it.

ghost use Rattle.std.specs.Prelude.{◌≡◌, ◌≤◌, ◌<◌, ◌+◌, ◌*◌, ◌^◌, length};
ghost use Rattle.std.specs.List.{flat_map};
ghost use Rattle.action_queue.specs.Writable.{IsWritable, IsWritableAction, HaveFewFlags};
ghost use Rattle.record_codec.specs.Fields.{counted, flag_field, target_field, range_field, row_field};
ghost use Rattle.record_codec.specs.Bodies.{body_of, action_fields, intent_fields, outcome_fields, delta_fields};

use crate::outcome::outcome_bytes;
use action_queue::{Action, Event, Intent, Outcome, Target};
use flag_set::{FlagKey, FlagSet};
use mail_base::{BoxName, MAX_ROWS};
use mailbox_cache::{Delta, Row};
use uid_sets::{Uid, UidSet};

/// The number of bytes of the body of an event's record. It takes no memory.
pub fn size(event: &Event) -> u64
    requires { IsWritable event.now }
    ensures { result ≡ length (body_of event.now) }
{
    match event {
        Event::Begin { names } => 2 + names_size(names.as_slice()),
        Event::Accept { id: _id, action } => 5 + action_size(action),
        Event::Intend { id: _id, intent } => 5 + intent_size(intent),
        Event::Settle { id: _id, outcome } => 5 + outcome_size(outcome),
        Event::Learn { name, delta } => 1 + name_size(name) + delta_size(delta),
        Event::Old {
            id: _id,
            action,
            outcome,
        } => old_size(action, outcome),
        Event::Reset { name, .. } => 9 + name_size(name),
        Event::Withdraw { .. } => 6,
    }
}

/// The number of bytes of what an action asks; the body of its record has five more. It takes no memory.
pub fn action_size(action: &Action) -> u64
    requires { IsWritableAction action.now }
    ensures value { result ≡ length (action_fields action.now) }
    ensures most { result < 2 ^ 63 + 1048576 }
{
    match action {
        Action::Flag {
            target,
            add: _add,
            flags,
        } => 2 + target_size(target) + flags_size(flags),
        Action::Move { target, to } => 1 + target_size(target) + name_size(to),
        Action::Append {
            to,
            flags,
            text,
            id: _id,
        } => 5 + name_size(to) + flags_size(flags) + text.as_slice().len() as u64,
    }
}

/// The number of bytes of the body of an action that ended, as it is told anew. It takes no memory.
pub fn old_size(action: &Action, outcome: &Outcome) -> u64
    requires { IsWritableAction action.now }
    ensures value { result ≡ 5 + length (action_fields action.now) + length (outcome_fields outcome.now) }
    ensures most { result < 2 ^ 63 + 1048599 }
{
    5 + action_size(action) + outcome_size(outcome)
}

/// The number of bytes of the body that tells these rows of a mailbox, where no UID vanished. It takes no memory.
pub fn learn_size(name: &BoxName, rows: &[(Uid, Row)]) -> u64
    requires few { length rows.now ≤ MAX_ROWS }
    requires flags { HaveFewFlags rows.now }
    ensures value { result ≡ 26 + length (counted name.now) + length (flat_map row_field rows.now) }
    ensures most { result ≤ 155 + length rows.now * 262158 }
{
    26 + name_size(name) + rows_size(rows)
}

// What is about to be sent.
pub(crate) fn intent_size(intent: &Intent) -> u64
    ensures value { result ≡ length (intent_fields intent.now) }
    ensures most { result ≤ 512 }
{
    match intent {
        Intent::Store { name, .. } => 17 + name_size(name),
        Intent::Shift { from, to, .. } => 9 + name_size(from) + name_size(to),
        Intent::Put { to, .. } => 9 + name_size(to),
    }
}

// How an action ended.
fn outcome_size(outcome: &Outcome) -> u64
    ensures value { result ≡ length (outcome_fields outcome.now) }
    ensures most { result ≤ 18 }
{
    outcome_bytes(outcome).len() as u64
}

// The message that an action is about.
fn target_size(target: &Target) -> u64
    ensures value { result ≡ length (target_field target.now) }
    ensures most { result ≤ 138 }
{
    match target {
        Target::Real { name, .. } => 9 + name_size(name),
        Target::Dummy(_) => 5,
    }
}

// A name behind its length.
pub(crate) fn name_size(name: &BoxName) -> u64
    ensures value { result ≡ length (counted name.now) }
    ensures most { result ≤ 129 }
{
    1 + name.as_bytes().len() as u64
}

// Names, one behind the other.
fn names_size(names: &[BoxName]) -> u64
    requires { length names.now ≤ 32 }
    ensures value { result ≡ length (flat_map counted names.now) }
    ensures most { result ≤ length names.now * 129 }
{
    let mut size = 0;
    for name in names {
        size += name_size(name);
    }
    size
}

// A key behind its length.
fn key_size(key: &FlagKey) -> u64
    ensures value { result ≡ length (counted key.now) }
    ensures most { result ≤ 256 }
{
    1 + key.as_bytes().len() as u64
}

// Keys, one behind the other.
fn keys_size(keys: &[FlagKey]) -> u64
    requires { length keys.now ≤ 1024 }
    ensures value { result ≡ length (flat_map counted keys.now) }
    ensures most { result ≤ length keys.now * 256 }
{
    let mut size = 0;
    for key in keys {
        size += key_size(key);
    }
    size
}

// Flags behind their count.
fn flags_size(flags: &FlagSet) -> u64
    requires { length flags.now ≤ 1024 }
    ensures value { result ≡ length (flag_field flags.now) }
    ensures most { result ≤ 262146 }
{
    2 + keys_size(flags.keys())
}

// A row.
#[tactic(auto, unfolding(crate::specs::Fields::row_field))]
fn row_size(uid: Uid, row: &Row) -> u64
    requires { length row.now.flags ≤ 1024 }
    ensures value { result ≡ length (row_field (uid, row.now)) }
    ensures most { result ≤ 262158 }
{
    12 + flags_size(&row.flags)
}

// Rows, one behind the other.
fn rows_size(rows: &[(Uid, Row)]) -> u64
    requires few { length rows.now ≤ MAX_ROWS }
    requires flags { HaveFewFlags rows.now }
    ensures value { result ≡ length (flat_map row_field rows.now) }
    ensures most { result ≤ length rows.now * 262158 }
{
    let mut size = 0;
    for (uid, row) in rows {
        size += row_size(*uid, row);
    }
    size
}

// Ranges of UIDs, one behind the other: fewer than there are UIDs.
#[tactic(auto, using(crate::proofs::Counts::few_ranges, crate::proofs::Counts::ranges_length))]
fn ranges_size(set: &UidSet) -> u64
    ensures value { result ≡ length (flat_map range_field set.now) }
    ensures most { result < 2 ^ 35 }
{
    8 * set.ranges().len() as u64
}

// What a mailbox became.
#[tactic(auto, unfolding(crate::specs::Bodies::delta_fields, crate::specs::Bodies::mark_fields, crate::specs::Bodies::range_fields, crate::specs::Bodies::row_fields))]
fn delta_size(delta: &Delta) -> u64
    requires few { length delta.now.rows ≤ MAX_ROWS }
    requires flags { HaveFewFlags delta.now.rows }
    ensures value { result ≡ length (delta_fields delta.now) }
    ensures most { result < 2 ^ 60 }
{
    25 + ranges_size(&delta.vanished) + rows_size(delta.rows.as_slice())
}
