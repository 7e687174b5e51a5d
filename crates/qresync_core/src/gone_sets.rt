//! The UIDs that lines tell to be gone, one line after the other (RFC 7162, section 3.2.10).

ghost use Rattle.std.specs.Prelude.{◌≡◌, ◌≤◌, ◌&&◌, ◌||◌, ◌++◌, ◌∷◌, ◌-◌, [], ℕ, IfOk, IfSome, OnOk, OnErr, is_none, length, take};
ghost use Rattle.std.specs.Option.{option_copied};
ghost use Rattle.mailbox_cache.specs.Rows.{has_uid, row_at};
ghost use Rattle.qresync_core.specs.Making.{made_gone};
ghost use Rattle.qresync_core.specs.SetsTold.{all_ranges};

use crate::gone::uids_of;
use mailbox_cache::{Cache, Row};
use std::alloc::{AllocError, Global};
use std::marker::Model;
use uid_sets::{Uid, UidSet};

// What so many lines told to be gone.
#[derive(Drop)]
struct Lines {
    count: u64,
    uids: UidSet,
}

/// The UIDs that are gone. Contracts see the ranges of all lines.
///
/// They stand in sets, each of more lines than the one behind it: where the last one has as many as the one before it, the two
/// become one. So a line of few UIDs costs no walk over all, in whatever order the lines come.
#[derive(Drop)]
pub(crate) struct GoneSets {
    sets: Vec<Lines>,
}

impl Model for GoneSets {
    ghost use Rattle.std.specs.Prelude.{List};
    ghost use Rattle.uid_sets.specs.declared.uid.UidRange.{UidRange};
    ghost use Rattle.qresync_core.specs.SetsTold.{all_ranges};

    ghost Value = { List UidRange };

    ghost view = { λ gone. all_ranges gone.sets.items };
}

impl GoneSets {
    /// Nothing is gone. It takes no memory.
    pub(crate) fn new(alloc: Global) -> GoneSets
        ensures { result ≡ [] }
    {
        GoneSets {
            sets: Vec::new(alloc),
        }
    }

    /// What one line more tells.
    pub(crate) fn push(&mut self, uids: UidSet) -> Result<(), AllocError>
        ensures pushed { OnOk result ((uid : ℕ) → has_uid self.new uid ≡ (has_uid self.old uid || has_uid uids uid)) }
        ensures kept { OnErr result (self.new ≡ self.old) }
    {
        self.sets.push(Lines { count: 1, uids })?;
        join_last(&mut self.sets);
        Ok(())
    }

    /// The UIDs that are gone, but those of the rows; none where nothing was kept.
    pub(crate) fn beside(
        &self,
        kept: Option<&Cache>,
        rows: &[(Uid, Row)],
    ) -> Result<UidSet, AllocError>
        ensures { IfOk result (λ gone. (uid : ℕ) → has_uid gone uid
            ≡ made_gone (option_copied kept.entry) self.now (row_at uid rows.now) uid) }
    {
        if kept.is_none() {
            return Ok(UidSet::none(*self.sets.allocator()));
        }
        self.without(rows)
    }

    // The UIDs that are gone, but those of the rows.
    fn without(&self, rows: &[(Uid, Row)]) -> Result<UidSet, AllocError>
        ensures { IfOk result (λ gone. (uid : ℕ) → has_uid gone uid
            ≡ (has_uid self.now uid && is_none (row_at uid rows.now))) }
    {
        let alloc = *self.sets.allocator();
        let gone = joined(alloc, &self.sets)?;
        gone.minus(&uids_of(alloc, rows)?)
    }
}

// Makes one of the last two sets, as long as the last one has as many lines.
fn join_last(sets: &mut Vec<Lines>)
    ensures { (uid : ℕ) → has_uid (all_ranges sets.new.items) uid ≡ has_uid (all_ranges sets.old.items) uid }
{
    while let Some(both) = last_two(sets) {
        let place = sets.len() - 2;
        sets[place] = both;
        sets.truncate(place + 1);
    }
}

// What the last two sets are together: none where the last one has fewer lines, or memory is wanting.
fn last_two(sets: &[Lines]) -> Option<Lines>
    ensures two { IfSome result (λ both. 2 ≤ length sets.now) }
    ensures same { IfSome result (λ both. (uid : ℕ)
        → has_uid (all_ranges (take (length sets.now - 2) sets.now ++ both ∷ [])) uid
        ≡ has_uid (all_ranges sets.now) uid) }
{
    let (last, front) = sets.split_last()?;
    let (before, _) = front.split_last()?;
    if last.count < before.count {
        return None;
    }
    let Ok(uids) = before.uids.union(&last.uids) else {
        return None;
    };
    let count = last.count.saturating_add(before.count);
    Some(Lines { count, uids })
}

// What all sets are together.
fn joined(alloc: Global, sets: &[Lines]) -> Result<UidSet, AllocError>
    ensures { IfOk result (λ gone. (uid : ℕ) → has_uid gone uid ≡ has_uid (all_ranges sets.now) uid) }
{
    let mut gone = UidSet::none(alloc);
    for lines in sets {
        gone = gone.union(&lines.uids)?;
    }
    Ok(gone)
}
