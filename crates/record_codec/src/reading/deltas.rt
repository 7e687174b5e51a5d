//! Reads what a mailbox became.

ghost use Rattle.std.specs.Prelude.{◌≡◌, ◌<◌, ◌^◌, IfOk, OnOk};
ghost use Rattle.uid_sets.specs.UidSet.{IsCanonical};
ghost use Rattle.mailbox_cache.specs.Rows.{has_uid, Rises, AreApart};
ghost use Rattle.record_codec.specs.Reading.{many_at, low_at, high_at, range_at, behind_range, vanished_at, row_uid_at, row_at, row_uid, row_list_at, bit_at, told_of, told_at};
ghost use Rattle.record_codec.specs.Spelling.{SpellFlags};
ghost use Rattle.record_codec.specs.Giving.{Gives};

use super::Fields;
use super::keys::LastFlags;
use crate::misfit::Misfit;
use mail_base::{List, MAX_ROWS};
use mailbox_cache::{Delta, Row};
use std::alloc::Global;
use uid_sets::{Uid, UidRange, UidSet};

impl Fields<'_> {
    /// What a mailbox became.
    #[tactic(auto, unfolding(crate::specs::Reading::told_at))]
    pub(crate) fn delta(&mut self, alloc: Global) -> Result<Delta, Misfit>
        ensures { Gives told_of result self.new.rest.now (told_at self.old.rest.now) }
    {
        let whole = self.bit()?;
        let validity = self.validity()?;
        let highest = self.modseq()?;
        let uidnext = self.uid()?;
        let vanished = self.vanished(alloc)?;
        let rows = self.row_list(alloc, &vanished)?;
        Ok(Delta {
            whole,
            validity,
            highest,
            uidnext,
            vanished,
            rows,
        })
    }

    // A truth value.
    #[tactic(auto, unfolding(crate::specs::Reading::bit_at))]
    fn bit(&mut self) -> Result<bool, Misfit>
        ensures { Gives (λ x. x) result self.new.rest.now (bit_at self.old.rest.now) }
    {
        let left = self.rest.len();
        let bit = self.byte()?;
        if bit == 0 {
            return Ok(false);
        }
        if bit == 1 {
            return Ok(true);
        }
        Err(Misfit::Left(left))
    }

    // The vanished UIDs.
    #[tactic(auto, unfolding(crate::specs::Reading::vanished_at))]
    fn vanished(&mut self, alloc: Global) -> Result<UidSet, Misfit>
        ensures { Gives (λ x. x) result self.new.rest.now (vanished_at self.old.rest.now) }
    {
        let count = self.u32()?;
        let ranges = self.ranges(alloc, count)?;
        match UidSet::of(ranges) {
            Some(set) => Ok(set),
            None => Err(Misfit::Left(0)),
        }
    }

    // So many ranges, which rise and don't touch.
    fn ranges(&mut self, alloc: Global, count: u32) -> Result<Vec<UidRange>, Misfit>
        ensures read { Gives (λ x. x.items) result self.new.rest.now (many_at range_at behind_range count 0 self.old.rest.now) }
        ensures canonical { IfOk result (λ ranges. IsCanonical ranges.items) }
    {
        let mut ranges = Vec::new(alloc);
        let mut floor = 0;
        let mut left = count;
        while left > 0 {
            let range = self.range(floor)?;
            ranges.push(range)?;
            floor = u64::from(range.high) + 1;
            left -= 1;
        }
        Ok(ranges)
    }

    // A range that begins above floor.
    #[tactic(auto, unfolding(crate::specs::Reading::range_at))]
    fn range(&mut self, floor: u64) -> Result<UidRange, Misfit>
        ensures read { Gives (λ x. x) result self.new.rest.now (range_at floor self.old.rest.now) }
        ensures fits { IfOk result (λ range. range.high < 2 ^ 32) }
    {
        let low = self.low(floor)?;
        let high = self.high(low)?;
        Ok(UidRange { low, high })
    }

    // The lower end of a range that begins above floor.
    #[tactic(auto, unfolding(crate::specs::Reading::low_at))]
    fn low(&mut self, floor: u64) -> Result<u32, Misfit>
        ensures { Gives (λ x. x) result self.new.rest.now (low_at floor self.old.rest.now) }
    {
        let left = self.rest.len();
        let low = self.u32()?;
        if u64::from(low) <= floor {
            return Err(Misfit::Left(left));
        }
        Ok(low)
    }

    // The upper end of a range.
    #[tactic(auto, unfolding(crate::specs::Reading::high_at))]
    fn high(&mut self, low: u32) -> Result<u32, Misfit>
        ensures read { Gives (λ x. x) result self.new.rest.now (high_at low self.old.rest.now) }
        ensures fits { IfOk result (λ high. high < 2 ^ 32) }
    {
        let left = self.rest.len();
        let high = self.u32()?;
        if high < low {
            return Err(Misfit::Left(left));
        }
        Ok(high)
    }
}

impl<'a> Fields<'a> {
    // At most `MAX_ROWS` rows, none of which is vanished.
    #[tactic(auto, unfolding(crate::specs::Reading::row_list_at))]
    fn row_list(&mut self, alloc: Global, vanished: &UidSet) -> Result<List<(Uid, Row)>, Misfit>
        ensures read { Gives (λ x. x) result self.new.rest.now (row_list_at vanished.now self.old.rest.now) }
        ensures rising { IfOk result (λ rows. Rises rows) }
        ensures apart { IfOk result (λ rows. AreApart vanished.now rows) }
    {
        let left = self.rest.len();
        let count = self.u32()?;
        if count as usize > MAX_ROWS {
            return Err(Misfit::Left(left));
        }
        let rows = self.rows(alloc, vanished, count)?;
        Ok(List::of(rows))
    }

    // So many rows, whose UIDs rise.
    fn rows(
        &mut self,
        alloc: Global,
        vanished: &UidSet,
        count: u32,
    ) -> Result<Vec<(Uid, Row)>, Misfit>
        ensures { Gives (λ x. x.items) result self.new.rest.now (many_at (row_at vanished.now) row_uid count 0 self.old.rest.now) }
    {
        // A row has 14 bytes at least, so that a count that is too high takes no room.
        let room = (count as usize).min(self.rest.len() / 14);
        let mut rows = Vec::with_capacity(alloc, room)?;
        let mut last = LastFlags::none(alloc);
        let mut floor = 0;
        let mut left = count;
        while left > 0 {
            let (uid, row) = self.row(alloc, vanished, floor, &mut last)?;
            floor = uid.number();
            rows.push((uid, row))?;
            left -= 1;
        }
        Ok(rows)
    }

    // A row whose UID is above floor.
    #[tactic(auto, unfolding(crate::specs::Reading::row_at))]
    fn row(
        &mut self,
        alloc: Global,
        vanished: &UidSet,
        floor: u32,
        last: &mut LastFlags<'a>,
    ) -> Result<(Uid, Row), Misfit>
        requires { SpellFlags last.old.text.now last.old.flags }
        ensures read { Gives (λ x. x) result self.new.rest.now (row_at vanished.now floor self.old.rest.now) }
        ensures last { OnOk result (SpellFlags last.new.text.now last.new.flags) }
    {
        let uid = self.row_uid(vanished, floor)?;
        let modseq = self.modseq()?;
        let flags = self.flags_like(alloc, last)?;
        Ok((uid, Row { flags, modseq }))
    }

    // A UID above floor that isn't vanished.
    #[tactic(auto, unfolding(crate::specs::Reading::row_uid_at))]
    fn row_uid(&mut self, vanished: &UidSet, floor: u32) -> Result<Uid, Misfit>
        ensures { Gives (λ x. x) result self.new.rest.now (row_uid_at vanished.now floor self.old.rest.now) }
    {
        let left = self.rest.len();
        let number = self.u32()?;
        if number <= floor {
            return Err(Misfit::Left(left));
        }
        let Some(uid) = Uid::new(number) else {
            return Err(Misfit::Left(left));
        };
        if has_uid(vanished, uid) {
            return Err(Misfit::Left(left));
        }
        Ok(uid)
    }
}

// Whether the UID is one of the set, by a binary search.
fn has_uid(set: &UidSet, uid: Uid) -> bool
    ensures { result ≡ has_uid set.now uid }
{
    set.contains(uid)
}
