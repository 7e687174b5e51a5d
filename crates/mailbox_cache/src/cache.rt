//! A mailbox as the last resynchronisation left it (RFC 7162, section 3.2).

ghost use Rattle.std.specs.Prelude.{◌≡◌, ◌≤◌, ◌<◌, ◌↔◌, ◌+◌, ℕ, length, IfOk, IsTrue, true, false};
ghost use Rattle.mailbox_cache.specs.Rows.{row_at, has_uid, told, room_for};
ghost use Rattle.mailbox_cache.specs.Cache.{first, applied};

use crate::merge::{put_rows, remove_uids};
use crate::rows::copied;
use crate::search::{kept_len, new_len};
use crate::{Delta, Room, Rows};
use mail_base::{ModSeq, Validity};
use std::alloc::{AllocError, Global};
use uid_sets::Uid;

/// The rows of a mailbox by UID, with its UIDVALIDITY, its highest mod-sequence and its UIDNEXT.
#[derive(Drop)]
pub struct Cache {
    pub validity: Validity,
    pub highest: ModSeq,
    pub uidnext: Uid,
    pub rows: Rows,
}

impl Cache {
    /// The cache of a mailbox whose messages were all told. Fails for want of memory alone.
    pub fn first(alloc: Global, delta: &Delta) -> Result<Cache, AllocError>
        requires { delta.now.whole ≡ true }
        ensures value { IfOk result (λ cache. cache ≡ first delta.now) }
    {
        let rows = copied(alloc, delta.rows.as_slice())?;
        Ok(Cache {
            validity: delta.validity,
            highest: delta.highest,
            uidnext: delta.uidnext,
            rows: Rows::of(rows),
        })
    }

    /// The cache after a resynchronisation: without the vanished UIDs, and with each row of the delta in place of an
    /// old one. It costs a copy of the cache and of the delta, and what `after` costs. Fails for want of memory alone.
    pub fn apply(&self, alloc: Global, delta: &Delta) -> Result<Cache, AllocError>
        requires part { delta.now.whole ≡ false }
        requires same { delta.now.validity ≡ self.now.validity }
        requires rises { self.now.highest ≤ delta.now.highest }
        ensures value { IfOk result (λ cache. cache ≡ applied self.now delta.now) }

        // The same as a finite map: what the delta tells of a UID, and of any other what the cache had.
        ensures rows { IfOk result (λ cache. (uid : ℕ) → row_at uid cache.rows
            ≡ told (row_at uid delta.now.rows) (has_uid delta.now.vanished uid) (row_at uid self.now.rows)) }
    {
        let cache = self.copy()?;
        let delta = delta.copy(alloc)?;
        cache.after(delta)
    }

    /// What `first` gives, of a delta that is given up: its rows are the cache's. It takes no memory.
    pub fn of(delta: Delta) -> Cache
        requires { delta.whole ≡ true }
        ensures { result ≡ first delta }
    {
        Cache {
            validity: delta.validity,
            highest: delta.highest,
            uidnext: delta.uidnext,
            rows: Rows::of(delta.rows.into_vec()),
        }
    }

    /// What `apply` gives, of a cache and a delta that are given up: no row is copied. Fails for want of memory alone.
    pub fn after(self, delta: Delta) -> Result<Cache, AllocError>
        requires part { delta.whole ≡ false }
        requires same { delta.validity ≡ self.validity }
        requires rises { self.highest ≤ delta.highest }
        ensures value { IfOk result (λ cache. cache ≡ applied self delta) }

        // As of `apply`.
        ensures rows { IfOk result (λ cache. (uid : ℕ) → row_at uid cache.rows
            ≡ told (row_at uid delta.rows) (has_uid delta.vanished uid) (row_at uid self.rows)) }
    {
        let room = self.room(&delta)?;
        Ok(self.within(delta, room))
    }

    /// The room that the cache needs for a delta. It takes no memory where no row is told.
    pub fn room(&self, delta: &Delta) -> Result<Room, AllocError>
        ensures { IfOk result (λ room. room_for self.now.rows delta.now.rows ≤ room) }
    {
        self.rows.room(delta.rows.len())
    }

    /// What `after` gives, with the room that it needs. It takes no memory, and never fails. Where nothing was told, it sets
    /// three numbers; a told row costs a look-up. Other rows move where a new UID isn't the greatest: those above it, and all
    /// of them where the rows have no room for the new ones.
    pub fn within(self, delta: Delta, room: Room) -> Cache
        requires part { delta.whole ≡ false }
        requires same { delta.validity ≡ self.validity }
        requires rises { self.highest ≤ delta.highest }
        requires room { room_for self.rows delta.rows ≤ room }
        ensures { result ≡ applied self delta }
    {
        let told = delta.rows.into_vec();
        let rows = self.rows.after(&delta.vanished, told, room);
        Cache {
            validity: delta.validity,
            highest: delta.highest,
            uidnext: delta.uidnext,
            rows,
        }
    }

    /// The same cache once more. Fails for want of memory alone.
    pub fn copy(&self) -> Result<Cache, AllocError>
        ensures { IfOk result (λ cache. cache ≡ self.now) }
    {
        let rows = self.rows.copy()?;
        Ok(Cache {
            validity: self.validity,
            highest: self.highest,
            uidnext: self.uidnext,
            rows,
        })
    }

    /// Whether the cache would have more than `limit` rows after a resynchronisation. It costs nothing where all rows
    /// of both stay below the limit, and else a pass over the cache and a look-up for each row of the delta.
    pub fn would_exceed(&self, limit: usize, delta: &Delta) -> bool
        ensures { IsTrue result ↔ (limit < length (applied self.now delta.now).rows) }
    {
        if self.fits_with(limit, delta.rows.len()) {
            return false;
        }
        let kept = kept_len(self.rows.as_slice(), &delta.vanished);
        let new = new_len(self.rows.as_slice(), delta.rows.as_slice());
        kept > limit || new > limit - kept
    }

    // Whether so many more rows keep the cache within the limit, if each of them is new.
    fn fits_with(&self, limit: usize, more: usize) -> bool
        ensures { IsTrue result ↔ (length self.now.rows + more ≤ limit) }
    {
        more <= limit && self.rows.len() <= limit - more
    }
}
