//! What a resynchronisation told of a mailbox (RFC 7162, sections 3.2.5 and 3.2.6).

ghost use Rattle.std.specs.Prelude.{◌≡◌, ◌<◌, [], ◌∷◌, ◌++◌, false, IfOk, OnOk, OnErr};
ghost use Rattle.mailbox_cache.specs.Rows.{Rises, Rises-prop, AreApart, AreApart-prop, has_uid, last_uid};

use crate::Row;
use crate::rows::copied;
use mail_base::{List, ModSeq, Validity};
use std::alloc::{AllocError, Global};
use uid_sets::{Uid, UidSet};

/// What a mailbox became: its numbers, the UIDs that are gone, and a row for each message that is new or has changed.
/// Where it is `whole`, the rows are those of all messages.
#[derive(Drop)]
pub struct Delta {
    pub whole: bool,
    pub validity: Validity,
    pub highest: ModSeq,
    pub uidnext: Uid,
    pub vanished: UidSet,
    pub rows: List<(Uid, Row)>,
    pub ghost rising: { Rises rows } by { Rises-prop rows },
    pub ghost apart: { AreApart vanished rows } by { AreApart-prop vanished rows },
}

impl Delta {
    /// The last row's UID, and 0 where there is no row.
    pub fn last_uid(&self) -> u32
        ensures { result ≡ last_uid self.now.rows }
    {
        match self.rows.as_slice().split_last() {
            Some(((uid, _), _)) => uid.number(),
            None => 0,
        }
    }

    /// Adds a row behind the others. On want of memory nothing is added.
    pub fn push(&mut self, uid: Uid, row: Row) -> Result<(), AllocError>
        requires above { last_uid self.old.rows < uid }
        requires apart { has_uid self.old.vanished uid ≡ false }
        ensures done { OnOk result (self.new.rows ≡ self.old.rows ++ (uid, row) ∷ []) }
        ensures kept { OnErr result (self.new.rows ≡ self.old.rows) }

        // What it tells beside its rows stays.
        ensures whole { self.new.whole ≡ self.old.whole }
        ensures validity { self.new.validity ≡ self.old.validity }
        ensures highest { self.new.highest ≡ self.old.highest }
        ensures uidnext { self.new.uidnext ≡ self.old.uidnext }
        ensures vanished { self.new.vanished ≡ self.old.vanished }
    {
        self.rows.push((uid, row))?;
        Ok(())
    }

    /// The same delta once more. Fails for want of memory alone.
    pub fn copy(&self, alloc: Global) -> Result<Delta, AllocError>
        ensures { IfOk result (λ delta. delta ≡ self.now) }
    {
        let vanished = self.vanished.copy()?;
        let rows = copied(alloc, self.rows.as_slice())?;
        Ok(Delta {
            whole: self.whole,
            validity: self.validity,
            highest: self.highest,
            uidnext: self.uidnext,
            vanished,
            rows: List::of(rows),
        })
    }
}
