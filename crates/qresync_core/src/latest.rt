//! Rows as they are told, one by one (RFC 9051, section 7.5.2).

ghost use Rattle.std.specs.Prelude.{◌≡◌, ◌∷◌, [], ℕ, IfOk, OnOk, OnErr};
ghost use Rattle.std.specs.Option.{option_or, option_to_list};
ghost use Rattle.mailbox_cache.specs.Rows.{Rises, row_at};
ghost use Rattle.qresync_core.specs.ReadRows.{last_row, row_in};

use crate::rows::{in_order, put_in_order, row_of};
use imap_model::Fetched;
use mailbox_cache::Row;
use std::alloc::{AllocError, Global};
use std::marker::Model;
use uid_sets::Uid;

// Fewer rows than this aren't put in order before the end.
const FEW: usize = 64;

/// Rows in the order in which they were told, without some of those behind which another one of their UID was told. Contracts
/// see them with the last one first, so that the row of a UID is the one that counts.
///
/// As often as their number doubled they are put in order, so that no UID keeps more than a few rows.
#[derive(Drop)]
pub(crate) struct Latest {
    content: Vec<(Uid, Row)>,
    // How many rows there may be before they are put in order.
    limit: usize,
}

impl Model for Latest {
    ghost use Rattle.std.specs.Prelude.{ℕ, List, reverse};
    ghost use Rattle.mailbox_cache.specs.declared.row.Row.{Row};

    ghost Value = { List (ℕ × Row) };

    ghost view = { λ latest. reverse latest.content.items };
}

impl Latest {
    /// No row. It takes no memory.
    pub(crate) fn new(alloc: Global) -> Latest
        ensures { result ≡ [] }
    {
        Latest {
            content: Vec::new(alloc),
            limit: FEW,
        }
    }

    /// The allocator that it keeps.
    pub(crate) fn allocator(&self) -> Global {
        *self.content.allocator()
    }

    /// The row of a FETCH that is one.
    pub(crate) fn note(&mut self, fetched: Fetched) -> Result<(), AllocError>
        ensures noted { OnOk result ((uid : ℕ) → row_at uid self.new
            ≡ option_or (row_at uid (option_to_list (row_in fetched))) (row_at uid self.old)) }
        ensures kept { OnErr result (self.new ≡ self.old) }
    {
        match row_of(fetched) {
            Some((uid, row)) => self.push(uid, row),
            None => Ok(()),
        }
    }

    // A row more.
    fn push(&mut self, uid: Uid, row: Row) -> Result<(), AllocError>
        ensures pushed { OnOk result ((other : ℕ) → row_at other self.new ≡ row_at other ((uid, row) ∷ self.old)) }
        ensures kept { OnErr result (self.new ≡ self.old) }
    {
        self.content.push((uid, row))?;
        self.trim();
        Ok(())
    }

    // Lets go of rows that don't count, where so many were told. Where memory is wanting, they stay.
    fn trim(&mut self)
        ensures { (uid : ℕ) → row_at uid self.new ≡ row_at uid self.old }
    {
        if self.content.len() < self.limit {
            return;
        }
        trim(&mut self.content);
        self.limit = self.content.len().saturating_mul(2).max(FEW);
    }

    /// The rows by UID, rising.
    pub(crate) fn in_order(self) -> Result<Vec<(Uid, Row)>, AllocError>
        ensures rising { IfOk result (λ rows. Rises rows.items) }
        ensures rows { IfOk result (λ rows. (uid : ℕ) → row_at uid rows.items ≡ row_at uid self) }
    {
        in_order(self.content)
    }
}

// Puts rows in order, if there is memory for it.
fn trim(rows: &mut Vec<(Uid, Row)>)
    ensures { (uid : ℕ) → last_row uid rows.new.items ≡ last_row uid rows.old.items }
{
    match put_in_order(rows) {
        Ok(()) => {}
        Err(_) => {}
    }
}
