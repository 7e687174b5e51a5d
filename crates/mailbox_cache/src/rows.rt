//! The rows of a mailbox by UID (RFC 7162, section 3.2).

ghost use Rattle.std.specs.Prelude.{◌≡◌, ◌≤◌, IfOk, length};
ghost use Rattle.std.specs.Option.{option_copied};
ghost use Rattle.mailbox_cache.specs.Rows.{row_at, put_rows, without_uids, room_for, told_room, Rises};

use crate::merge::{put_rows, remove_uids};
use crate::search::row_in;
use crate::{Room, Row};
use std::alloc::{AllocError, Global};
use std::marker::Model;
use uid_sets::{Uid, UidSet};

/// Rows by UID, rising, in one piece of memory. Contracts see them as the list of pairs, and not how many more are taken
/// without memory.
#[derive(Drop)]
pub struct Rows {
    content: Vec<(Uid, Row)>,
}

impl Model for Rows {
    ghost use Rattle.std.specs.Prelude.{ℕ, List};
    ghost use Rattle.mailbox_cache.specs.Rows.{Rises};
    ghost use Rattle.mailbox_cache.specs.declared.row.Row.{Row};

    ghost Value = { List (ℕ × Row) };

    ghost view = { λ rows. rows.content.items };

    ghost invariant = { λ rows. Rises rows.content.items };
}

impl Rows {
    // The rows of a `Vec`, which the value then holds. It takes no memory.
    pub(crate) fn of(content: Vec<(Uid, Row)>) -> Rows
        requires { Rises content.items }
        ensures { result ≡ content.items }
    {
        Rows { content }
    }

    /// How many rows there are.
    pub fn len(&self) -> usize
        ensures { result ≡ length self.now }
    {
        self.content.len()
    }

    /// The rows, to read them.
    pub fn as_slice(&self) -> &[(Uid, Row)]
        ensures value { result.now ≡ self.now }
        ensures rising { Rises self.now }
    {
        &self.content
    }

    /// The row of a UID, by a binary search.
    pub fn get(&self, uid: Uid) -> Option<&Row>
        ensures { option_copied result ≡ row_at uid self.now }
    {
        row_in(&self.content, uid)
    }

    // The rows, given up to change them.
    pub(crate) fn into_vec(self) -> Vec<(Uid, Row)>
        ensures value { result.items ≡ self }
        ensures rising { Rises self }
    {
        self.content
    }

    // The room that so many told rows need.
    pub(crate) fn room(&self, told: usize) -> Result<Room, AllocError>
        ensures { IfOk result (λ room. told_room (length self.now) told ≤ room) }
    {
        let alloc = *self.content.allocator();
        if told == 0 {
            return Ok(Room::none(alloc));
        }
        Room::new(alloc, self.content.len(), told)
    }

    // The rows without the vanished UIDs, and with the told ones. It takes no memory.
    pub(crate) fn after(self, vanished: &UidSet, told: Vec<(Uid, Row)>, room: Room) -> Rows
        requires told { Rises told.items }
        requires room { room_for self told.items ≤ room }
        ensures { result ≡ put_rows told.items (without_uids vanished.now self) }
    {
        let mut content = self.content;
        remove_uids(&mut content, vanished);
        if told.is_empty() {
            return Rows { content };
        }
        Rows {
            content: put_rows(content, told, room.into_vec()),
        }
    }

    /// The same rows once more. Fails for want of memory alone.
    pub fn copy(&self) -> Result<Rows, AllocError>
        ensures { IfOk result (λ rows. rows ≡ self.now) }
    {
        let content = copied(*self.content.allocator(), &self.content)?;
        Ok(Rows { content })
    }
}

/// The same rows once more.
pub(crate) fn copied(alloc: Global, rows: &[(Uid, Row)]) -> Result<Vec<(Uid, Row)>, AllocError>
    ensures { IfOk result (λ copies. copies.items ≡ rows.now) }
{
    let mut copies = Vec::with_capacity(alloc, rows.len())?;
    for (uid, row) in rows {
        copies.push((*uid, row.copy()?))?;
    }
    Ok(copies)
}
