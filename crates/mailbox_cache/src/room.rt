//! Room for the rows that a cache is to take.

ghost use Rattle.std.specs.Prelude.{◌≡◌, ◌≤◌, ◌+◌, IfOk, length, vec_capacity};

use crate::Row;
use std::alloc::{AllocError, Global};
use std::marker::Model;
use uid_sets::Uid;

/// Memory for rows, without any row. Contracts see how many it is for.
#[derive(Drop)]
pub struct Room {
    content: Vec<(Uid, Row)>,
}

impl Model for Room {
    ghost use Rattle.std.specs.Prelude.{◌≡◌, ℕ, length, vec_capacity};

    ghost Value = { ℕ };

    ghost view = { λ room. vec_capacity room.content };

    ghost invariant = { λ room. length room.content.items ≡ 0 };
}

impl Room {
    /// Room for no row. It takes no memory.
    pub fn none(alloc: Global) -> Room {
        Room {
            content: Vec::new(alloc),
        }
    }

    // Room for so many rows and so many more, and for half of the first ones again: where all rows move there, many more are
    // taken before they move again.
    pub(crate) fn new(alloc: Global, len: usize, more: usize) -> Result<Room, AllocError>
        ensures { IfOk result (λ room. len + more ≤ room) }
    {
        let Some(least) = len.checked_add(more) else {
            return Err(AllocError);
        };
        let content = Vec::with_capacity(alloc, least.saturating_add(len / 2))?;
        Ok(Room { content })
    }

    // The memory.
    pub(crate) fn into_vec(self) -> Vec<(Uid, Row)>
        ensures empty { length result.items ≡ 0 }
        ensures capacity { vec_capacity result ≡ self }
    {
        self.content
    }
}
