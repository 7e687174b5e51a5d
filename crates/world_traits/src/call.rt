//! What a disk in memory remembers of a call that changed something.

use crate::Side;

/// A call that changed the files or what is synced of them.
#[derive(Drop)]
pub enum Did {
    /// These bytes were written at this place.
    Wrote {
        /// The file.
        side: Side,
        /// The place, in bytes from 0.
        at: u64,
        /// The bytes.
        bytes: Vec<u8>,
    },
    /// This file was synced.
    Synced {
        /// The file.
        side: Side,
    },
}
