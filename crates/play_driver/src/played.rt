//! What a run came to.

/// How many actions a run settled, and how many of them as conflicts.
#[derive(Clone, Copy, Debug, PartialEq, Eq)]
pub struct Played {
    pub settled: u32,
    pub conflicts: u32,
}
