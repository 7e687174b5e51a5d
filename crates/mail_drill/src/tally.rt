//! What a drill counts.

/// How many commands were accepted, and how many refused.
#[derive(Clone, Copy, Debug, PartialEq, Eq)]
pub struct Given {
    /// How many were accepted.
    pub accepted: u32,
    /// How many were refused.
    pub refused: u32,
}

/// What became of the actions.
#[derive(Clone, Copy, Debug, PartialEq, Eq)]
pub struct Counts {
    /// How many have an outcome.
    pub settled: usize,
    /// How many took effect more than once.
    pub twice: usize,
    /// How many neither took effect once nor ended as a conflict.
    pub missing: usize,
}
