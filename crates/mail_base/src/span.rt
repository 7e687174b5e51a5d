//! A place in a text.

/// The bytes of a text from `low` up to, and without, `high`, counted from 0.
#[derive(Clone, Copy, Debug, PartialEq, Eq)]
pub struct Span {
    pub low: usize,
    pub high: usize,
}
