//! Two ways to one answer.

use cases::{Answer, WordFault};

/// Adds what came, and where another way gave something else, a note and that too.
pub fn put_compared(
    answer: &mut Answer,
    came: &Answer,
    note: &str,
    other: &Answer,
) -> Result<(), WordFault> {
    answer.word(came.as_str())?;
    put_unlike(answer, came, note, other)
}

/// Adds a note and what the other way gave, where that isn't the same.
pub fn put_unlike(
    answer: &mut Answer,
    came: &Answer,
    note: &str,
    other: &Answer,
) -> Result<(), WordFault> {
    if other.as_bytes() == came.as_bytes() {
        return Ok(());
    }
    answer.word(note)?;
    answer.word(other.as_str())
}
