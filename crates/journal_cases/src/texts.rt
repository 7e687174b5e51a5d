//! Texts of a case.

use cases::{Fault, number_of};
use std::alloc::Global;

/// The first word of a text, and what stands behind it.
pub fn phrase_of(text: &str) -> (&str, &str) {
    text.split_once(' ').unwrap_or((text, ""))
}

/// What stands before a mark and behind it.
pub fn split<'a>(text: &'a str, mark: &str) -> Result<(&'a str, &'a str), Fault> {
    text.split_once(mark).ok_or(Fault::Form)
}

/// A text of its own.
pub fn owned(alloc: Global, text: &str) -> Result<String, Fault> {
    Ok(String::from_str(alloc, text)?)
}

/// The number that a text is.
pub fn number(text: &str) -> Result<u64, Fault> {
    number_of(text.as_bytes()).ok_or(Fault::Form)
}
