//! From a command to the bytes that are sent: the one text of each (RFC 9051, section 6).
#![tactic(auto)]

mod argument;
mod held;
mod parts;
mod words;
mod writer;
mod writing;

pub use argument::astring;
pub use parts::Parts;
pub use writing::write;
