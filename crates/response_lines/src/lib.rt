//! The lines that a server tells its responses in (RFC 9051, section 7; RFC 7162, section 3).
#![tactic(auto)]

mod codes;
mod fetch_line;
mod found_line;
mod greeting;
mod line;
mod texts;
mod told;

pub use line::Spelling;
pub use texts::put;
pub use told::replies_are_tellable;
