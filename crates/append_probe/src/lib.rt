//! Whether an append whose reply was lost took effect: what the server is asked, and what follows from its answers
//! (RFC 9051, sections 6.3.12, 6.4.4 and 6.4.5; RFC 5322, section 3.6.4).
#![tactic(auto)]

mod asking;
mod finding;
mod identifier;
mod laws;
#[cfg(test)]
mod tests;
mod verdict;

pub use asking::{question, question_for};
pub use finding::candidates;
pub use identifier::has_its_id;
pub use laws::{parts_are_found, parts_are_parts, search_covers, verdict_counts};
pub use verdict::{Verdict, verdict_of};
