//! The texts of commands as they come to a server (RFC 9051, sections 2.2.1, 4.3 and 6): bytes are cut into parts, and parts are
//! the whole text of one command, the front of one, or neither.
#![tactic(auto)]

mod cutting;
mod first_word;
mod laws;
mod octets;
mod outcome;
mod reading;
mod texts;

pub use cutting::part_end;
pub use first_word::{named, tag_of_text};
pub use laws::{first_parts_tell_tags, no_text_is_a_front, texts_are_cut};
pub use outcome::Heard;
pub use texts::heard;
