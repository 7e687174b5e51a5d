//! The header of a message: its fields, and the Message-ID (RFC 5322).
#![tactic(auto)]

mod field;
mod folding;
mod header;
mod header_line;
mod id_form;
mod identifier;
mod laws;
mod line_ends;

pub use field::{Field, Fields};
pub use folding::unfold;
pub use header::fields;
pub use identifier::{IdFault, MAX_ID, message_id};
pub use laws::{lines_are_the_text, the_body_changes_nothing};
pub use line_ends::crlf_of;
