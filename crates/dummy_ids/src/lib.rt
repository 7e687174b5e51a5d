//! The messages that have no UID yet: which message a target stands for, and in which mailbox it is (RFC 9051, section 2.3.1.1).
#![tactic(auto)]

mod places;
mod resolving;

pub use places::{box_of, makes_into, to_of};
pub use resolving::resolve;
