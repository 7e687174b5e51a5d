//! A mailbox as the user sees it before the queue is played (RFC 4549, section 4.2).
#![tactic(auto)]

mod acting;
mod listing;
mod message;
mod seen;
mod shown;
mod touched;

pub use listing::view;
pub use message::Message;
pub use seen::{Ident, Seen};
pub use shown::is_shown;
