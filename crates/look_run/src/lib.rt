//! Two commands that only look at the journal: `history` and `letter N`.
#![tactic(auto)]

mod history;
mod letter;
mod look;
mod running;
mod runs;
mod words;

pub use history::{History, history_text};
pub use letter::{Letter, letter_of};
pub use look::{Look, LookReason};
pub use running::look_run;
pub use runs::looks_are_runs;
pub use words::look_of;
