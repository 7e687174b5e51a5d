//! The texts that tell of the queue and of the conflicts, and the line of each status.
#![tactic(auto)]

mod queue_lines;
mod report_lines;
mod told;
mod writing;

pub use queue_lines::{put_action, queue_text, state_text};
pub use report_lines::{effect_text, kind_text, put_numbers, report};
pub use told::{Told, a_full_journal_is_told_as_a_limit};
pub use writing::{put_keys, put_number};
