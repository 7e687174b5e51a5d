//! A book on a journal: each event is on the disk before the book has it, and a stop leaves the book before or after.
#![tactic(auto)]

mod committing;
mod creating;
mod fault;
mod opening;
mod rules;
mod store;
mod turning;

pub use committing::{MAX_ACCEPTED, is_old};
pub use fault::{CommitFault, StoreFault};
pub use store::Store;
