//! What the user asked for and what became of it: the queue of actions, and the book that a journal's events make
//! (RFC 4549, section 4.2).
#![tactic(auto)]

mod action;
mod allows;
mod book;
mod event;
mod found;
mod intent;
mod laws;
mod outcome;
mod queue;
mod queued;
mod ready;
mod restating;
mod rule;
mod target;

pub use action::Action;
pub use book::{Book, Known};
pub use event::Event;
pub use found::Found;
pub use intent::Intent;
pub use laws::{book_folds, books_are_well, cache_folds, queue_folds, rows_follow};
pub use outcome::{Kind, Outcome, Place};
pub use queue::Queue;
pub use queued::Queued;
pub use ready::Ready;
pub use restating::{ROWS_AT_ONCE, parts_of, pieces_tell};
pub use rule::{Rule, Version};
pub use target::Target;
