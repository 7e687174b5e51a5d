//! What is kept of a book beside a server, whatever client, server, others, losses and stops do.
#![tactic(auto)]

mod laws;
mod plain_boxes;
mod plain_fresh;
mod plain_ids;
mod plain_once;
mod plain_open;

pub use laws::{
    conditions_are_needed, counts_by_action, each_kind_takes_effect, goes_on_later, had_its_effect,
    had_no_effect, intents_follow, kept_always, kept_by_book, leaves_the_rest, never_twice,
    outcomes_fit, plain_decides, sound_stays, steps_of_connection, steps_of_writing, takes_effect,
    targets_resolve, worked_rows,
};
pub use plain_fresh::caches_fresh;
pub use plain_once::counts_right;
pub use plain_open::intent_open;
