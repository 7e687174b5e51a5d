//! The player, which decides from the book and the replies what is done next.
#![tactic(auto)]

mod finding;
mod heard;
mod need;
mod needed;
mod player;
mod player_laws;
mod reply_effects;
mod reply_rows;
mod step;

pub use finding::{Finding, Resynced, Selected, Spot};
pub use need::{Need, Unheard};
pub use player::Player;
pub use player_laws::{
    known_onward, left_at_first, needs_in_cases, plays_over, plays_thrice, plays_through,
    plays_well,
};
pub(crate) use step::Step;
