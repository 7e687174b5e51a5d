//! The top call: what the user's words ask for, carried out on a world, with a printed text and a status.
#![tactic(auto)]

mod accepting;
mod arguments;
mod creating;
mod ending;
mod input;
mod listing;
mod names;
mod playing;
mod printed;
mod readying;
mod reason;
mod refusal;
mod request;
mod running;
mod runs;
mod showing;
mod shows;
mod takeover;
mod unfinished;
mod weighing;
mod words;

pub use arguments::{ident_of, is_addition};
pub use ending::{Ending, ending_of_play, ending_of_refusal, ending_of_text, ending_of_words, say};
pub use input::MAX_INPUT;
pub use names::{MAX_NAMES, are_names, names_in};
pub use printed::Printed;
pub use reason::Reason;
pub use refusal::Refusal;
pub use request::{Asked, AskedAction, AskedAppend, AskedFlags, AskedMove};
pub use running::run;
pub use runs::{
    admitted_actions_have_records, from_nothing, mailboxes_may_be_renewed, one_action_is_asked_for,
    outcomes_have_their_reasons, reports_tell_the_effect, runs_one_behind_another,
    words_ask_one_thing,
};
pub use showing::{Show, show_book};
pub use unfinished::Unfinished;
pub use weighing::MAX_ASKED;
pub use words::asked;
