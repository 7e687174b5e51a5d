//! What joins a ledger's calls of the disk with a session's calls of the link, how a mailbox is resynchronised, and a run, which
//! plays a book's actions back.
#![tactic(auto)]

mod asking;
mod counting;
mod entering;
mod fault;
mod gathering;
mod holding;
mod laws;
mod makers;
mod played;
mod plays;
mod recording;
mod resync;
mod rows;
mod selecting;
mod session;
mod turning;

pub use entering::enter;
pub use fault::{PlayFault, Why};
pub use laws::{
    Related, Steady, a_server_may_serve, books_go_on, calls_keep_relations, calls_stay_joined,
    known_goes_on, resyncs_level,
};
pub use played::Played;
pub use plays::play;
pub use resync::{Heard, resynchronise};
pub use session::{Held, Session};
