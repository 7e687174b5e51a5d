//! The journal: two files of gated records, of which a stop leaves the records whole.
#![tactic(auto)]

mod appending;
mod bodies;
mod creating;
mod drafting;
mod fault;
mod gated;
mod heads;
mod journal;
mod opening;
mod reading;
mod setting_up;
mod settling;
mod several;
mod turning;
mod version;

pub use appending::AppendFault;
pub use bodies::Bodies;
pub use creating::{CreateFault, MAX_SIDE};
pub use fault::{OpenFault, Place9};
pub use journal::Journal;
pub use turning::TurnFault;
pub use version::{Version, WRITTEN};
