//! Each event's record: its one spelling in the journal.
#![tactic(auto)]

mod decoding;
mod encoding;
mod fault;
mod fields;
mod laws;
mod misfit;
mod outcome;
mod reading;
mod restated;
mod sizes;

pub use decoding::decode;
pub use encoding::encode;
pub use fault::RecordFault;
pub use laws::{both_ways, one_event};
pub use outcome::{encode_outcome, encode_withdraw};
pub use restated::{restated_size, sizes_tell};
pub use sizes::{action_size, learn_size, old_size, size};
