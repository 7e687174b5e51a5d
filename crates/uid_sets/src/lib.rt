//! Sets of UIDs, kept as rising ranges (RFC 9051, sections 2.3.1.1 and 9).
#![tactic(auto)]

mod canonical;
mod join;
mod merge;
mod search;
mod sequence_set;
mod set_fault;
mod spelling;
mod uid;
mod uid_set;

pub use set_fault::SetFault;
pub use uid::{Uid, UidRange};
pub use uid_set::{UidSet, one_form, one_reading};
