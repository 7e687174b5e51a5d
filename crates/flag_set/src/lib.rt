//! The flags of a message: their keys, and sets of them (RFC 9051, section 2.3.2).
#![tactic(auto)]

mod flag_fault;
mod flag_key;
mod flag_list;
mod flag_perm;
mod flag_set;
mod key_list;
mod key_runs;

pub use flag_fault::{FlagFault, MAX_FLAG, MAX_FLAGS};
pub use flag_key::FlagKey;
pub use flag_perm::{is_flag_list, is_permanent_list, read_permanent};
pub use flag_set::FlagSet;
