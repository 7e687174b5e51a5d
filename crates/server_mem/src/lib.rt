//! A lawful server in memory (RFC 9051; RFC 7162): it carries out commands as one plain program does.
#![tactic(auto)]

mod append;
mod bad;
mod capabilities;
mod carry;
mod changes;
mod commands;
mod copy;
mod expunge;
mod headers;
mod laws;
mod lookups;
mod mem_server;
mod outcome;
mod parts;
mod questions;
mod replies;
mod rows;
mod rules;
mod select;
mod sets;
mod shift;
mod store;
mod told_lines;
mod turn;
mod well_formed;

pub use laws::{denies_exactly, two_pieces};
pub use mem_server::{ForeignFault, MemServer};
pub use outcome::{Answer, Answered};
pub use well_formed::is_well_formed;
