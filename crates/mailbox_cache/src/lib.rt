//! What the client knows of each mailbox, and what a resynchronisation changes of it (RFC 7162, section 3.2).
#![tactic(auto)]

mod cache;
mod delta;
mod merge;
mod room;
mod row;
mod rows;
mod search;

pub use cache::Cache;
pub use delta::Delta;
pub use room::Room;
pub use row::Row;
pub use rows::Rows;
