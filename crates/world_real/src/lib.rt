//! The outside as it is: a folder with the journal's two files, and one TCP stream to a server.
#![tactic(auto)]

mod connection;
mod disk_trouble;
mod failed_mark;
mod folder;
mod images;
mod journal_copy;
mod link_trouble;
mod names;
mod patience;
mod plain_file;
mod real_world;
mod send_queue;
mod sent_mark;
mod server;
mod standard_numbers;

pub use disk_trouble::DiskTrouble;
pub use link_trouble::LinkTrouble;
pub use real_world::RealWorld;
pub use standard_numbers::StandardNumbers;
