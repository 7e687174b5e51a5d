//! Cuts a stream of bytes into lines with their literals, in whatever pieces it comes (RFC 9051, sections 2.2 and 4.3).
#![tactic(auto)]

mod feed;
mod line;
mod part;
mod pending;
mod progress;

pub use feed::Feed;
