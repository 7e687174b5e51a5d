//! Reads a frame as the response that it spells (RFC 9051, section 9; RFC 7162, section 7).
#![tactic(auto)]

mod code;
mod fault;
mod fetch;
mod flags;
mod laws;
mod leaf;
mod line;
mod other;
mod rest;
mod runs;
mod search;
mod strings;
mod tag;
mod text_part;
mod values;
mod word_list;

pub use fault::ResponseFault;
pub use laws::one_response;
pub use line::read;
