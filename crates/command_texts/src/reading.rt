//! Reading the text of a command (RFC 9051, sections 4.3 and 6). What is read here is a candidate alone: it is written
//! again, and the two texts are compared, so these readers pass over what they don't need.

pub mod accounts;
pub mod arguments;
pub mod candidates;
pub mod cuts;
pub mod flags;
pub mod fronts;
pub mod names;
pub mod numbers;
pub mod same;
pub mod sets;
pub mod tags;
pub mod written;
