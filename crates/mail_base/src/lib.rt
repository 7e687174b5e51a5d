//! The small values that every layer speaks in: numbers, names, tags, the account, statuses, and lists of them.
#![tactic(auto)]

mod account;
mod argument;
mod box_name;
mod bytes;
mod frame;
mod limits;
mod line;
mod list;
mod literal_header;
mod map;
mod number;
mod numbered;
mod span;
mod status;
mod tag;
mod words;

pub use account::{Account, AccountFault};
pub use argument::{box_of, number_of};
pub use box_name::{BoxName, MAX_NAME, NameFault};
pub use bytes::Bytes;
pub use frame::{FeedFault, Frame};
pub use limits::{MAX_ACTIONS, MAX_QUEUE, MAX_ROWS, MAX_TEXT};
pub use line::Line;
pub use list::List;
pub use literal_header::{LiteralHeader, literal_at_end};
pub use map::Map;
pub use number::{NumberFault, read_modseq, read_u32};
pub use numbered::{ActionId, ModSeq, Validity};
pub use span::Span;
pub use status::Status;
pub use tag::Tag;
pub use words::Words;
