//! What IMAP's parties say to one another, as values, and the definitions of what it means (RFC 9051; RFC 7162).
#![tactic(auto)]

mod code;
mod command;
mod deed;
mod ending;
mod fetched;
mod item;
mod laws;
mod limit;
mod listen;
mod mark;
mod replies;
mod response;
mod server;

pub use code::Code;
pub use command::Command;
pub use deed::{Author, Change, Deed};
pub use ending::Ending;
pub use fetched::Fetched;
pub use item::Item;
pub use laws::{carried_effect, changes_stay_well, one_text, plain_server_is_lawful, rules_decide};
pub use limit::Limit;
pub use listen::{Last, Listen};
pub use mark::Mark;
pub use replies::Replies;
pub use response::Response;
pub use server::{Gone, Mailbox, Message, Server};
