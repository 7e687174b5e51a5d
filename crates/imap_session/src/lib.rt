//! A connection to a server as typed states, each used up by its calls: whole replies over any link (RFC 9051, section 3).
#![tactic(auto)]

mod asking;
mod capabilities;
mod chosen;
mod conversation;
mod discard;
mod enabled;
mod fault;
mod fresh;
mod gather;
mod greeted;
mod greeting;
mod leaving;
mod listener;
mod listening;
mod login;
mod most;
mod offer;
mod permits;
mod ready;
mod room;
mod selecting;

pub use chosen::Chosen;
pub use fault::SessionFault;
pub use fresh::Fresh;
pub use gather::Gather;
pub use greeted::Greeted;
pub use ready::Ready;
