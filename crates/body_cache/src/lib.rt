//! The texts of messages, fetched once and kept on a shelf, to be read without a network.
#![tactic(auto)]

mod carrying;
mod dates;
mod dir_shelf;
mod fault;
mod faulty_shelf;
mod fetching;
mod finding;
mod found;
mod key;
mod keys;
mod laws;
mod lines;
mod mem_shelf;
mod reading;
mod refused;
mod running;
mod shelf;
mod words;

pub use dates::date_of;
pub use dir_shelf::DirShelf;
pub use fault::TextFault;
pub use faulty_shelf::FaultyShelf;
pub use fetching::fetch_text;
pub use found::{TextFound, text_of};
pub use key::{KeptText, Key};
pub use keys::{Cached, CachedIn, KeyOf};
pub use laws::readings_add_no_deeds;
pub use mem_shelf::MemShelf;
pub use reading::{ReadReason, Reading};
pub use refused::ReadFault;
pub use running::read_run;
pub use shelf::{GetFault, Shelf, ShelfFailed};
pub use words::reading_of;
