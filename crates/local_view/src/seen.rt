//! A message of a mailbox as the user sees it.

use flag_set::FlagSet;
use mail_base::{ActionId, ModSeq};
use uid_sets::Uid;

/// By what a message is named: its UID, or, where it has none yet, the number of the action that makes it.
#[derive(Clone, Copy, Debug, PartialEq, Eq)]
pub enum Ident {
    Real(Uid),
    Dummy(ActionId),
}

/// A message as the user sees it. Where the server hasn't told of it yet, it has no mod-sequence.
#[derive(Drop)]
pub struct Seen {
    pub id: Ident,
    pub modseq: Option<ModSeq>,
    pub flags: FlagSet,
}
