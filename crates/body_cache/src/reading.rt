//! What is asked for, and why it can't be had.

use mail_base::BoxName;
use uid_sets::Uid;

/// What the words ask for.
#[derive(Debug, Drop)]
pub enum Reading {
    /// That the text of a message is fetched and kept.
    Fetch { name: BoxName, uid: Uid },
    /// The kept text of a message.
    Show { name: BoxName, uid: Uid },
    /// The dates of all kept texts of a mailbox.
    Dates { name: BoxName },
}

/// Why a text can't be had.
#[derive(Clone, Copy, Debug, PartialEq, Eq)]
pub enum ReadReason {
    /// The mailbox isn't one of the book's.
    NoMailbox,
    /// The mailbox's cache has no such message.
    NoMessage,
    /// No text of the message is kept.
    NotKept,
    /// The message isn't in its mailbox any more.
    Gone,
}
