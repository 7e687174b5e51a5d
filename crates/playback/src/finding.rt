//! What the player was told, as far as it keeps it.

use action_queue::Outcome;
use append_probe::Verdict;
use mail_base::{BoxName, ModSeq, Validity};
use mailbox_cache::Delta;
use uid_sets::{Uid, UidSet};

/// What was found out about the action that is due and isn't used yet.
#[derive(Drop)]
pub enum Finding {
    /// Nothing.
    Nothing,
    /// The message has no row.
    NoRow,
    /// The message has a row with this mod-sequence. `so` says that its flags are as a flag action asks;
    /// of a move it is false.
    Row { modseq: ModSeq, so: bool },
    /// The message has a row, its flags aren't as asked, and the mailbox doesn't keep such flags.
    Barred,
    /// The command of the action was answered, and so the action ends.
    Ended(Outcome),
    /// The mailbox of an append was selected anew, and told this UIDVALIDITY and this UIDNEXT.
    Next { validity: Validity, uidnext: Uid },
    /// A search for the Message-ID of an append found these messages, and their Message-ID fields
    /// are still to be asked for.
    Candidates(UidSet),
    /// How many of them have exactly the Message-ID.
    Probed(Verdict),
}

/// The mailbox that is selected, with the UIDVALIDITY that its SELECT told.
#[derive(Drop)]
pub struct Selected {
    pub name: BoxName,
    pub validity: Validity,
}

/// Where a message is: its mailbox, the UIDVALIDITY of that mailbox, and its UID (RFC 9051, section 2.3.1.1).
#[derive(Drop)]
pub struct Spot {
    pub name: BoxName,
    pub validity: Validity,
    pub uid: Uid,
}

/// What a resynchronisation told of a mailbox.
#[derive(Drop)]
pub struct Resynced {
    pub name: BoxName,
    pub delta: Delta,
}
