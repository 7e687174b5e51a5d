//! Why a call of the disk failed, where a user has to know it.

use std::fmt;
use std::fmt::{Display, Formatter};

/// What a user has to know of the journal's files.
#[derive(Clone, Copy, Debug, PartialEq, Eq)]
pub enum DiskTrouble {
    /// The folder's path is empty, or isn't UTF-8.
    NoPath,
    /// The folder isn't there.
    NoFolder,
    /// A sync failed, and the mark says so to the next run.
    SyncFailed,
    /// A sync failed, and the mark can't be made.
    SyncFailedUnmarked,
    /// A sync failed in an earlier run, and the journal can't be copied.
    NotCopied,
    /// The system can't lock the journal.
    Unlockable,
    /// What has this name in the folder is no plain file.
    NotPlain(&'static str),
    /// The folder's names don't lead to the files any more that this run opened.
    Replaced,
}

impl Display for DiskTrouble {
    fn fmt<W: fmt::Write>(&self, f: &mut Formatter<W>) -> fmt::Result {
        match *self {
            DiskTrouble::NoPath => f.write_str("MAIL_DIR is empty, or isn't UTF-8"),
            DiskTrouble::NoFolder => f.write_str("the journal's folder isn't there"),
            DiskTrouble::SyncFailed => f.write_str(
                "a sync of the journal failed: the next command copies the journal first",
            ),
            DiskTrouble::SyncFailedUnmarked => f.write_str(
                "a sync of the journal failed, and journal.failed can't be written: restart the machine before the next command",
            ),
            DiskTrouble::NotCopied => f.write_str(
                "a sync of the journal failed earlier, and it can't be copied yet (journal.failed): is the disk full, or damaged?",
            ),
            DiskTrouble::Unlockable => f.write_str(
                "the journal can't be locked: its file system may know no locks",
            ),
            DiskTrouble::NotPlain(name) => write!(f, "{name} is no plain file"),
            DiskTrouble::Replaced => f.write_str(
                "the journal was replaced while this play ran: see which one is right before the next play",
            ),
        }
    }
}
