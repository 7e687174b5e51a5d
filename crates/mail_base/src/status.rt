//! How a command of the user ends.

ghost use Rattle.std.specs.Prelude.{◌≡◌};
ghost use Rattle.mail_base.specs.Status.{number_of};

/// How a command of the user ended. A status carries no values: the printed line has them.
#[derive(Clone, Copy, Debug, PartialEq, Eq)]
pub enum Status {
    /// The command is done. After `play`: no conflict was recorded in this run.
    Done,
    /// `play` finished, and recorded a conflict in this run.
    Conflicts,
    /// The words are no command.
    Words,
    /// The disk failed.
    Disk,
    /// The connection failed.
    Link,
    /// The server refused.
    Refused,
    /// The server's answer isn't IMAP, or lacks what it owes.
    Reply,
    /// The server lacks a thing that this client needs.
    Lacking,
    /// The mailbox has another UIDVALIDITY.
    Validity,
    /// The journal isn't one, or is there already.
    Journal,
    /// The action is refused, with its reason.
    Reason,
    /// Memory is wanting.
    Memory,
    /// The output failed after the command was done.
    Output,
    /// The input failed.
    Input,
    /// A limit is passed.
    Limit,
    /// The shelf of the kept texts failed.
    Shelf,
}

impl Status {
    /// The number of the status: the program's exit status.
    pub fn code(&self) -> u8
        ensures { result ≡ number_of self.now }
    {
        match *self {
            Status::Done => 0,
            Status::Conflicts => 1,
            Status::Words => 2,
            Status::Disk => 3,
            Status::Link => 4,
            Status::Refused => 5,
            Status::Reply => 6,
            Status::Lacking => 7,
            Status::Validity => 8,
            Status::Journal => 9,
            Status::Reason => 10,
            Status::Memory => 11,
            Status::Output => 12,
            Status::Input => 13,
            Status::Limit => 14,
            Status::Shelf => 16,
        }
    }
}
