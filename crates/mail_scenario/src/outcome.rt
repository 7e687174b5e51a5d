//! How the program ends.

use crate::fault::LineFault;

/// How the program ends.
#[derive(Clone, Copy)]
pub enum Ended {
    /// Each line was played, or each case passed.
    Done,
    /// A case failed.
    Failed,
    /// A line ended its scenario.
    Fault(LineFault),
    /// The output failed.
    Output,
    /// The input, or a file of cases, failed.
    Input,
}

impl Ended {
    /// The program's exit status.
    pub fn code(self) -> u8 {
        match self {
            Ended::Done => 0,
            Ended::Failed => 1,
            Ended::Fault(LineFault::Unfit) => 2,
            Ended::Fault(LineFault::NotWellFormed) => 3,
            Ended::Fault(LineFault::Memory) => 11,
            Ended::Output => 12,
            Ended::Input => 13,
        }
    }
}
