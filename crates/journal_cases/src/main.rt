//! The program `journal_cases`: plays files of cases on journals, stores and the top call over
//! disks in memory, and on those disks and streams themselves, and tells each line that differs.
#![tactic(auto)]

mod bodies;
mod bytes;
mod claims;
mod commands;
mod cuts;
mod due;
mod fate;
mod files;
mod journals;
mod loops;
mod outside;
mod picks;
mod pieces;
mod plain_journal;
mod plain_write;
mod play;
mod readings;
mod runs;
mod spans;
mod stores;
mod texts;
mod turns;
mod undone;

use cases::checked;
use play::Journals;
use std::process::ExitCode;

fn main(rt: HostRuntime) -> ExitCode {
    let alloc = rt.alloc();
    checked(&rt, &mut Journals { alloc })
}
