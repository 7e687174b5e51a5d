//! What is printed of the cases.

ghost use Rattle.std.specs.Prelude.{◌≡◌, ◌-◌, ◌+◌, ◌^◌, ◌==◌, min, if◌then◌else◌};

use crate::fault::{Fault, Stop};
use crate::writing::written;
use std::alloc::{AllocError, Global};
use std::io;

/// How many cases passed, and how many failed.
#[derive(Clone, Copy)]
pub struct Tally {
    pub passed: u64,
    pub failed: u64,
}

impl Tally {
    /// No case was played.
    pub fn new() -> Tally
        ensures { (result.passed ≡ 0) × (result.failed ≡ 0) }
    {
        Tally {
            passed: 0,
            failed: 0,
        }
    }

    /// A case passed.
    pub fn pass(&mut self)
        ensures counted { self.new.passed ≡ min (self.old.passed + 1) (2 ^ 64 - 1) }
        ensures kept { self.new.failed ≡ self.old.failed }
    {
        self.passed = self.passed.saturating_add(1);
    }

    /// A case failed.
    pub fn fail(&mut self)
        ensures counted { self.new.failed ≡ min (self.old.failed + 1) (2 ^ 64 - 1) }
        ensures kept { self.new.passed ≡ self.old.passed }
    {
        self.failed = self.failed.saturating_add(1);
    }

    /// The status: 0 where no case failed, and else 1.
    pub fn status(self) -> u8
        ensures { result ≡ (if self.failed == 0 then 0 else 1) }
    {
        if self.failed == 0 { 0 } else { 1 }
    }
}

/// Where a case stopped, and why: the file, the line's number, and what was due and came.
pub fn stop_line(alloc: Global, file: &str, stop: &Stop) -> Result<String, AllocError> {
    let number = stop.number;
    match &stop.fault {
        Fault::Memory => format!(in alloc; "{file}:{number}: out of memory"),
        Fault::Form => format!(in alloc; "{file}:{number}: the line can't be read"),
        Fault::NothingDiffers => format!(in alloc; "{file}:{number}: nothing differs in this case"),
        Fault::Differs { due, came } => {
            let due = written(alloc, due)?;
            let came = written(alloc, came)?;
            format!(in alloc; "{file}:{number}: due {due}, came {came}")
        }
    }
}

/// Prints the title of a case that has one, where the case stopped, and why.
///
/// # Errors
/// Those of the output, and want of memory for the line.
pub fn print_stop<R>(rt: &R, file: &str, title: &str, stop: &Stop) -> io::Result<()>
where
    R: Print + AllocGlobal,
{
    if !title.is_empty() {
        println!(rt; "{title}:")?;
    }
    let line = stop_line(rt.alloc(), file, stop)?;
    println!(rt; "{line}")
}

/// Prints how many cases passed, and how many failed where one did.
///
/// # Errors
/// Those of the output.
pub fn print_tally<R: Print>(rt: &R, tally: Tally) -> io::Result<()> {
    let Tally { passed, failed } = tally;
    if failed == 0 {
        return println!(rt; "{passed} passed");
    }
    println!(rt; "{passed} passed, {failed} failed")
}
