//! The numbers of the standard streams, 0 to 2. A program that is started with one of them closed gets it for the next file
//! that it opens, and what it prints would go into that file.

ghost use Rattle.std.specs.Prelude.{◌↔◌, IsTrue, IfOk, IfSome};
ghost use Rattle.std.specs.Fd.{file_raw_fd};
ghost use Rattle.world_real.specs.Numbers.{IsStandard};

use std::fs::{File, Files};
use std::io;
use std::os::fd::{AsRawFd, RawFd};

// The number of standard error, the last of them.
const LAST_STANDARD: RawFd = 2;

/// `/dev/null`, opened for reading under each of the numbers 0 to 2 that was free, as long as this value lives. So each
/// file that is opened meanwhile gets a later number, a read of a closed input finds its end, and a write to a closed
/// output fails.
#[derive(Drop)]
pub struct StandardNumbers {
    first: Option<File>,
    second: Option<File>,
    third: Option<File>,
}

impl StandardNumbers {
    /// Takes the numbers that are free. The system gives the lowest one, and there are three.
    pub fn take<R: Files<File = File>>(rt: &R) -> io::Result<StandardNumbers>
        ensures first { IfOk result (λ held. IfSome held.first (λ file. IsStandard (file_raw_fd file))) }
        ensures second { IfOk result (λ held. IfSome held.second (λ file. IsStandard (file_raw_fd file))) }
        ensures third { IfOk result (λ held. IfSome held.third (λ file. IsStandard (file_raw_fd file))) }
    {
        Ok(StandardNumbers {
            first: free_number(rt)?,
            second: free_number(rt)?,
            third: free_number(rt)?,
        })
    }
}

// Takes the lowest free number if it is a standard stream's. `None` where it is a later one, which is free again.
fn free_number<R: Files<File = File>>(rt: &R) -> io::Result<Option<File>>
    ensures { IfOk result (λ held. IfSome held (λ file. IsStandard (file_raw_fd file))) }
{
    let file = File::open(rt, "/dev/null")?;
    if is_standard(file.as_raw_fd()) {
        Ok(Some(file))
    } else {
        Ok(None)
    }
}

/// Whether this is the number of a standard stream. Another one is later, as open files have no number below 0.
pub fn is_standard(number: RawFd) -> bool
    ensures { IsTrue result ↔ IsStandard number }
{
    number <= LAST_STANDARD
}
