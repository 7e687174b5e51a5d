//! The mark of a sync that failed. After it the system may take pages for written that aren't on the disk, up to its next
//! start. So the mark, `journal.failed`, holds the name of this start.

use crate::names::FAILED;
use crate::plain_file::{make, open_to_read};
use std::fs::{File, Files};
use std::io::{ErrorKind, Read, Write};
use std::{fs, io};

// Where Linux tells a name of its own for each start.
const BOOT_ID: &str = "/proc/sys/kernel/random/boot_id";

// What stands for it where it can't be read. A mark with it holds always.
const NO_ID: &str = "unknown\n";

/// What a folder's mark says.
#[derive(Clone, Copy, Debug, PartialEq, Eq)]
pub enum Mark {
    /// There is none.
    Absent,
    /// A sync failed before the system's last start, which read all from the disk.
    Over,
    /// A sync failed, and the system hasn't been started since, or the mark doesn't say which start it was.
    Holds,
}

/// Makes the mark in a folder, where none stands that holds. That the file is there is enough: an empty one holds always.
pub fn put<R: Files<File = File> + AllocGlobal>(rt: &R, folder: &str) -> io::Result<()> {
    if let Ok(Mark::Holds) = mark_in(rt, folder) {
        return Ok(());
    }
    let boot = boot_id(rt)?;
    let path = format!(in rt.alloc(); "{folder}/{FAILED}")?;
    let _ = fs::remove_file(rt, path.as_str());
    let mut file = make(rt, path.as_str())?;
    let _ = file.write_all(boot.as_bytes());
    Ok(())
}

/// What the mark of a folder says.
pub fn mark_in<R: Files<File = File> + AllocGlobal>(rt: &R, folder: &str) -> io::Result<Mark> {
    let path = format!(in rt.alloc(); "{folder}/{FAILED}")?;
    let Some(mut file) = open_to_read(rt, path.as_str())? else {
        return Ok(Mark::Absent);
    };
    let mut marked = Vec::new(rt.alloc());
    file.read_to_end(&mut marked)?;
    let boot = boot_id(rt)?;
    let is_odd = marked.len() != boot.len() || boot.as_str() == NO_ID;
    if is_odd || marked.as_slice() == boot.as_bytes() {
        Ok(Mark::Holds)
    } else {
        Ok(Mark::Over)
    }
}

/// Takes the mark away.
pub fn take_away<R: Files<File = File> + AllocGlobal>(rt: &R, folder: &str) -> io::Result<()> {
    let path = format!(in rt.alloc(); "{folder}/{FAILED}")?;
    match fs::remove_file(rt, path.as_str()) {
        Err(error) if error.kind() != ErrorKind::NotFound => Err(error),
        _ => Ok(()),
    }
}

// The name of this start of the system.
fn boot_id<R: Files<File = File> + AllocGlobal>(rt: &R) -> io::Result<String> {
    match fs::read_to_string(rt, BOOT_ID) {
        Ok(boot) => Ok(boot),
        Err(error) if error.kind() == ErrorKind::OutOfMemory => Err(error),
        Err(_) => Ok(String::from_str(rt.alloc(), NO_ID)?),
    }
}
