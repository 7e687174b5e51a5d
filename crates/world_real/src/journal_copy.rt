//! A file of the journal is copied: what is written to a new file and synced is on the disk, also where the system takes the
//! old file's pages for written that aren't.

use crate::folder::read_fully;
use crate::plain_file::make;
use std::fs::{File, Files};
use std::io::ErrorKind;
use std::os::unix::fs::FileExt;
use std::{fs, io};

// How many bytes are copied at once.
const PIECE: usize = 16_384;

/// Puts a copy of a file in its place, under this name of a folder, once the copy is on the disk. It is locked before it has
/// the name, so no other run gets between.
pub fn replaced_by_copy<R: Files<File = File> + AllocGlobal>(
    rt: &R,
    folder: &str,
    name: &str,
    file: &File,
) -> io::Result<File> {
    let path = format!(in rt.alloc(); "{folder}/{name}")?;
    let beside = format!(in rt.alloc(); "{folder}/{name}.new")?;
    let _ = fs::remove_file(rt, beside.as_str());
    let copy = make(rt, beside.as_str())?;
    if copy.try_lock().is_err() {
        return Err(io::Error::from(ErrorKind::ResourceBusy));
    }
    copy_bytes(file, &copy)?;
    copy.sync_all()?;
    fs::rename(rt, beside.as_str(), path.as_str())?;
    File::open(rt, folder)?.sync_all()?;
    Ok(copy)
}

// Writes all that a file holds to the same places of another one.
fn copy_bytes(from: &File, to: &File) -> io::Result<()> {
    let mut buffer = [0; PIECE];
    let mut at = 0;
    for _ in 0..u64::MAX {
        let count = read_fully(from, at, &mut buffer)?;
        if count == 0 {
            return Ok(());
        }
        to.write_all_at(&buffer[..count], at)?;
        at = at.wrapping_add(count as u64);
    }
    Err(io::Error::from(ErrorKind::Other))
}
