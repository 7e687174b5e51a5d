//! Plain files are opened, and nothing else: a symbolic link isn't followed, and no FIFO or device holds a run up. What stands
//! at the path is looked at before it is opened, and the open file after that.
//!
//! An error of the kind `InvalidData`, which the system has no error for, says that it is no plain file.

use std::fs::{File, Files, Metadata, OpenOptions};
use std::io::ErrorKind;
use std::os::unix::fs::{MetadataExt, OpenOptionsExt};
use std::{fs, io};

// What a file may be read and written by: the journal is the user's own, like the mail that it speaks of.
const OWNER_ALONE: u32 = 0o600;

// How often an opening is tried while others make or remove the file.
const TRIES: u32 = 8;

/// Which file it is, whatever its name: the numbers of its device and of its inode.
#[derive(Clone, Copy, Debug, PartialEq, Eq)]
pub struct FileId {
    device: u64,
    inode: u64,
}

/// The plain file at a path. `None` where nothing stands there.
pub fn id_at<R: Files>(rt: &R, path: &str) -> io::Result<Option<FileId>> {
    match fs::symlink_metadata(rt, path) {
        Ok(found) => Ok(Some(plain_id(&found)?)),
        Err(error) if error.kind() == ErrorKind::NotFound => Ok(None),
        Err(error) => Err(error),
    }
}

/// Which file an open one is.
pub fn id_of(file: &File) -> io::Result<FileId> {
    plain_id(&file.metadata()?)
}

/// Opens the plain file at a path to read it. `None` where nothing stands there.
pub fn open_to_read<R: Files<File = File>>(rt: &R, path: &str) -> io::Result<Option<File>> {
    let Some(id) = id_at(rt, path)? else {
        return Ok(None);
    };
    let mut options = OpenOptions::new();
    options.read(true);
    Ok(Some(open_as(rt, path, &options, id)?))
}

/// Opens the plain file at a path to read and write it, or makes it for its owner alone.
pub fn open_or_make<R: Files<File = File>>(rt: &R, path: &str) -> io::Result<File> {
    let mut options = OpenOptions::new();
    options.read(true).write(true);
    let mut last = ErrorKind::NotFound;
    for _ in 0..TRIES {
        let opened = match id_at(rt, path)? {
            Some(id) => open_as(rt, path, &options, id),
            None => make(rt, path),
        };
        match opened {
            Ok(file) => return Ok(file),
            Err(error) if is_met_by_others(error.kind()) => last = error.kind(),
            Err(error) => return Err(error),
        }
    }
    Err(io::Error::from(last))
}

/// Makes a file for its owner alone, to read and write it. It fails where something stands there.
pub fn make<R: Files<File = File>>(rt: &R, path: &str) -> io::Result<File> {
    let mut options = OpenOptions::new();
    options
        .read(true)
        .write(true)
        .create_new(true)
        .mode(OWNER_ALONE);
    options.open(rt, path)
}

// Opens the file at a path, which has to be this one. Where another one has taken its place, the one that was looked at isn't
// found.
fn open_as<R: Files<File = File>>(
    rt: &R,
    path: &str,
    options: &OpenOptions,
    id: FileId,
) -> io::Result<File> {
    let file = options.open(rt, path)?;
    if id_of(&file)? != id {
        return Err(io::Error::from(ErrorKind::NotFound));
    }
    Ok(file)
}

// Which file this is, where it is a plain one.
fn plain_id(found: &Metadata) -> io::Result<FileId> {
    if !found.is_file() {
        return Err(io::Error::from(ErrorKind::InvalidData));
    }
    Ok(FileId {
        device: found.dev(),
        inode: found.ino(),
    })
}

// Whether an opening fails so where another run made, removed or replaced the file after it was looked at.
fn is_met_by_others(kind: ErrorKind) -> bool {
    kind == ErrorKind::AlreadyExists || kind == ErrorKind::NotFound
}
