//! What both files held, for a run that only reads.

ghost use Rattle.std.specs.Prelude.{◌≤◌, length};

use crate::folder::read_fully;
use crate::names::{LEFT, RIGHT};
use crate::plain_file::open_to_read;
use std::fs::{File, Files};
use std::io;
use std::io::{ErrorKind, Read};
use world_traits::Side;

// How many bytes at the left file's front say that it was set up anew: its gate, its magic word and its generation.
const FRONT: usize = 14;

// How often the files are read until the left one wasn't set up anew meanwhile.
const TRIES: u32 = 100;

/// Why the files weren't taken.
#[derive(Clone, Copy, Debug, PartialEq, Eq)]
pub enum ImagesFault {
    /// What has this name is no plain file.
    NotPlain(&'static str),
    /// A file can't be read, or there isn't memory enough.
    Unread,
    /// What was read can't be synced.
    Unsynced,
}

/// The bytes of both files, the left one's read first. A file that isn't there has none. A run that writes meanwhile closes a
/// gate before it writes behind it and opens it once all is there, so each file that is read from its front is one that a stop
/// may leave. What was read is on the disk.
#[derive(Drop)]
pub struct Images {
    left: Vec<u8>,
    right: Vec<u8>,
}

impl Images {
    /// Takes both files of a folder. It needs no right to write there, and makes no file.
    pub fn take<R: Files<File = File> + AllocGlobal>(
        rt: &R,
        folder: &str,
    ) -> Result<Images, ImagesFault> {
        for _ in 0..TRIES {
            let left = bytes_of(rt, folder, LEFT)?;
            let right = bytes_of(rt, folder, RIGHT)?;
            let front = left.get(..FRONT).unwrap_or(left.as_slice());
            if begins_with(rt, folder, LEFT, front)? {
                return Ok(Images { left, right });
            }
        }
        Err(ImagesFault::Unread)
    }

    /// The length of a side's file.
    pub fn length(&self, side: Side) -> u64 {
        self.bytes(side).len() as u64
    }

    /// Puts the bytes of a side's file from a place on to the buffer's front, as many as there are and fit, and gives how many.
    pub fn read(&self, side: Side, at: u64, into: &mut [u8]) -> usize
        ensures { result ≤ length into.old }
    {
        let Ok(at) = usize::try_from(at) else {
            return 0;
        };
        let Some(behind) = self.bytes(side).get(at..) else {
            return 0;
        };
        let count = behind.len().min(into.len());
        into[..count].copy_from_slice(&behind[..count]);
        count
    }

    fn bytes(&self, side: Side) -> &[u8] {
        match side {
            Side::Left => self.left.as_slice(),
            Side::Right => self.right.as_slice(),
        }
    }
}

// Whether a file of a folder still begins with this front, or is as short.
fn begins_with<R: Files<File = File> + AllocGlobal>(
    rt: &R,
    folder: &str,
    name: &'static str,
    front: &[u8],
) -> Result<bool, ImagesFault> {
    let mut now = [0; FRONT];
    let count = match opened(rt, folder, name)? {
        Some(file) => match read_fully(&file, 0, &mut now) {
            Ok(count) => count,
            Err(_) => return Err(ImagesFault::Unread),
        },
        None => 0,
    };
    Ok(front == &now[..count])
}

// All that a file of a folder holds, or nothing where it isn't there. It is synced after that, where the file system takes
// writes.
fn bytes_of<R: Files<File = File> + AllocGlobal>(
    rt: &R,
    folder: &str,
    name: &'static str,
) -> Result<Vec<u8>, ImagesFault> {
    let Some(mut file) = opened(rt, folder, name)? else {
        return Ok(Vec::new(rt.alloc()));
    };
    let bytes = match whole(rt, &mut file) {
        Ok(bytes) => bytes,
        Err(_) => return Err(ImagesFault::Unread),
    };
    match file.sync_all() {
        Ok(()) => Ok(bytes),
        Err(error) if error.kind() == ErrorKind::ReadOnlyFilesystem => Ok(bytes),
        Err(_) => Err(ImagesFault::Unsynced),
    }
}

// A file of a folder, opened for reading, where it is there.
fn opened<R: Files<File = File> + AllocGlobal>(
    rt: &R,
    folder: &str,
    name: &'static str,
) -> Result<Option<File>, ImagesFault> {
    let Ok(path) = format!(in rt.alloc(); "{folder}/{name}") else {
        return Err(ImagesFault::Unread);
    };
    match open_to_read(rt, path.as_str()) {
        Ok(opened) => Ok(opened),
        Err(error) if error.kind() == ErrorKind::InvalidData => Err(ImagesFault::NotPlain(name)),
        Err(_) => Err(ImagesFault::Unread),
    }
}

// All that an open file holds. Room for it is taken at once.
fn whole<R: AllocGlobal>(rt: &R, file: &mut File) -> io::Result<Vec<u8>> {
    let length = usize::try_from(file.metadata()?.len()).unwrap_or(0);
    let mut bytes = Vec::with_capacity(rt.alloc(), length)?;
    file.read_to_end(&mut bytes)?;
    Ok(bytes)
}
