//! A shelf in a folder.

ghost use Rattle.std.specs.Prelude.{◌≡◌, ◌≤◌};
ghost use Rattle.world_traits.specs.Calls.{Rose};
ghost use Rattle.world_traits.specs.Counts.{counted};

use crate::{GetFault, Key, Shelf, ShelfFailed};
use std::fs::{File, Files, Metadata, OpenOptions};
use std::io::{ErrorKind, Read, Write};
use std::marker::Model;
use std::os::unix::fs::OpenOptionsExt;
use std::{fs, io};

// What a text's file may be read and written by: it is the user's own.
const OWNER_ALONE: u32 = 0o600;

// The most bytes that are read of a text's file: what a server's literal may have.
const MAX_TEXT: u64 = 33_554_432;

/// A folder with a file for each text: `VALIDITY.UID.NAME`, with `%` for `/`, which no name of a mailbox can hold. So no name leads out of the
/// folder, and no two keys have one file. A text is written to `new.VALIDITY.UID.NAME`, which no key has, for its owner alone, and this file then
/// takes the name: a crash leaves the old text or the new one whole.
///
/// Contracts see how often it failed. It tells nothing of its texts.
#[derive(Drop)]
pub struct DirShelf<'a, R: Files<File = File> + AllocGlobal> {
    rt: &'a R,
    folder: Option<&'a str>,
    faults: u64,
}

impl<'a, R: Files<File = File> + AllocGlobal> Model for DirShelf<'a, R> {
    ghost use Rattle.std.specs.Prelude.{ℕ};

    ghost Value = { ℕ };

    ghost view = { λ shelf. shelf.faults };
}

impl<'a, R: Files<File = File> + AllocGlobal> DirShelf<'a, R> {
    /// The folder at a path. It opens nothing and takes no memory. Where the folder is `None` each call fails.
    pub fn new(rt: &'a R, folder: Option<&'a str>) -> DirShelf<'a, R>
        ensures { result ≡ 0 }
    {
        DirShelf {
            rt,
            folder,
            faults: 0,
        }
    }

    // Counts a fault.
    fn count(&mut self)
        ensures counts { self.new ≡ counted self.old }
        ensures rose { Rose self.old self.new }
        ensures count { self.old ≤ self.new }
    {
        self.faults = self.faults.saturating_add(1);
    }

    // The path of a text's file, whose name begins with this.
    fn path(&self, front: &str, key: &Key) -> io::Result<String> {
        let Some(folder) = self.folder else {
            return Err(io::Error::from(ErrorKind::NotFound));
        };
        let validity = key.validity.number();
        let uid = key.uid.number();
        let mut path = format!(in self.rt.alloc(); "{folder}/{front}{validity}.{uid}.")?;
        for byte in key.name.as_bytes() {
            path.push(char::from(if *byte == b'/' { b'%' } else { *byte }))?;
        }
        Ok(path)
    }

    // Writes a text beside its file, and puts it in its place once it is on the disk.
    fn write(&self, key: &Key, text: &[u8]) -> io::Result<()> {
        let path = self.path("", key)?;
        let beside = self.path("new.", key)?;
        let _ = fs::remove_file(self.rt, beside.as_str());
        let mut options = OpenOptions::new();
        options.write(true).create_new(true).mode(OWNER_ALONE);
        let mut file = options.open(self.rt, beside.as_str())?;
        file.write_all(text)?;
        file.sync_all()?;
        fs::rename(self.rt, beside.as_str(), path.as_str())?;
        self.sync_folder()
    }

    // Puts the folder's names on the disk.
    fn sync_folder(&self) -> io::Result<()> {
        let Some(folder) = self.folder else {
            return Err(io::Error::from(ErrorKind::NotFound));
        };
        File::open(self.rt, folder)?.sync_all()
    }

    // Reads a text's file, if there is one.
    fn read(&self, key: &Key) -> io::Result<Option<Vec<u8>>> {
        let path = self.path("", key)?;
        let found = match fs::symlink_metadata(self.rt, path.as_str()) {
            Ok(found) => found,
            Err(error) if error.kind() == ErrorKind::NotFound => return Ok(None),
            Err(error) => return Err(error),
        };
        let length = text_length(&found)?;
        let mut file = File::open(self.rt, path.as_str())?;
        let mut text = Vec::with_capacity(self.rt.alloc(), length)?;
        file.read_to_end(&mut text)?;
        Ok(Some(text))
    }
}

// The length of a text's file, where it is a plain one of a text's size.
fn text_length(found: &Metadata) -> io::Result<usize> {
    if !found.is_file() || found.len() > MAX_TEXT {
        return Err(io::Error::from(ErrorKind::InvalidData));
    }
    Ok(found.len() as usize)
}

impl<'a, R: Files<File = File> + AllocGlobal> Shelf for DirShelf<'a, R> {
    ghost use Rattle.std.specs.Prelude.{[]};

    ghost tells = { ⊥ };

    ghost texts = { λ _. [] };

    ghost shelf_faults = { λ shelf. shelf };

    fn put(&mut self, key: &Key, text: &[u8]) -> Result<(), ShelfFailed> {
        match self.write(key, text) {
            Ok(()) => Ok(()),
            Err(_) => {
                self.count();
                Err(ShelfFailed)
            }
        }
    }

    fn get(&mut self, key: &Key) -> Result<Option<Vec<u8>>, GetFault> {
        match self.read(key) {
            Ok(text) => Ok(text),
            Err(error) if error.kind() == ErrorKind::OutOfMemory => Err(GetFault::Memory),
            Err(_) => {
                self.count();
                Err(GetFault::Failed)
            }
        }
    }
}
