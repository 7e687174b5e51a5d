//! The journal's two files, each opened once, under a lock that one run holds at a time.

ghost use Rattle.std.specs.Prelude.{◌≡◌, ◌≤◌, false, length, IfOk, OnOk};
ghost use Rattle.std.specs.Fd.{file_raw_fd};
ghost use Rattle.world_real.specs.Numbers.{IsLater};

use crate::disk_trouble::DiskTrouble;
use crate::failed_mark;
use crate::failed_mark::Mark;
use crate::images::{Images, ImagesFault};
use crate::journal_copy::replaced_by_copy;
use crate::names::{FAILED, LEFT, RIGHT};
use crate::plain_file::{FileId, id_at, id_of, open_or_make};
use crate::standard_numbers::is_standard;
use std::fs::{File, Files, TryLockError};
use std::io;
use std::io::ErrorKind;
use std::os::fd::AsRawFd;
use std::os::unix::fs::FileExt;
use world_traits::Side;

/// A folder with the journal: `journal.0`, the left file, and `journal.1`, the right one. A file is opened, or made, at the
/// first call that needs it. `journal.0` is opened and locked first, and its lock is held as long as this value lives: so no
/// two runs use one journal at a time. A value that only reads takes what both files hold, and opens neither for writing.
#[derive(Drop)]
pub struct Folder<'a, R: Files<File = File> + AllocGlobal> {
    rt: &'a R,
    path: Option<&'a str>,
    left: Option<JournalFile>,
    right: Option<JournalFile>,
    reads_only: bool,
    images: Option<Images>,
    in_use: bool,
    trouble: Option<DiskTrouble>,
}

// An open file that has no number of a standard stream.
#[derive(Drop)]
struct JournalFile {
    file: File,
    id: FileId,
    ghost later: { IsLater (file_raw_fd file) },
}

impl<'a, R: Files<File = File> + AllocGlobal> Folder<'a, R> {
    /// The folder at a path. No file is open yet. At `None` each call fails.
    pub fn new(rt: &'a R, path: Option<&'a str>) -> Folder<'a, R>
        ensures in_use { result.in_use ≡ false }
    {
        Folder {
            rt,
            path,
            left: None,
            right: None,
            reads_only: false,
            images: None,
            in_use: false,
            trouble: None,
        }
    }

    /// Lets this value only read from now on. Where a sync has failed it works as before: what is read might be lost, so the
    /// journal is copied first.
    pub fn only_read(&mut self)
        ensures in_use { self.new.in_use ≡ self.old.in_use }
    {
        let mark = match self.path {
            Some(folder) => failed_mark::mark_in(self.rt, folder).unwrap_or(Mark::Holds),
            None => Mark::Absent,
        };
        self.reads_only = mark != Mark::Holds;
    }

    /// Whether another run held the lock when this one asked for it.
    pub fn is_in_use(&self) -> bool
        ensures { result ≡ self.now.in_use }
    {
        self.in_use
    }

    /// What a user has to know of a call that failed.
    pub fn trouble(&self) -> Option<DiskTrouble>
        ensures { result ≡ self.now.trouble }
    {
        self.trouble
    }

    /// Whether each name of a file that was opened leads to that file still. Where it doesn't, another journal stands there:
    /// what this run does would be done again by the next one.
    pub fn is_in_place(&mut self) -> bool
        ensures in_use { self.new.in_use ≡ self.old.in_use }
    {
        let is_in_place = self.has_its_name(&self.left, LEFT)
            && self.has_its_name(&self.right, RIGHT);
        if !is_in_place {
            self.trouble = Some(DiskTrouble::Replaced);
        }
        is_in_place
    }

    /// The length of a side's file, in bytes.
    pub fn length(&mut self, side: Side) -> io::Result<u64>
        ensures in_use { OnOk result (self.new.in_use ≡ self.old.in_use) }
    {
        if self.reads_only {
            self.take_images()?;
            return Ok(self.taken()?.length(side));
        }
        self.open(side)?;
        Ok(self.opened(side)?.metadata()?.len())
    }

    /// Reads a side's file from a place until the buffer is full or the file ends, and gives the number of bytes.
    pub fn read(&mut self, side: Side, at: u64, into: &mut [u8]) -> io::Result<usize>
        ensures fits { IfOk result (λ n. n ≤ length into.old) }
        ensures in_use { OnOk result (self.new.in_use ≡ self.old.in_use) }
    {
        if self.reads_only {
            self.take_images()?;
            return Ok(self.taken()?.read(side, at, into));
        }
        self.open(side)?;
        read_fully(self.opened(side)?, at, into)
    }

    /// Writes all the bytes at a place of a side's file.
    pub fn write_at(&mut self, side: Side, at: u64, bytes: &[u8]) -> io::Result<()>
        ensures in_use { OnOk result (self.new.in_use ≡ self.old.in_use) }
    {
        if self.reads_only {
            return Err(io::Error::from(ErrorKind::PermissionDenied));
        }
        self.open(side)?;
        self.opened(side)?.write_all_at(bytes, at)
    }

    /// Syncs a side's file. Where that fails, a mark says so to the next run: the system may take the pages for written.
    pub fn sync(&mut self, side: Side) -> io::Result<()>
        ensures in_use { OnOk result (self.new.in_use ≡ self.old.in_use) }
    {
        if self.reads_only {
            return self.take_images();
        }
        self.open(side)?;
        let synced = self.opened(side)?.sync_all();
        self.marked(synced)
    }

    // Takes what both files hold, where that wasn't done yet.
    fn take_images(&mut self) -> io::Result<()>
        ensures in_use { OnOk result (self.new.in_use ≡ self.old.in_use) }
    {
        if self.images.is_some() {
            return Ok(());
        }
        let folder = self.folder()?;
        match Images::take(self.rt, folder) {
            Ok(images) => {
                self.images = Some(images);
                return Ok(());
            }
            Err(ImagesFault::Unread) => {}
            Err(ImagesFault::NotPlain(name)) => self.trouble = Some(DiskTrouble::NotPlain(name)),
            Err(ImagesFault::Unsynced) => self.mark_failed(),
        }
        Err(io::Error::from(ErrorKind::Other))
    }

    // What both files held.
    fn taken(&self) -> io::Result<&Images> {
        match &self.images {
            Some(images) => Ok(images),
            None => Err(io::Error::from(ErrorKind::NotFound)),
        }
    }

    // The path of the folder.
    fn folder(&mut self) -> io::Result<&'a str>
        ensures in_use { self.new.in_use ≡ self.old.in_use }
    {
        match self.path {
            Some(folder) => Ok(folder),
            None => {
                self.trouble = Some(DiskTrouble::NoPath);
                Err(io::Error::from(ErrorKind::InvalidInput))
            }
        }
    }

    // Hands on what a sync answers, and marks one that failed.
    fn marked(&mut self, synced: io::Result<()>) -> io::Result<()>
        ensures in_use { self.new.in_use ≡ self.old.in_use }
    {
        if synced.is_err() {
            self.mark_failed();
        }
        synced
    }

    // Marks that a sync failed.
    fn mark_failed(&mut self)
        ensures in_use { self.new.in_use ≡ self.old.in_use }
    {
        let is_marked = match self.path {
            Some(folder) => failed_mark::put(self.rt, folder).is_ok(),
            None => false,
        };
        self.trouble = Some(if is_marked {
            DiskTrouble::SyncFailed
        } else {
            DiskTrouble::SyncFailedUnmarked
        });
    }

    // Opens what a side's file asks for, where that wasn't done yet: the left file with its lock, and then that side's.
    fn open(&mut self, side: Side) -> io::Result<()>
        ensures in_use { OnOk result (self.new.in_use ≡ self.old.in_use) }
    {
        self.open_left()?;
        match side {
            Side::Left => Ok(()),
            Side::Right => self.open_right(),
        }
    }

    // The file of a side that was opened.
    fn opened(&self, side: Side) -> io::Result<&File>
        ensures later { IfOk result (λ file. IsLater (file_raw_fd file.now)) }
    {
        let opened = match side {
            Side::Left => &self.left,
            Side::Right => &self.right,
        };
        match opened {
            Some(open) => Ok(&open.file),
            None => Err(io::Error::from(ErrorKind::NotFound)),
        }
    }

    // Opens the left file and takes its lock, where that wasn't done yet.
    fn open_left(&mut self) -> io::Result<()>
        ensures in_use { OnOk result (self.new.in_use ≡ self.old.in_use) }
    {
        if self.left.is_some() {
            return Ok(());
        }
        let opened = self.file_named(LEFT)?;
        self.lock(&opened)?;
        let opened = self.mended(opened)?;
        self.sync_name(&opened.file)?;
        self.left = Some(opened);
        Ok(())
    }

    // Takes the lock of the left file. Where another run has it, or has put another file in its place, the journal is in use.
    fn lock(&mut self, left: &JournalFile) -> io::Result<()>
        ensures in_use { OnOk result (self.new.in_use ≡ self.old.in_use) }
    {
        let is_free = match left.file.try_lock() {
            Ok(()) => self.leads_to(LEFT, left.id)?,
            Err(TryLockError::WouldBlock) => false,
            Err(TryLockError::Error(error)) => {
                self.trouble = Some(DiskTrouble::Unlockable);
                return Err(error);
            }
        };
        if !is_free {
            self.in_use = true;
            return Err(io::Error::from(ErrorKind::WouldBlock));
        }
        Ok(())
    }

    // Whether a file has its name still, where it was opened.
    fn has_its_name(&self, opened: &Option<JournalFile>, name: &str) -> bool {
        match opened {
            Some(opened) => self.leads_to(name, opened.id).unwrap_or(false),
            None => true,
        }
    }

    // Whether a name of the folder leads to this file.
    fn leads_to(&self, name: &str, id: FileId) -> io::Result<bool> {
        let Some(folder) = self.path else {
            return Err(io::Error::from(ErrorKind::InvalidInput));
        };
        let path = format!(in self.rt.alloc(); "{folder}/{name}")?;
        Ok(id_at(self.rt, path.as_str())? == Some(id))
    }

    // The left file, which is locked: this one, or a copy in its place where an earlier sync failed.
    fn mended(&mut self, left: JournalFile) -> io::Result<JournalFile>
        ensures in_use { OnOk result (self.new.in_use ≡ self.old.in_use) }
    {
        let folder = self.folder()?;
        match failed_mark::mark_in(self.rt, folder) {
            Ok(Mark::Absent) => Ok(left),
            Ok(Mark::Over) => {
                failed_mark::take_away(self.rt, folder)?;
                Ok(left)
            }
            Ok(Mark::Holds) => self.copied(left),
            Err(error) => Err(self.unopened(FAILED, error)),
        }
    }

    // Puts copies of both files in their places, the left one last, and takes the mark away.
    fn copied(&mut self, left: JournalFile) -> io::Result<JournalFile>
        ensures in_use { OnOk result (self.new.in_use ≡ self.old.in_use) }
    {
        let folder = self.folder()?;
        let right = self.file_named(RIGHT)?;
        self.trouble = Some(DiskTrouble::NotCopied);
        drop(replaced_by_copy(self.rt, folder, RIGHT, &right.file)?);
        let copy = replaced_by_copy(self.rt, folder, LEFT, &left.file)?;
        failed_mark::take_away(self.rt, folder)?;
        self.trouble = None;
        journal_file(copy)
    }

    // Opens the right file, where that wasn't done yet.
    fn open_right(&mut self) -> io::Result<()>
        ensures in_use { OnOk result (self.new.in_use ≡ self.old.in_use) }
    {
        if self.right.is_some() {
            return Ok(());
        }
        let opened = self.file_named(RIGHT)?;
        self.sync_name(&opened.file)?;
        self.right = Some(opened);
        Ok(())
    }

    // Opens a file of the folder, or makes it.
    fn file_named(&mut self, name: &'static str) -> io::Result<JournalFile>
        ensures in_use { self.new.in_use ≡ self.old.in_use }
    {
        let folder = self.folder()?;
        let path = format!(in self.rt.alloc(); "{folder}/{name}")?;
        match open_or_make(self.rt, path.as_str()) {
            Ok(file) => journal_file(file),
            Err(error) => Err(self.unopened(name, error)),
        }
    }

    // Keeps why a file wasn't opened, where a user has to know it, and gives the error.
    fn unopened(&mut self, name: &'static str, error: io::Error) -> io::Error
        ensures in_use { self.new.in_use ≡ self.old.in_use }
    {
        match error.kind() {
            ErrorKind::InvalidData => self.trouble = Some(DiskTrouble::NotPlain(name)),
            ErrorKind::NotFound => self.trouble = Some(DiskTrouble::NoFolder),
            _ => {}
        }
        error
    }

    // Syncs the folder while the file is empty, so that the file's name is on the disk before its first byte is.
    fn sync_name(&mut self, file: &File) -> io::Result<()>
        ensures in_use { self.new.in_use ≡ self.old.in_use }
    {
        let path = self.folder()?;
        if file.metadata()?.len() > 0 {
            return Ok(());
        }
        let folder = File::open(self.rt, path)?;
        self.marked(folder.sync_all())
    }
}

// An open file of the journal. One that got the number of a standard stream is closed again.
fn journal_file(file: File) -> io::Result<JournalFile> {
    if is_standard(file.as_raw_fd()) {
        return Err(io::Error::from(ErrorKind::Other));
    }
    let id = id_of(&file)?;
    Ok(JournalFile { file, id })
}

/// Reads from a place until the buffer is full or the file ends, and gives the number of bytes. A read that was interrupted
/// is tried again.
pub fn read_fully(file: &File, at: u64, into: &mut [u8]) -> io::Result<usize>
    ensures { IfOk result (λ n. n ≤ length into.old) }
{
    let mut filled = 0;
    for _ in 0..u64::MAX {
        match file.read_at(&mut into[filled..], at.wrapping_add(filled as u64)) {
            Ok(0) => break,
            Ok(count) => filled += count,
            Err(error) if error.kind() == ErrorKind::Interrupted => {}
            Err(error) => return Err(error),
        }
    }
    Ok(filled)
}
