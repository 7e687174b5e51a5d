//! A file between two syncs, of which a stop may leave many images.

ghost use Rattle.std.specs.Prelude.{◌≡◌, ◌<◌, ◌+◌, ◌^◌, length, OnOk, OnErr};
ghost use Rattle.std.specs.List.{list_any};
ghost use Rattle.world_traits.specs.Files.{MayHold, put};
ghost use Rattle.world_traits.specs.Content.{content};
ghost use Rattle.world_mem.specs.Torn.{untouched, wrote, settled};
ghost use Rattle.world_mem.specs.Unsynced.{covers, is_unsynced};
ghost use Rattle.world_mem.specs.Image.{reach};

use mail_base::Bytes;
use std::alloc::{AllocError, Global};
use std::marker::Model;
use world_traits::put_in;

/// A range of places that was written: from `low` up to, and without, `high`.
#[derive(Drop)]
struct Written {
    low: usize,
    high: usize,
}

impl Model for Written {
    ghost use Rattle.world_traits.specs.Files.{Range};

    ghost Value = { Range };

    ghost view = { λ range. record { low = range.low; high = range.high } };
}

impl Written {
    fn covers(&self, at: usize) -> bool
        ensures { result ≡ covers at self.now }
    {
        self.low <= at && at < self.high
    }
}

/// The bytes of a file's last sync, what it reads as, and the ranges written since. The first write
/// behind a sync copies the file.
#[derive(Drop)]
pub struct TornFile {
    synced: Bytes,
    later: Option<Vec<u8>>,
    written: Vec<Written>,
}

impl Model for TornFile {
    ghost use Rattle.world_mem.specs.Torn.{Torn, IsWhole, torn_file};

    ghost Value = { Torn };

    ghost view = { λ file. torn_file file.synced file.later file.written.items };

    ghost invariant = { λ file.
        IsWhole (torn_file file.synced file.later file.written.items) };
}

impl TornFile {
    /// A file of these bytes, which count as synced. It takes no memory.
    pub fn new(alloc: Global, bytes: Bytes) -> TornFile
        ensures { result ≡ untouched bytes }
    {
        TornFile {
            synced: bytes,
            later: None,
            written: Vec::new(alloc),
        }
    }

    /// The bytes of the last sync.
    pub fn synced(&self) -> &[u8]
        ensures value { result.now ≡ self.now.stored.synced }
        ensures lawful { MayHold self.now.stored result.now }
    {
        self.synced.as_slice()
    }

    /// What it reads as, up to the furthest end written.
    pub fn bytes(&self) -> &[u8]
        ensures value { result.now ≡ self.now.reads }
        ensures furthest { length result.now ≡ reach self.now }
        ensures lawful { MayHold self.now.stored result.now }
    {
        match &self.later {
            Some(later) => later,
            None => self.synced.as_slice(),
        }
    }

    /// Writes bytes at a place. A gap before it reads as zeros. After an error it is as before.
    pub fn write(&mut self, at: usize, bytes: &[u8]) -> Result<(), AllocError>
        ensures done { OnOk result (self.new ≡ wrote at bytes.now self.old) }
        ensures failed { OnErr result (self.new ≡ self.old) }
    {
        // There is no memory for a file that ends behind the last place.
        let high = at.checked_add(bytes.len()).ok_or(AllocError)?;
        let alloc = self.alloc();
        self.written.reserve(1)?;
        put_later(alloc, &mut self.later, &self.synced, at, bytes)?;
        self.written.push_reserved(Written { low: at, high });
        Ok(())
    }

    /// Makes what it reads as its synced bytes. It takes no memory.
    pub fn sync(&mut self)
        ensures { self.new ≡ settled self.old }
    {
        if let Some(later) = self.later.take() {
            self.synced = Bytes::of(later);
        }
        self.written.clear();
    }

    /// Whether a stop may lose the byte at a place.
    pub(crate) fn is_unsynced(&self, at: usize) -> bool
        ensures { result ≡ is_unsynced self.now.stored at }
    {
        at >= self.synced.as_slice().len() || covers_any(&self.written, at)
    }

    pub(crate) fn alloc(&self) -> Global {
        *self.written.allocator()
    }
}

// Whether the place lies in one of the ranges.
fn covers_any(written: &[Written], at: usize) -> bool
    ensures { result ≡ list_any (covers at) written.now }
{
    written.iter().any(|range| range.covers(at))
}

// Puts bytes into what a file reads as. The first call behind a sync copies the synced bytes.
fn put_later(
    alloc: Global,
    later: &mut Option<Vec<u8>>,
    synced: &Bytes,
    at: usize,
    bytes: &[u8],
) -> Result<(), AllocError>
    requires { at + length bytes.now < 2 ^ 64 }
    ensures done { OnOk result (content synced.now later.new
        ≡ put at bytes.now (content synced.now later.old)) }
    ensures failed { OnErr result (content synced.now later.new ≡ content synced.now later.old) }
{
    let mut next = match later.take() {
        Some(next) => next,
        None => synced.as_slice().to_vec(alloc)?,
    };
    let done = put_in(&mut next, at, bytes);
    *later = Some(next);
    done
}
