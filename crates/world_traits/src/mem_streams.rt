//! A source and a sink in memory, which fail no call of their own accord.

ghost use Rattle.std.specs.Prelude.{◌≡◌, ◌≤◌, ◌++◌, ◌-◌, []};
ghost use Rattle.std.specs.Prelude.{length, vec_len, take, drop, min, OnOk, OnErr, IfOk};
ghost use Rattle.world_traits.specs.Calls.{Rose};
ghost use Rattle.world_traits.specs.Counts.{CountsFailure};

use crate::{ReadFailed, Sink, Source, WriteFailed};
use std::alloc::Global;
use std::marker::Model;

/// Bytes in memory that are read from front to end. It never fails, and grows nothing.
#[derive(Drop)]
pub struct MemSource {
    content: Vec<u8>,
    at: usize,
}

impl Model for MemSource {
    ghost use Rattle.std.specs.Prelude.{◌≤◌, ℕ, List, vec_len, drop};

    ghost Value = { List ℕ };

    ghost view = { λ source. drop source.at source.content.items };

    ghost invariant = { λ source. source.at ≤ vec_len source.content };
}

impl MemSource {
    /// A source of these bytes. It takes no memory.
    pub fn new(bytes: Vec<u8>) -> MemSource
        ensures { result ≡ bytes.items }
    {
        MemSource {
            content: bytes,
            at: 0,
        }
    }
}

impl Source for MemSource {
    ghost tells = { Unit {0} };

    ghost rest = { λ source. source };

    ghost source_faults = { λ source. 0 };

    /// Takes as many bytes as there are and fit. It never fails.
    fn read(&mut self, into: &mut [u8]) -> Result<usize, ReadFailed>
        ensures value { result ≡ Ok (min (length into.old) (length self.old)) }
        ensures bytes { IfOk result (λ n. take n into.new ≡ take n self.old) }
        ensures rest { IfOk result (λ n. self.new ≡ drop n self.old) }
    {
        let rest = &self.content[self.at..];
        let count = rest.len().min(into.len());
        into[..count].copy_from_slice(&rest[..count]);
        self.at += count;
        Ok(count)
    }
}

/// A sink that keeps what is written in memory. It fails only where it is refused room.
#[derive(Drop)]
pub struct MemSink {
    content: Vec<u8>,
    refused: u64,
}

impl Model for MemSink {
    ghost use Rattle.world_traits.specs.Printed.{Printed};

    ghost Value = { Printed };

    ghost view = { λ sink. record { bytes = sink.content.items; refused = sink.refused } };
}

impl MemSink {
    /// An empty one. It takes no memory.
    pub fn new(alloc: Global) -> MemSink
        ensures { result ≡ record { bytes = []; refused = 0 } }
    {
        MemSink {
            content: Vec::new(alloc),
            refused: 0,
        }
    }

    /// All that was written so far.
    pub fn bytes(&self) -> &[u8]
        ensures { result.now ≡ self.now.bytes }
    {
        &self.content
    }

    /// How many growths it was refused. The count never falls, and stays at 2^64 - 1, its last
    /// value.
    pub fn refused(&self) -> u64
        ensures { result ≡ self.now.refused }
    {
        self.refused
    }
}

impl Sink for MemSink {
    ghost tells = { Unit {0} };

    ghost written = { λ sink. sink.bytes };

    ghost sink_faults = { λ sink. sink.refused };

    /// Writes all the bytes. It fails exactly where it is refused room, and then nothing was
    /// written.
    fn write(&mut self, bytes: &[u8]) -> Result<(), WriteFailed>
        ensures done { OnOk result (self.new.bytes ≡ self.old.bytes ++ bytes.now) }
        ensures failed { OnErr result (self.new.bytes ≡ self.old.bytes) }
        ensures count { self.old.refused ≤ self.new.refused }
        ensures cause { OnErr result (Rose self.old.refused self.new.refused) }
        ensures exact { CountsFailure result self.old.refused self.new.refused }
    {
        if self.content.extend_from_slice(bytes).is_err() {
            self.refused = self.refused.saturating_add(1);
            return Err(WriteFailed);
        }
        Ok(())
    }
}
