//! The calls of a disk, a source and a sink in memory, as lines of a case.

use crate::bytes::{Names, place};
use crate::files::{Files, side_of};
use crate::texts::owned;
use cases::{Fault, Input, WordFault, same_number, written};
use std::alloc::{AllocError, Global};
use world_traits::{Disk, FaultyDisk, FaultySink, FaultySource, Side, Sink, Source};

/// A disk, a source and a sink, of which a case tries one. Each is one in memory behind a plan, by
/// which calls fail if any are planned to.
#[derive(Drop)]
pub struct Objects {
    alloc: Global,
    disk: FaultyDisk,
    source: FaultySource,
    sink: FaultySink,
}

// The calls that fail, behind `fails`, if any do.
fn planned(input: &mut Input<'_>) -> Result<Vec<u64>, WordFault> {
    let mut fails = Vec::new(input.alloc);
    if input.skips("fails") {
        for _ in 0..input.len() {
            fails.push(input.number()?)?;
        }
    }
    Ok(fails)
}

// A disk with this left file.
fn disk_of(alloc: Global, left: Vec<u8>, fails: Vec<u64>) -> FaultyDisk {
    FaultyDisk::new(left, Vec::new(alloc), fails)
}

// A buffer of zeros, as many as the next word says.
fn buffer(input: &mut Input<'_>) -> Result<Vec<u8>, WordFault> {
    let size = place(input)?;
    if size > 64 {
        return Err(WordFault::Form);
    }
    Ok(vec![in input.alloc; 0; size]?)
}

// What a call came to, as a text.
fn outcome(alloc: Global, is_done: bool) -> Result<String, Fault> {
    owned(alloc, if is_done { "done" } else { "fails" })
}

// The bytes that a call read into a buffer's front, behind which all is as it was.
fn front(alloc: Global, into: &[u8], count: usize) -> Result<String, Fault> {
    let (Some(front), Some(rest)) = (into.get(..count), into.get(count..)) else {
        return Err(Fault::Form);
    };
    for byte in rest {
        same_number(alloc, 0, u64::from(*byte))?;
    }
    Ok(written(alloc, front)?)
}

// `left`
fn measure<D: Disk>(input: &mut Input<'_>, disk: &mut D) -> Result<String, Fault> {
    match disk.length(side_of(input.text()?)?) {
        Ok(length) => Ok(format!(in input.alloc; "{length}")?),
        Err(_) => outcome(input.alloc, false),
    }
}

// `left at 1 into 4`
fn read<D: Disk>(input: &mut Input<'_>, disk: &mut D) -> Result<String, Fault> {
    let side = side_of(input.text()?)?;
    input.keyword("at")?;
    let at = input.number()?;
    input.keyword("into")?;
    let mut into = buffer(input)?;
    match disk.read(side, at, &mut into) {
        Ok(count) => front(input.alloc, &into, count),
        Err(_) => outcome(input.alloc, false),
    }
}

// `left at 1 BYTES`, which a file can hold
fn write<D: Disk>(names: &Names, input: &mut Input<'_>, disk: &mut D) -> Result<String, Fault> {
    let side = side_of(input.text()?)?;
    input.keyword("at")?;
    let at = input.number()?;
    let bytes = names.bytes(input)?;
    if at > 65_536 || bytes.len() > 65_536 {
        return Err(Fault::Form);
    }
    outcome(names.alloc, disk.write_at(side, at, &bytes).is_ok())
}

// `left`
fn sync<D: Disk>(input: &mut Input<'_>, disk: &mut D) -> Result<String, Fault> {
    outcome(input.alloc, disk.sync(side_of(input.text()?)?).is_ok())
}

// `3`
fn take<S: Source>(input: &mut Input<'_>, source: &mut S) -> Result<String, Fault> {
    let mut into = buffer(input)?;
    match source.read(&mut into) {
        Ok(count) => front(input.alloc, &into, count),
        Err(_) => outcome(input.alloc, false),
    }
}

// `BYTES`
fn print<S: Sink>(names: &Names, input: &mut Input<'_>, sink: &mut S) -> Result<String, Fault> {
    outcome(names.alloc, sink.write(&names.bytes(input)?).is_ok())
}

impl Objects {
    /// Of no bytes, and no call fails.
    pub fn new(alloc: Global) -> Objects {
        Objects {
            alloc,
            disk: disk_of(alloc, Vec::new(alloc), Vec::new(alloc)),
            source: FaultySource::new(Vec::new(alloc), Vec::new(alloc)),
            sink: FaultySink::new(alloc, Vec::new(alloc)),
        }
    }

    /// The disk's files as they read.
    pub fn files(&self) -> Result<Files, AllocError> {
        let left = self.disk.bytes(Side::Left);
        let right = self.disk.bytes(Side::Right);
        Files::of(self.alloc, left, right)
    }

    /// What the sink was given.
    pub fn printed(&self) -> &[u8] {
        self.sink.bytes()
    }

    /// How many growths were refused.
    pub fn refused(&self) -> u64 {
        self.disk.refused().saturating_add(self.sink.refused())
    }

    /// Carries out the call of this name with the next words, and says what it answers.
    pub fn call(
        &mut self,
        verb: &str,
        names: &Names,
        input: &mut Input<'_>,
    ) -> Result<String, Fault> {
        match verb {
            "object" => self.make(names, input),
            "length" => measure(input, &mut self.disk),
            "read" => read(input, &mut self.disk),
            "write" => write(names, input, &mut self.disk),
            "sync" => sync(input, &mut self.disk),
            "take" => take(input, &mut self.source),
            "print" => print(names, input, &mut self.sink),
            _ => Err(Fault::Form),
        }
    }

    // `disk BYTES`, `source BYTES` or `sink BYTES`, each with or without calls that fail.
    fn make(&mut self, names: &Names, input: &mut Input<'_>) -> Result<String, Fault> {
        let kind = input.word()?;
        let bytes = names.bytes(input)?;
        let fails = planned(input)?;
        match kind {
            "disk" => self.disk = disk_of(self.alloc, bytes, fails),
            "source" => self.source = FaultySource::new(bytes, fails),
            "sink" => self.sink = FaultySink::new(self.alloc, fails),
            _ => return Err(Fault::Form),
        }
        owned(self.alloc, "done")
    }
}
