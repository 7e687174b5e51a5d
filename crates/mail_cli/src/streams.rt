//! Standard input and standard output, as the top call takes them. They count their faults and tell nothing.

use std::io::{Read, Write};
use world_traits::{ReadFailed, Sink, Source, WriteFailed};

/// A source over a reader.
#[derive(Drop)]
pub struct InputSource<R: Read + Drop> {
    reader: R,
    faults: u64,
}

impl<R: Read + Drop> InputSource<R> {
    /// The source of what a reader gives.
    pub fn new(reader: R) -> InputSource<R> {
        InputSource { reader, faults: 0 }
    }
}

impl<R: Read + Drop> Source for InputSource<R> {
    ghost use Rattle.std.specs.Prelude.{[]};

    ghost tells = { ⊥ };

    ghost rest = { λ _. [] };

    ghost source_faults = { λ source. source.faults };

    fn read(&mut self, into: &mut [u8]) -> Result<usize, ReadFailed> {
        match self.reader.read(into) {
            Ok(count) => Ok(count),
            Err(_) => {
                self.faults = self.faults.saturating_add(1);
                Err(ReadFailed)
            }
        }
    }
}

/// A sink over a writer.
#[derive(Drop)]
pub struct OutputSink<W: Write + Drop> {
    writer: W,
    faults: u64,
}

impl<W: Write + Drop> OutputSink<W> {
    /// A sink that hands each write on at once.
    pub fn new(writer: W) -> OutputSink<W> {
        OutputSink { writer, faults: 0 }
    }
}

impl<W: Write + Drop> Sink for OutputSink<W> {
    ghost use Rattle.std.specs.Prelude.{[]};

    ghost tells = { ⊥ };

    ghost written = { λ _. [] };

    ghost sink_faults = { λ sink. sink.faults };

    fn write(&mut self, bytes: &[u8]) -> Result<(), WriteFailed> {
        if self.writer.write_all(bytes).is_ok() && self.writer.flush().is_ok() {
            return Ok(());
        }
        self.faults = self.faults.saturating_add(1);
        Err(WriteFailed)
    }
}
