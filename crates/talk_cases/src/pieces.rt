//! A server to which the client's bytes come cut: all that it says between two acts comes as a
//! first piece of some length and then in pieces of 64 bytes. By the first lengths from 0 to 63 it
//! is cut at each place once.

use crate::acts::act;
use crate::listener::Listener;
use crate::reading::Reading;
use crate::served::Serve;
use cases::Fault;
use std::alloc::Global;

/// How many bytes each piece has but the first and the last.
pub const PIECE: usize = 64;

/// A server, the length of the first piece, and what it is to hear and to tell up to the next act.
#[derive(Drop)]
pub struct InPieces {
    alloc: Global,
    listener: Box<Listener>,
    first: usize,
    bytes: Vec<u8>,
    wanted: Vec<u8>,
}

// Hears a piece.
fn hear_piece(listener: &mut Listener, piece: &[u8], reading: &mut Reading) -> Result<(), Fault> {
    let lines = listener.hear(piece)?;
    Ok(reading.put(&lines)?)
}

// Hears the bytes, the first piece of which has this length.
fn hear(
    listener: &mut Listener,
    bytes: &[u8],
    first: usize,
    reading: &mut Reading,
) -> Result<(), Fault> {
    let Some((front, rest)) = bytes.split_at_checked(first.min(bytes.len())) else {
        return Err(Fault::Form);
    };
    hear_piece(listener, front, reading)?;
    for piece in rest.chunks(PIECE) {
        hear_piece(listener, piece, reading)?;
    }
    Ok(())
}

impl InPieces {
    /// A server that hears a first piece of this length.
    pub fn new(alloc: Global, listener: Box<Listener>, first: usize) -> InPieces {
        InPieces {
            alloc,
            listener,
            first,
            bytes: Vec::new(alloc),
            wanted: Vec::new(alloc),
        }
    }
}

impl Serve for InPieces {
    fn hear(&mut self, bytes: &[u8], _reading: &mut Reading) -> Result<(), Fault> {
        Ok(self.bytes.extend_from_slice(bytes)?)
    }

    fn want(&mut self, bytes: &[u8], _reading: &mut Reading) -> Result<(), Fault> {
        Ok(self.wanted.extend_from_slice(bytes)?)
    }

    // Hears what came up to here, and wants what was to be told.
    fn settle(&mut self, reading: &mut Reading) -> Result<(), Fault> {
        hear(&mut self.listener, &self.bytes, self.first, reading)?;
        reading.want(&self.wanted)?;
        reading.want_end()?;
        self.bytes.clear();
        self.wanted.clear();
        Ok(())
    }

    fn act(&mut self, text: &str, reading: &mut Reading) -> Result<(), Fault> {
        Ok(act(self.alloc, &mut self.listener, text, reading)?)
    }
}
