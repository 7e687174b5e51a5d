//! The server in memory on trial: what it says is compared line by line, and once more for each way
//! to cut what the client says.

use crate::acts::act;
use crate::listener::Listener;
use crate::pieces::{InPieces, PIECE};
use crate::reading::Reading;
use crate::said::said_by_client;
use crate::served::{Serve, play_served};
use crate::setup::Setup;
use crate::trial::at_line;
use cases::{Fault, Line, Stop, last_number};
use std::alloc::Global;

// A server that hears each line as it is said.
#[derive(Drop)]
struct ByLine {
    alloc: Global,
    listener: Box<Listener>,
}

impl Serve for ByLine {
    fn hear(&mut self, bytes: &[u8], reading: &mut Reading) -> Result<(), Fault> {
        reading.go_on()?;
        let lines = self.listener.hear(bytes)?;
        Ok(reading.put(&lines)?)
    }

    fn want(&mut self, bytes: &[u8], reading: &mut Reading) -> Result<(), Fault> {
        reading.want(bytes)
    }

    fn settle(&mut self, reading: &mut Reading) -> Result<(), Fault> {
        reading.want_end()
    }

    fn act(&mut self, text: &str, reading: &mut Reading) -> Result<(), Fault> {
        Ok(act(self.alloc, &mut self.listener, text, reading)?)
    }
}

// The server that a case begins with.
fn begun(alloc: Global, head: &[Line], lines: &[Line]) -> Result<Box<Listener>, Stop> {
    let setup = Setup::of(alloc, head, lines)?;
    at_line(last_number(lines), setup.into_listener())
}

// Plays a case whose client's bytes come in pieces, the first of which has this length.
fn play_cut(alloc: Global, head: &[Line], lines: &[Line], first: usize) -> Result<(), Stop> {
    let pieces = InPieces::new(alloc, begun(alloc, head, lines)?, first);
    play_served(alloc, pieces, head, lines)
}

/// Plays a case to the server in memory, also in one piece and cut at each place.
pub fn played(alloc: Global, head: &[Line], lines: &[Line]) -> Result<(), Stop> {
    let listener = begun(alloc, head, lines)?;
    play_served(alloc, ByLine { alloc, listener }, head, lines)?;
    play_cut(alloc, head, lines, usize::MAX)?;
    let said = at_line(last_number(lines), said_by_client(alloc, lines))?;
    for first in 0..PIECE.min(said.len()) {
        play_cut(alloc, head, lines, first)?;
    }
    Ok(())
}
