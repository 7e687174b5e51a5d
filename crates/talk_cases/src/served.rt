//! A server on trial, alone or in a world: what it tells is compared, line by line.

use crate::reading::Reading;
use crate::said::{Who, said, whose};
use crate::setup::sets_up;
use crate::trial::{Trial, play};
use cases::{Fault, Line, Stop};
use std::alloc::Global;

/// What serves a client: a server, alone or in a world.
pub trait Serve {
    /// Hears what the client says.
    fn hear(&mut self, bytes: &[u8], reading: &mut Reading) -> Result<(), Fault>;

    /// Wants that it says this next.
    fn want(&mut self, bytes: &[u8], reading: &mut Reading) -> Result<(), Fault>;

    /// Wants that nothing more is told.
    fn settle(&mut self, reading: &mut Reading) -> Result<(), Fault>;

    /// Does what a line says that neither of them says.
    fn act(&mut self, text: &str, reading: &mut Reading) -> Result<(), Fault>;
}

// A server, and what it told.
#[derive(Drop)]
struct Served<S> {
    alloc: Global,
    server: S,
    reading: Reading,
}

impl<S: Serve> Trial for Served<S> {
    fn line(&mut self, text: &str) -> Result<(), Fault> {
        self.reading.want_no_answer()?;
        match whose(text) {
            Some(Who::Client) => self
                .server
                .hear(&said(self.alloc, text)?, &mut self.reading),
            Some(Who::Server) => self
                .server
                .want(&said(self.alloc, text)?, &mut self.reading),
            None if sets_up(text) => Ok(()),
            None => {
                self.server.settle(&mut self.reading)?;
                self.server.act(text, &mut self.reading)
            }
        }
    }

    fn due(&mut self, wanted: &str) -> Result<(), Fault> {
        self.reading.want_answer(wanted)
    }

    fn end(&mut self) -> Result<(), Fault> {
        self.reading.want_no_answer()?;
        self.server.settle(&mut self.reading)
    }
}

/// Plays a case to a server.
pub fn play_served<S: Serve + Drop>(
    alloc: Global,
    server: S,
    head: &[Line],
    lines: &[Line],
) -> Result<(), Stop> {
    let reading = Reading::new(alloc);
    let mut trial = Served {
        alloc,
        server,
        reading,
    };
    let played = play(&mut trial, head, lines);
    drop(trial);
    played
}
