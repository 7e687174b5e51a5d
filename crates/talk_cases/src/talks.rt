//! Who is on trial, by the first line of a case.

use crate::{player_trial, server_trial, session_trial, world_trial};
use cases::{Fault, Line, Play, Stop};
use std::alloc::Global;
use std::fs::{File, Files};
use std::net::{Net, TcpStream};
use std::time::Clock;

/// Plays each case to who is on trial in it.
#[derive(Drop)]
pub struct Talks {
    alloc: Global,
}

impl Talks {
    /// Plays talks.
    pub fn new(alloc: Global) -> Talks {
        Talks { alloc }
    }
}

// The first line of a case.
fn first<'a>(head: &'a [Line], lines: &'a [Line]) -> Result<&'a Line, Stop> {
    let own = lines.first();
    match head.first().or(own) {
        Some(line) => Ok(line),
        None => Err(Fault::Form.at(0)),
    }
}

// In front of the cases of sessions nothing stands but who is on trial.
fn want_no_more(head: &[Line]) -> Result<(), Stop> {
    match head.get(1) {
        Some(line) => Err(Fault::Form.at(line.number)),
        None => Ok(()),
    }
}

impl Play for Talks {
    fn play(&mut self, head: &[Line], lines: &[Line]) -> Result<(), Stop> {
        let first = first(head, lines)?;
        match first.text.as_str() {
            "trial server" => server_trial::played(self.alloc, head, lines),
            "trial world" => world_trial::played(self.alloc, head, lines),
            "trial session" => {
                want_no_more(head)?;
                session_trial::played(self.alloc, lines)
            }
            "trial player" => player_trial::played(self.alloc, head, lines),
            _ => Err(Fault::Form.at(first.number)),
        }
    }
}

/// Makes the calls of each case at the server at `HOST:PORT`.
#[derive(Drop)]
pub struct AtServer<'a, R> {
    rt: &'a R,
    server: &'a str,
}

impl<'a, R> AtServer<'a, R> {
    /// Plays talks at this server.
    pub fn new(rt: &'a R, server: &'a str) -> AtServer<'a, R> {
        AtServer { rt, server }
    }
}

impl<'a, R> Play for AtServer<'a, R>
where
    R: Files<File = File> + Net<Stream = TcpStream> + Clock + AllocGlobal,
{
    fn play(&mut self, _head: &[Line], lines: &[Line]) -> Result<(), Stop> {
        session_trial::played_at(self.rt, self.server, lines)
    }
}
