//! The program `talk_cases`: plays files of talks, in which the server in memory, the world in
//! memory, a session or a player is on trial, and tells each line that differs. Behind `at
//! HOST:PORT` it makes the calls of a session at a real server.
#![tactic(auto)]

mod acts;
mod calls;
mod faults;
mod few;
mod fitting;
mod listener;
mod pieces;
mod plans;
mod player_book;
mod player_ear;
mod player_faults;
mod player_needs;
mod player_side;
mod player_telling;
mod player_trial;
mod reading;
mod said;
mod script;
mod served;
mod server_trial;
mod session;
mod session_trial;
mod setup;
mod silent_link;
mod talks;
mod trial;
mod world_calls;
mod world_cuts;
mod world_looks;
mod world_trial;

use cases::{Tally, check_file, checked, print_tally};
use std::fs::{File, Files};
use std::net::{Net, TcpStream};
use std::process::ExitCode;
use std::rt::Env;
use std::time::Clock;
use std::{env, fs, io};
use talks::{AtServer, Talks};

fn main(rt: HostRuntime) -> ExitCode {
    match played(&rt) {
        Ok(code) => code,
        Err(_) => ExitCode::from(2),
    }
}

// Plays the files that the arguments name, or the input; behind `at HOST:PORT` at the server there.
fn played<R>(rt: &R) -> io::Result<ExitCode>
where
    R: Files<File = File> + Net<Stream = TcpStream> + Clock + Env + Input + Print + AllocGlobal,
{
    let mut words = env::args(rt)?.skip(1);
    match words.next() {
        Some(word) if word.as_str() == "at" => {}
        _ => return Ok(checked(rt, &mut Talks::new(rt.alloc()))),
    }
    let Some(server) = words.next() else {
        return Ok(ExitCode::from(2));
    };
    let mut play = AtServer::new(rt, server.as_str());
    let mut tally = Tally::new();
    for name in words {
        let text = fs::read_to_string(rt, name.as_str())?;
        check_file(rt, &mut play, name.as_str(), text.as_str(), &mut tally)?;
    }
    print_tally(rt, tally)?;
    Ok(ExitCode::from(tally.status()))
}
