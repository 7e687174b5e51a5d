//! The program `mail_drill SEED N`: a mailbox of N messages and 2N commands that a seed decides, played through lost connections and
//! stops, and one line that says what became of the actions.
#![tactic(auto)]

mod account;
mod beginning;
mod calm_world;
mod counting;
mod drilling;
mod examining;
mod last_round;
mod laws;
mod misfortune;
mod notices;
mod numerals;
mod orders;
mod played;
mod quiet_world;
mod rounds;
mod served;
mod streams;
mod tally;
mod task;
mod telling;

use drilling::drill;
use mail_base::{Line, Status};
use notices::notice_for;
use std::process::ExitCode;
use std::rt::Env;
use std::{env, io};
use streams::OutputSink;
use world_traits::Sink;

fn main(rt: HostRuntime) -> ExitCode {
    ExitCode::from(answer(&rt).code())
}

// The status of what the arguments ask for.
fn answer<R: Env + Print + AllocGlobal>(rt: &R) -> Status {
    let mut out = OutputSink::new(io::writer(rt));
    let Ok(arguments) = env::args(rt) else {
        return refused(&mut out, Status::Words, &Line::error_words());
    };
    let mut words = Vec::new(rt.alloc());
    for word in arguments.skip(1) {
        if words.push(word).is_err() {
            return refused(&mut out, Status::Memory, &Line::error_memory());
        }
    }
    if let Some(notice) = notice_for(&words) {
        return told(&mut out, notice);
    }
    let (status, _world) = drill(rt.alloc(), &words, &mut out);
    status
}

// Prints the line of a refusal.
fn refused<S: Sink>(out: &mut S, status: Status, line: &Line) -> Status {
    let _ = out.write(line.as_bytes());
    status
}

// Prints a notice.
fn told<S: Sink>(out: &mut S, notice: &str) -> Status {
    match out.write(notice.as_bytes()) {
        Ok(()) => Status::Done,
        Err(_) => Status::Output,
    }
}
