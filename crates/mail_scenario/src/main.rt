//! The program `mail_scenario`: plays the scenario of its input, and prints what happens;
//! docs/SCENARIOS.md has the language. Where arguments name files of cases, it plays these, and
//! tells each line that prints something else than the file says; an argument `-` among them is the
//! scenario of its input. It is for tests.
#![tactic(auto)]

mod any_world;
mod fault;
mod hexadecimal;
mod looks;
mod muted_link;
mod muted_run;
mod muted_world;
mod next_run;
mod outcome;
mod player;
mod playing;
mod runs;
mod scenarios;
mod setting;
mod setup;
mod shows;
mod silent_world;
mod stand;

use cases::{Tally, check_file, print_tally};
use outcome::Ended;
use playing::{play, print_memory};
use scenarios::Scenarios;
use std::io::{ErrorKind, Read};
use std::process::ExitCode;
use std::rt::{Env, Files};
use std::{env, fs, io};

fn main(rt: HostRuntime) -> ExitCode {
    ExitCode::from(ended(&rt).code())
}

// Plays what the arguments name, or else the input.
fn ended<R: Files + Env + Input + Print + AllocGlobal>(rt: &R) -> Ended {
    let Ok(arguments) = env::args(rt) else {
        return Ended::Input;
    };
    let mut tally = Tally::new();
    let mut is_named = false;
    for name in arguments.skip(1) {
        is_named = true;
        match played(rt, name.as_str(), &mut tally) {
            Ended::Done => {}
            other => return other,
        }
    }
    if is_named {
        told(rt, tally)
    } else {
        play_input(rt)
    }
}

// Plays the cases of a file, or the input where the name is `-`.
fn played<R: Files + Input + Print + AllocGlobal>(rt: &R, name: &str, tally: &mut Tally) -> Ended {
    if name == "-" {
        return play_input(rt);
    }
    let Ok(text) = fs::read_to_string(rt, name) else {
        return Ended::Input;
    };
    let mut play = Scenarios { alloc: rt.alloc() };
    match check_file(rt, &mut play, name, text.as_str(), tally) {
        Ok(()) => Ended::Done,
        Err(_) => Ended::Output,
    }
}

// Plays the scenario of the input.
fn play_input<R: Input + Print + AllocGlobal>(rt: &R) -> Ended {
    let mut text = Vec::new(rt.alloc());
    match rt.reader().read_to_end(&mut text) {
        Ok(_) => play(rt, &text),
        Err(error) if error.kind() == ErrorKind::OutOfMemory => print_memory(rt),
        Err(_) => Ended::Input,
    }
}

// Prints how many cases passed, and how many failed where one did.
fn told<R: Print>(rt: &R, tally: Tally) -> Ended {
    match print_tally(rt, tally) {
        Ok(()) if tally.failed == 0 => Ended::Done,
        Ok(()) => Ended::Failed,
        Err(_) => Ended::Output,
    }
}
