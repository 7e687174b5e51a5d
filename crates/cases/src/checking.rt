//! Plays files of cases, and tells what differs.

use crate::case_file::{Case, CaseFile, Line, case_file_of};
use crate::fault::{Fault, Stop};
use crate::tally::{Tally, print_stop, print_tally};
use std::process::ExitCode;
use std::rt::{Env, Files};
use std::{env, fs, io};

/// What plays cases.
pub trait Play {
    /// Plays a case from nothing: the lines that all cases of its file share, and its own.
    ///
    /// # Errors
    /// The line at which the case stops, and why.
    fn play(&mut self, head: &[Line], lines: &[Line]) -> Result<(), Stop>;
}

// What a case comes to where something in it is to differ.
fn turned_round(number: usize, played: Result<(), Stop>) -> Result<(), Stop> {
    match played {
        Ok(()) => Err(Fault::NothingDiffers.at(number)),
        Err(stop) if matches!(&stop.fault, Fault::Differs { .. }) => Ok(()),
        Err(stop) => Err(stop),
    }
}

// Plays a case, which has to have lines.
fn played<P: Play>(play: &mut P, file: &CaseFile, case: &Case) -> Result<(), Stop> {
    let number = case.number;
    if case.lines.is_empty() {
        return Err(Fault::Form.at(number));
    }
    let played = play.play(&file.head, &case.lines);
    if file.must_differ {
        turned_round(number, played)
    } else {
        played
    }
}

// Counts a case that failed, and prints its title and where it stops.
fn fail<R: Print + AllocGlobal>(
    rt: &R,
    name: &str,
    title: &str,
    stop: Stop,
    tally: &mut Tally,
) -> io::Result<()> {
    tally.fail();
    let printed = print_stop(rt, name, title, &stop);
    drop(stop);
    printed
}

// Plays a case, and prints where it stops.
fn check_case<P: Play, R: Print + AllocGlobal>(
    rt: &R,
    play: &mut P,
    name: &str,
    file: &CaseFile,
    case: &Case,
    tally: &mut Tally,
) -> io::Result<()> {
    match played(play, file, case) {
        Ok(()) => {
            tally.pass();
            Ok(())
        }
        Err(stop) => fail(rt, name, case.title.as_str(), stop, tally),
    }
}

// Plays the cases of a file, one after another.
fn check_cases<P: Play, R: Print + AllocGlobal>(
    rt: &R,
    play: &mut P,
    name: &str,
    file: &CaseFile,
    tally: &mut Tally,
) -> io::Result<()> {
    for case in &file.cases {
        check_case(rt, play, name, file, case, tally)?;
    }
    Ok(())
}

/// Plays the cases of a file that has this name and text, counts them, and tells each that fails.
///
/// # Errors
/// Those of the output.
pub fn check_file<P: Play, R: Print + AllocGlobal>(
    rt: &R,
    play: &mut P,
    name: &str,
    text: &str,
    tally: &mut Tally,
) -> io::Result<()> {
    match case_file_of(rt.alloc(), text) {
        Ok(file) => {
            let checked = check_cases(rt, play, name, &file, tally);
            drop(file);
            checked
        }
        Err(stop) => fail(rt, name, "", stop, tally),
    }
}

// The text of a file, or word that it can't be read.
fn text_of<R: Files + Print + AllocGlobal>(rt: &R, name: &str) -> io::Result<String> {
    match fs::read_to_string(rt, name) {
        Ok(text) => Ok(text),
        Err(error) => {
            println!(rt; "{name}: the file can't be read")?;
            Err(error)
        }
    }
}

// Plays the files that the arguments name, or else the input, and prints how many cases passed.
fn tallied<P, R>(rt: &R, play: &mut P) -> io::Result<Tally>
where
    P: Play,
    R: Files + Env + Input + Print + AllocGlobal,
{
    let mut tally = Tally::new();
    let mut is_named = false;
    for name in env::args(rt)?.skip(1) {
        is_named = true;
        let text = text_of(rt, name.as_str())?;
        check_file(rt, play, name.as_str(), text.as_str(), &mut tally)?;
    }
    if !is_named {
        let text = io::read_to_string(rt.alloc(), rt.reader())?;
        check_file(rt, play, "stdin", text.as_str(), &mut tally)?;
    }
    print_tally(rt, tally)?;
    Ok(tally)
}

/// Plays the files that the arguments name, or else the input, and prints how many cases passed.
/// The status: 0 where all did, 1 where one failed, 2 where a file can't be read, which is printed,
/// or the output failed.
pub fn checked<P, R>(rt: &R, play: &mut P) -> ExitCode
where
    P: Play,
    R: Files + Env + Input + Print + AllocGlobal,
{
    match tallied(rt, play) {
        Ok(tally) => ExitCode::from(tally.status()),
        Err(_) => ExitCode::from(2),
    }
}
