//! Who is on trial in a talk.

use cases::{DueLine, Fault, Line, Stop, last_number};

/// Who is on trial. It does what a line of the talk says, or compares what it said itself with that
/// line.
pub trait Trial {
    /// Does what a line says, or wants it where it is one of who is on trial.
    fn line(&mut self, text: &str) -> Result<(), Fault>;

    /// Wants what is due of the line above.
    fn due(&mut self, wanted: &str) -> Result<(), Fault>;

    /// Wants nothing more.
    fn end(&mut self) -> Result<(), Fault>;
}

/// A value, where what was done with it was done. It knows of no type, so that its proof sees no
/// parts.
pub fn kept<T: Drop, E: Drop>(value: T, done: Result<(), E>) -> Result<T, E> {
    match done {
        Ok(()) => Ok(value),
        Err(fault) => {
            drop(value);
            Err(fault)
        }
    }
}

/// What was made, or what stops the case at the line of this number. It knows of no type either.
pub fn at_line<T: Drop>(number: usize, made: Result<T, Fault>) -> Result<T, Stop> {
    match made {
        Ok(value) => Ok(value),
        Err(fault) => Err(fault.at(number)),
    }
}

// Wants what a row says.
fn want<T: Trial>(trial: &mut T, row: &DueLine) -> Result<(), Fault> {
    trial.due(row.due()?)
}

// Plays a line, and wants what stands below it.
fn play_line<T: Trial>(trial: &mut T, line: &Line) -> Result<(), Stop> {
    at_line(line.number, trial.line(line.text.as_str()))?;
    for row in &line.below {
        at_line(row.number, want(trial, row))?;
    }
    Ok(())
}

/// Plays lines, each with what is due below it.
pub fn play_lines<T: Trial>(trial: &mut T, lines: &[Line]) -> Result<(), Stop> {
    for line in lines {
        play_line(trial, line)?;
    }
    Ok(())
}

/// Plays a case: its file's first lines, then its own, behind which nothing more is due.
pub fn play<T: Trial>(trial: &mut T, head: &[Line], lines: &[Line]) -> Result<(), Stop> {
    play_lines(trial, head)?;
    play_lines(trial, lines)?;
    at_line(last_number(lines), trial.end())
}
