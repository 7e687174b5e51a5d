//! Plays a case: each line is a call and its words, and what is due of it stands behind a `=`, or
//! below.

use crate::calls::Kept;
use cases::{
    Answer, DueLine, Fault, Line, Play, Stop, Word, last_number, same_bytes, same_words, words_of,
};
use std::alloc::{AllocError, Global};

/// What plays cases of values.
#[derive(Clone, Copy)]
pub struct Values {
    pub alloc: Global,
}

impl Play for Values {
    fn play(&mut self, head: &[Line], lines: &[Line]) -> Result<(), Stop> {
        let mut kept = Kept::new(self.alloc);
        let played = play_both(self.alloc, &mut kept, head, lines);
        drop(kept);
        played
    }
}

// Something has to be compared in the last line of a case.
fn play_both(alloc: Global, kept: &mut Kept, head: &[Line], lines: &[Line]) -> Result<(), Stop> {
    play_all(alloc, kept, head)?;
    if play_all(alloc, kept, lines)? {
        return Ok(());
    }
    Err(Fault::Form.at(last_number(lines)))
}

// Plays lines, and tells whether something was compared in the last one.
fn play_all(alloc: Global, kept: &mut Kept, lines: &[Line]) -> Result<bool, Stop> {
    let mut compared = false;
    for line in lines {
        match play_line(alloc, kept, line) {
            Ok(is) => compared = is,
            Err(fault) => return Err(fault.at(line.number)),
        }
    }
    Ok(compared)
}

// Plays a line, and tells whether something was compared.
fn play_line(alloc: Global, kept: &mut Kept, line: &Line) -> Result<bool, Fault> {
    if let Some(said) = line.text.strip_prefix("S: ") {
        nothing_below(line)?;
        kept.hear(said)?;
        return Ok(false);
    }
    let words = words_of(alloc, line.text.as_bytes())?;
    match words.iter().position(|word| word.is(b"=")) {
        Some(at) => {
            nothing_below(line)?;
            let (asked, behind) = words.split_at(at.min(words.len()));
            let came = kept.answered(asked)?;
            same_answer(alloc, behind, &came)?;
            Ok(true)
        }
        None => {
            let came = kept.answered(&words)?;
            compare(alloc, &line.below, &came)
        }
    }
}

// Passes where nothing is due below a line.
fn nothing_below(line: &Line) -> Result<(), Fault> {
    if line.below.is_empty() {
        Ok(())
    } else {
        Err(Fault::Form)
    }
}

// What stands behind the call is a `=` and what is due.
fn same_answer(alloc: Global, behind: &[Word], came: &Answer) -> Result<(), Fault> {
    let (_, due) = behind.split_first().ok_or(Fault::Form)?;
    let due = Answer::of(alloc, due)?;
    same_bytes(alloc, due.as_bytes(), came.as_bytes())
}

// What is due stands below. Where nothing is, an event has to be entered, and another line comes to
// nothing.
fn compare(alloc: Global, below: &[DueLine], came: &Answer) -> Result<bool, Fault> {
    if below.is_empty() && came.as_bytes() == b"entered".as_slice() {
        return Ok(true);
    }
    let due = due_of(alloc, below)?;
    same_words(alloc, due.as_str(), came)?;
    Ok(!below.is_empty())
}

// The answer of all lines below.
fn due_of(alloc: Global, below: &[DueLine]) -> Result<String, Fault> {
    let mut due = String::new(alloc);
    for line in below {
        add_words(&mut due, line.due()?)?;
    }
    Ok(due)
}

fn add_words(due: &mut String, words: &str) -> Result<(), AllocError> {
    if !due.is_empty() {
        due.push(' ')?;
    }
    due.push_str(words)
}
