//! A file of cases.
//!
//! An empty line, and one that begins with `#`, say nothing. `== TITLE` begins a case; the lines
//! before the first one are each case's first lines. A line that begins with a space belongs to the
//! line above it; where it begins with ` + ` it goes on with the text above. Before all others may
//! stand `each case differs` and `each line is a case`.

ghost use Rattle.std.specs.Prelude.{◌≡◌, ◌++◌, IfOk, codes};
ghost use Rattle.std.specs.String.{string_bytes};

use crate::fault::{Fault, Stop};
use std::alloc::{AllocError, Global};

/// A line that says what is due of the one above, without the space that it begins with: its number
/// in the file, counted from 1, and its text.
#[derive(Drop)]
pub struct DueLine {
    pub number: usize,
    pub text: String,
}

impl DueLine {
    /// The answer that is due: what stands behind `= `.
    ///
    /// # Errors
    /// A line that says something else.
    pub fn due(&self) -> Result<&str, Fault>
        ensures { IfOk result (λ text. string_bytes self.now.text ≡ codes "= " ++ text.now) }
    {
        self.text.strip_prefix("= ").ok_or(Fault::Form)
    }
}

/// A line: its number in the file, counted from 1, its text, and the lines below that belong to it.
#[derive(Drop)]
pub struct Line {
    pub number: usize,
    pub text: String,
    pub below: Vec<DueLine>,
}

/// The number of the last line, or 0 where there is none.
pub fn last_number(lines: &[Line]) -> usize {
    match lines.last() {
        Some(line) => line.number,
        None => 0,
    }
}

impl Line {
    fn new(alloc: Global, number: usize, text: &str) -> Result<Line, AllocError> {
        Ok(Line {
            number,
            text: String::from_str(alloc, text)?,
            below: Vec::new(alloc),
        })
    }

    // Goes on with the text of the last line that belongs to it, or with its own.
    fn go_on(&mut self, more: &str) -> Result<(), AllocError> {
        match self.below.last_mut() {
            Some(due) => put_more(&mut due.text, more),
            None => put_more(&mut self.text, more),
        }
    }

    // Takes a line that belongs to it.
    fn take_due(&mut self, alloc: Global, number: usize, text: &str) -> Result<(), AllocError> {
        if let Some(more) = text.strip_prefix("+ ") {
            return self.go_on(more);
        }
        let text = String::from_str(alloc, text)?;
        self.below.push(DueLine { number, text })?;
        Ok(())
    }
}

// Adds a text that is joined with the one in front.
fn put_more(text: &mut String, more: &str) -> Result<(), AllocError> {
    text.push('+')?;
    text.push_str(more)
}

/// A case: its title and where it stands, and its lines.
#[derive(Drop)]
pub struct Case {
    pub number: usize,
    pub title: String,
    pub lines: Vec<Line>,
}

/// The lines before the first case, which all cases share, and the cases.
#[derive(Drop)]
pub struct CaseFile {
    alloc: Global,
    /// Whether something is to differ in each case.
    pub must_differ: bool,
    // Whether each line is a case; the last title then, and whether it is the last line so far.
    by_line: bool,
    heading: String,
    ends_in_title: bool,
    pub head: Vec<Line>,
    pub cases: Vec<Case>,
}

impl CaseFile {
    fn new(alloc: Global) -> CaseFile {
        CaseFile {
            alloc,
            must_differ: false,
            by_line: false,
            heading: String::new(alloc),
            ends_in_title: false,
            head: Vec::new(alloc),
            cases: Vec::new(alloc),
        }
    }

    // Takes each line of the file, and has to find a case then where it found lines.
    fn take_all(&mut self, text: &str) -> Result<(), Stop> {
        let mut number = 0usize;
        for text in text.lines() {
            number = number.saturating_add(1);
            if let Err(fault) = self.take(number, text) {
                return Err(Stop { number, fault });
            }
        }
        match self.head.last() {
            Some(line) if self.cases.is_empty() => Err(Fault::Form.at(line.number)),
            _ => Ok(()),
        }
    }

    // Takes a line of the file.
    fn take(&mut self, number: usize, text: &str) -> Result<(), Fault> {
        if text.is_empty() || text.starts_with('#') {
            return Ok(());
        }
        if let Some(due) = text.strip_prefix(' ') {
            return self.take_due(number, due);
        }
        if let Some(title) = text.strip_prefix("== ") {
            return self.take_title(number, title);
        }
        if self.is_said_of_all(text) {
            return Ok(());
        }
        self.take_line(number, text)
    }

    // Whether a line in front of all others says something of each case, which is kept then.
    fn is_said_of_all(&mut self, text: &str) -> bool {
        if !self.head.is_empty() || !self.cases.is_empty() {
            return false;
        }
        match text {
            "each case differs" => self.must_differ = true,
            "each line is a case" => self.by_line = true,
            _ => return false,
        }
        true
    }

    // Takes a title, which begins a case or stands above several.
    fn take_title(&mut self, number: usize, title: &str) -> Result<(), Fault> {
        let title = String::from_str(self.alloc, title)?;
        self.ends_in_title = true;
        if self.by_line {
            self.heading = title;
            return Ok(());
        }
        self.begin(number, title)
    }

    // Begins a case, which has no lines yet.
    fn begin(&mut self, number: usize, title: String) -> Result<(), Fault> {
        let lines = Vec::new(self.alloc);
        let case = Case {
            number,
            title,
            lines,
        };
        self.cases.push(case)?;
        Ok(())
    }

    // Adds a line to the last case, or to those that all cases share.
    fn take_line(&mut self, number: usize, text: &str) -> Result<(), Fault> {
        if self.by_line {
            let title = self.heading.clone()?;
            self.begin(number, title)?;
        }
        self.ends_in_title = false;
        let line = Line::new(self.alloc, number, text)?;
        self.last_lines().push(line)?;
        Ok(())
    }

    // The lines of the last case, or those that all cases share.
    fn last_lines(&mut self) -> &mut Vec<Line> {
        match self.cases.last_mut() {
            Some(case) => &mut case.lines,
            None => &mut self.head,
        }
    }

    // The line to which one below it belongs. A title is none.
    fn last_line(&mut self) -> Option<&mut Line> {
        if self.ends_in_title {
            return None;
        }
        self.last_lines().last_mut()
    }

    // Takes a line that belongs to the one above.
    fn take_due(&mut self, number: usize, text: &str) -> Result<(), Fault> {
        let alloc = self.alloc;
        match self.last_line() {
            Some(line) => Ok(line.take_due(alloc, number, text)?),
            None => Err(Fault::Form),
        }
    }
}

/// Reads a file of cases.
///
/// # Errors
/// The line at which memory is wanting, or that belongs to a line above where none is; the last line
/// where there are lines, and none of them begins a case.
pub fn case_file_of(alloc: Global, text: &str) -> Result<CaseFile, Stop> {
    let mut file = CaseFile::new(alloc);
    match file.take_all(text) {
        Ok(()) => Ok(file),
        Err(stop) => {
            drop(file);
            Err(stop)
        }
    }
}
