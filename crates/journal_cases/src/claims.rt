//! Whether files are as before a command or as behind it: what the rows `before ..` and `after ..`
//! below the command say of them.

use crate::commands::{Start, carried_out};
use crate::files::Files;
use crate::loops::Trial;
use crate::readings::{book, held, holding};
use crate::texts::{phrase_of, split};
use cases::{Fault, differs};

impl Trial<'_> {
    // Whether a command prints this one line over the files.
    fn prints(self, command: &str, line: &str, files: &Files) -> Result<bool, Fault> {
        let told = carried_out(self.names, command, Start::calm(files))?;
        Ok(told.printed.strip_suffix(b"\n") == Some(line.as_bytes()))
    }

    // Whether the files are as a row says: `bodies ..`, `journal WHY`, `book TEXT`, or `run WORDS |
    // LINE` of what the next command prints.
    fn holds(self, text: &str, files: &Files) -> Result<bool, Fault> {
        let (word, rest) = phrase_of(text);
        match word {
            "book" => Ok(book(self.names.alloc, files)?.as_str() == rest),
            "run" => {
                let (command, line) = split(text, " | ")?;
                self.prints(command, line, files)
            }
            _ => Ok(held(self.names.alloc, files)? == holding(self.names, word, rest)?),
        }
    }

    // Whether all rows with this word hold of the files, of which there is one at least.
    fn all_hold(self, word: &str, files: &Files) -> Result<bool, Fault> {
        let mut some = false;
        for row in self.rows {
            let (first, rest) = phrase_of(row.text.as_str());
            if first == word {
                if !self.holds(rest, files)? {
                    return Ok(false);
                }
                some = true;
            }
        }
        Ok(some)
    }

    // `before` or `after`. Files that are neither stop the case.
    fn state_of(self, files: &Files) -> Result<&'static str, Fault> {
        if self.all_hold("before", files)? {
            return Ok("before");
        }
        if self.all_hold("after", files)? {
            return Ok("after");
        }
        Err(differs(self.names.alloc, b"before or after", b"neither"))
    }

    /// `before` or `after`, where each of the files is so, or else `either`.
    pub fn state_of_all(self, all: &[Files]) -> Result<&'static str, Fault> {
        let mut states = "";
        for files in all {
            let state = self.state_of(files)?;
            if states.is_empty() {
                states = state;
            }
            if states != state {
                states = "either";
            }
        }
        Ok(states)
    }
}
