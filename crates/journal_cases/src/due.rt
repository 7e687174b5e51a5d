//! What is due of a line: what the rows below it say.

use crate::commands::Told;
use crate::cuts::{each_change, each_cut};
use crate::loops::Trial;
use crate::pieces::each_length;
use crate::play::Stage;
use crate::readings::{book, held, holding, piece, version};
use crate::texts::{number, phrase_of};
use cases::{
    Answer, Fault, Line, answer_of, differs, put_event, same_bytes, same_number, same_text,
    same_words, words_of,
};
use record_codec::decode;
use std::alloc::Global;

// The words of the event whose body bytes are.
fn event_words(alloc: Global, body: &[u8]) -> Result<Answer, Fault> {
    let Ok(event) = decode(alloc, body) else {
        return Err(Fault::Form);
    };
    let answer = answer_of(alloc, |answer| put_event(answer, &event));
    drop(event);
    Ok(answer?)
}

// The answer of a call, as words.
fn answer_words(alloc: Global, told: &Told) -> Result<Answer, Fault> {
    let words = words_of(alloc, told.answer.as_bytes())?;
    Ok(Answer::of(alloc, &words)?)
}

// The first line of what was printed, without its end.
fn first_line(printed: &[u8]) -> Option<&[u8]> {
    let end = printed.iter().position(|byte| *byte == b'\n')?;
    printed.get(..end)
}

impl Stage {
    /// Passes where a row below a line says what the line came to.
    pub fn due(&mut self, line: &Line, row: &str) -> Result<(), Fault> {
        let (word, rest) = phrase_of(row);
        match word {
            "before" | "after" => Ok(()),
            "|" => self.prints(rest),
            "=" if line.text.starts_with("bytes ") => self.is_event(rest),
            "=" => self.answers(rest),
            "stays" => self.stays(),
            "each" => self.each(line, rest),
            "left" => self.bytes_are(&self.told.files.left, rest),
            "right" => self.bytes_are(&self.told.files.right, rest),
            "printed" => {
                self.shown = self.told.printed.len();
                self.bytes_are(&self.told.printed, rest)
            }
            _ => self.holds(word, rest),
        }
    }

    // What was printed behind the lines that were told.
    fn untold(&self) -> &[u8] {
        self.told.printed.get(self.shown..).unwrap_or(&[])
    }

    // The next line that was printed.
    fn prints(&mut self, due: &str) -> Result<(), Fault> {
        let Some(line) = first_line(self.untold()) else {
            return Err(differs(self.alloc, due.as_bytes(), self.untold()));
        };
        same_bytes(self.alloc, due.as_bytes(), line)?;
        self.shown = self.shown.saturating_add(line.len()).saturating_add(1);
        Ok(())
    }

    // The answer of the last call. What a run printed was told before.
    fn answers(&self, due: &str) -> Result<(), Fault> {
        if self.told.is_run {
            same_bytes(self.alloc, b"", self.untold())?;
        }
        same_words(self.alloc, due, &answer_words(self.alloc, &self.told)?)
    }

    // The event of the bytes that have their name since last.
    fn is_event(&self, due: &str) -> Result<(), Fault> {
        let words = event_words(self.alloc, self.names.last()?)?;
        same_words(self.alloc, due, &words)
    }

    // The last command left the files.
    fn stays(&self) -> Result<(), Fault> {
        if self.stays {
            return Ok(());
        }
        Err(differs(self.alloc, b"the files as before", b"others"))
    }

    // `call ..`, `stop ..`, `cut left`, `change left ..`, `length ..` or `flip left ..`
    fn each(&self, line: &Line, text: &str) -> Result<(), Fault> {
        let (alloc, files) = (self.alloc, &self.told.files);
        let trial = Trial {
            names: &self.names,
            command: line.text.strip_prefix("command ").unwrap_or(""),
            rows: &line.below,
        };
        let (word, rest) = phrase_of(text);
        match word {
            "call" => trial.each_call(self.start(), false, rest),
            "stop" => trial.each_call(self.start(), true, rest),
            "flip" => trial.each_flip(files, rest),
            "cut" => each_cut(alloc, files, rest),
            "change" => each_change(alloc, files, rest),
            "length" => each_length(&self.names, files, rest),
            _ => Err(Fault::Form),
        }
    }

    // What bytes are: `is BYTES`, `begins BYTES`, `ends BYTES` or `size 81`
    fn bytes_are(&self, told: &[u8], text: &str) -> Result<(), Fault> {
        let (word, rest) = phrase_of(text);
        if word == "size" {
            return same_number(self.alloc, number(rest)?, told.len() as u64);
        }
        let wanted = self.names.all(rest)?;
        let holds = match word {
            "is" => told == wanted.as_slice(),
            "begins" => told.starts_with(&wanted),
            "ends" => told.ends_with(&wanted),
            _ => return Err(Fault::Form),
        };
        if holds {
            return Ok(());
        }
        Err(differs(self.alloc, &wanted, told))
    }

    // What else there is of the last call, and of the files.
    fn holds(&self, word: &str, due: &str) -> Result<(), Fault> {
        let (alloc, files) = (self.alloc, &self.told.files);
        match word {
            "costs" => same_text(alloc, due, self.told.cost.as_str()),
            "unread" => same_number(alloc, number(due)?, self.told.unread),
            "refused" => same_number(alloc, number(due)?, self.objects.refused()),
            "piece" => same_number(alloc, number(due)?, piece(alloc, files)?),
            "version" => same_text(alloc, due, version(alloc, files)?),
            "book" => same_text(alloc, due, book(alloc, files)?.as_str()),
            _ => {
                let wanted = holding(&self.names, word, due)?;
                same_bytes(alloc, &wanted, &held(alloc, files)?)
            }
        }
    }
}
