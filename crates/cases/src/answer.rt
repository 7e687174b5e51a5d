//! Words as they are written.

ghost use Rattle.std.specs.Prelude.{◌≡◌, ◌++◌, ◌∷◌, [], IfOk, Ok, codes, decimal, map};
ghost use Rattle.std.specs.Fn.{FnOnceReturnsAtMut};
ghost use Rattle.std.specs.Str.{IsUtf8};
ghost use Rattle.cases.specs.Answers.{Adds, added, begins_line, joined, one_form, spaced};
ghost use Rattle.cases.specs.Answers.{yes_or_no};
ghost use Rattle.cases.specs.Reading.{Reads};
ghost use Rattle.cases.specs.Written.{written};

use crate::fault::WordFault;
use crate::words::Word;
use crate::writing::put_word;
use itoa::Buffer;
use std::alloc::Global;
use std::marker::Model;
use std::str::from_utf8;

/// Words with one space between, in a line or in several. Contracts see its text.
#[derive(Drop)]
pub struct Answer {
    text: Vec<u8>,
}

impl Model for Answer {
    ghost use Rattle.std.specs.Prelude.{List, ℕ};

    ghost Value = { List ℕ };

    ghost view = { λ answer. answer.text.items };
}

impl Answer {
    /// No words.
    pub fn new(alloc: Global) -> Answer
        ensures { result ≡ [] }
    {
        Answer {
            text: Vec::new(alloc),
        }
    }

    /// The one form of these words.
    pub fn of(alloc: Global, words: &[Word]) -> Result<Answer, WordFault>
        ensures { Reads result (λ answer. answer ≡ added [] (map one_form words.now)) }
    {
        let mut answer = Answer::new(alloc);
        for word in words {
            answer.put(word)?;
        }
        Ok(answer)
    }

    // Adds a word. What parts others stays bare.
    fn put(&mut self, word: &Word) -> Result<(), WordFault>
        ensures { Adds result self.new (joined self.old (one_form word.now)) }
    {
        if word.is(b";") {
            return self.word(";");
        }
        if word.is(b"=") {
            return self.word("=");
        }
        self.text(word.bytes.as_slice())
    }

    /// What is written.
    pub fn as_bytes(&self) -> &[u8]
        ensures { result.now ≡ self.now }
    {
        &self.text
    }

    /// What is written, which is letters alone.
    pub fn as_str(&self) -> &str
        ensures { IsUtf8 self.now → result.now ≡ self.now }
    {
        from_utf8(&self.text).unwrap_or("?")
    }

    fn space(&mut self) -> Result<(), WordFault>
        ensures { Adds result self.new (spaced self.old) }
    {
        if !begins_line(&self.text) {
            self.text.push(b' ')?;
        }
        Ok(())
    }

    /// Adds a keyword, or some words, as they stand.
    pub fn word(&mut self, words: &str) -> Result<(), WordFault>
        ensures { Adds result self.new (joined self.old words.now) }
    {
        self.space()?;
        self.raw(words.as_bytes())
    }

    /// Adds a text: bare where it can be, and else in quotes.
    pub fn text(&mut self, text: &[u8]) -> Result<(), WordFault>
        ensures { Adds result self.new (joined self.old (written text.now)) }
    {
        self.space()?;
        put_word(&mut self.text, text)?;
        Ok(())
    }

    /// Adds bytes as they stand, without a space.
    pub fn raw(&mut self, bytes: &[u8]) -> Result<(), WordFault>
        ensures { Adds result self.new (self.old ++ bytes.now) }
    {
        self.text.extend_from_slice(bytes)?;
        Ok(())
    }

    /// Ends the line.
    pub fn end_line(&mut self) -> Result<(), WordFault>
        ensures { Adds result self.new (self.old ++ 10 ∷ []) }
    {
        self.raw(b"\n")
    }

    /// Adds `yes` or `no`.
    pub fn yes(&mut self, is: bool) -> Result<(), WordFault>
        ensures { Adds result self.new (joined self.old (yes_or_no is)) }
    {
        self.word(if is { "yes" } else { "no" })
    }

    /// Adds a word, and whether it is so.
    pub fn told(&mut self, word: &str, is: bool) -> Result<(), WordFault>
        ensures { Adds result self.new (joined (joined self.old word.now) (yes_or_no is)) }
    {
        self.word(word)?;
        self.yes(is)
    }

    fn digits(&mut self, number: u64) -> Result<(), WordFault>
        ensures { Adds result self.new (self.old ++ decimal number) }
    {
        let mut digits = Buffer::new();
        self.raw(digits.format(number).as_bytes())
    }

    /// Adds a number.
    pub fn number(&mut self, number: u64) -> Result<(), WordFault>
        ensures { Adds result self.new (joined self.old (decimal number)) }
    {
        self.space()?;
        self.digits(number)
    }

    /// Adds a place or a size.
    pub fn place(&mut self, place: usize) -> Result<(), WordFault>
        ensures { Adds result self.new (joined self.old (decimal place)) }
    {
        self.number(place as u64)
    }

    /// Adds some words and a place.
    pub fn at(&mut self, words: &str, place: usize) -> Result<(), WordFault>
        ensures { Adds result self.new (joined (joined self.old words.now) (decimal place)) }
    {
        self.word(words)?;
        self.place(place)
    }

    /// Adds a range, as `3:5`.
    pub fn range(&mut self, low: u64, high: u64) -> Result<(), WordFault>
        ensures { Adds result self.new (joined self.old (decimal low) ++ codes ":" ++ decimal high) }
    {
        self.number(low)?;
        self.raw(b":")?;
        self.digits(high)
    }

    /// Adds a mark with a number behind it, as `P1`.
    pub fn marked(&mut self, mark: &str, number: u32) -> Result<(), WordFault>
        ensures { Adds result self.new (joined self.old mark.now ++ decimal number) }
    {
        self.word(mark)?;
        self.digits(u64::from(number))
    }

    /// Adds the tag of a later try of an action, as `P1R2`.
    pub fn tried(&mut self, id: u32, turn: u8) -> Result<(), WordFault>
        ensures { Adds result self.new (joined self.old (codes "P") ++ decimal id ++ codes "R" ++ decimal turn) }
    {
        self.marked("P", id)?;
        self.raw(b"R")?;
        self.digits(u64::from(turn))
    }
}

/// What a call writes.
///
/// # Errors
/// Those of the call.
pub fn answer_of<F>(alloc: Global, put: F) -> Result<Answer, WordFault>
where
    F: FnOnce(&mut Answer) -> Result<(), WordFault>,
    requires { F.IsAlwaysCallable put }
    ensures { IfOk result (λ answer. FnOnceReturnsAtMut F.FnOnce put [] (Ok tt) answer) }
{
    let mut answer = Answer::new(alloc);
    put(&mut answer)?;
    Ok(answer)
}

// Whether a word that is added here would be the first one of its line.
fn begins_line(text: &[u8]) -> bool
    ensures { result ≡ begins_line text.now }
{
    match text.last() {
        Some(byte) => *byte == b'\n',
        None => true,
    }
}
