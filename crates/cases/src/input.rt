//! The words of a line, read one after another.

ghost use Rattle.std.specs.Prelude.{◌≡◌, ◌<◌, ◌≤◌, ◌∷◌, ◌^◌, ◌↔◌, ℕ, List, [], drop, length, map};
ghost use Rattle.std.specs.Prelude.{IfErr, IfOk, IsErr, IsFalse, IsOk, IsTrue, None, OnOk, Ok};
ghost use Rattle.std.specs.Prelude.{Some, decimal};
ghost use Rattle.std.specs.Str.{IsUtf8};
ghost use Rattle.std.specs.String.{string_bytes};
ghost use Rattle.cases.specs.Taking.{begins_bare, behind_keyword, bytes_of, is_step_done};
ghost use Rattle.cases.specs.Taking.{next_bare, next_text};
ghost use Rattle.cases.specs.declared.words.Word.{Word};
ghost use Rattle.cases.specs.declared.fault.WordFault.TheVariants.{Form};

use crate::fault::WordFault;
use crate::numbers::number_of;
use crate::words::{Word, words_of};
use std::alloc::Global;
use std::str::from_utf8;

/// The words that weren't read yet.
#[derive(Drop)]
pub struct Input<'a> {
    pub alloc: Global,
    words: &'a [Word],
}

impl<'a> Input<'a> {
    /// All words.
    pub fn new(alloc: Global, words: &'a [Word]) -> Input<'a>
        ensures { result.words.now ≡ words.now }
    {
        Input { alloc, words }
    }

    /// How many words are left.
    pub fn len(&self) -> usize
        ensures { result ≡ length self.now.words.now }
    {
        self.words.len()
    }

    /// Whether each word was read.
    pub fn is_done(&self) -> bool
        ensures { IsTrue result ↔ (self.now.words.now ≡ []) }
    {
        self.words.is_empty()
    }

    /// Passes where each word was read.
    pub fn end(&self) -> Result<(), WordFault>
        ensures exact { IsOk result ↔ (self.now.words.now ≡ []) }
        ensures form { IfErr result (λ fault. fault ≡ Form) }
    {
        if self.is_done() {
            Ok(())
        } else {
            Err(WordFault::Form)
        }
    }

    /// Whether no word is left of the step that is read: a bare `;` stands behind each step but the
    /// last.
    pub fn is_step_done(&self) -> bool
        ensures { result ≡ is_step_done self.now.words.now }
    {
        match self.words.first() {
            Some(word) => word.is(b";"),
            None => true,
        }
    }

    /// Goes on to the next step, where there is one.
    pub fn end_step(&mut self) -> Result<(), WordFault>
        ensures exact { IsOk result ↔ IsTrue (is_step_done self.old.words.now) }
        ensures left { OnOk result (self.new.words.now ≡ drop 1 self.old.words.now) }
        ensures form { IfErr result (λ fault. fault ≡ Form) }
    {
        if self.is_done() {
            return Ok(());
        }
        self.keyword(";")
    }

    /// Whether the next word stands without quotes.
    pub fn is_bare(&self) -> bool
        ensures { result ≡ begins_bare self.now.words.now }
    {
        match self.words.first() {
            Some(word) => word.is_bare,
            None => false,
        }
    }

    fn next(&mut self) -> Result<&'a Word, WordFault>
        ensures next { IfOk result (λ word. self.old.words.now ≡ word.now ∷ self.new.words.now) }
        ensures form { IfErr result (λ fault. (fault ≡ Form) × (self.old.words.now ≡ [])) }
    {
        let Some((first, rest)) = self.words.split_first() else {
            return Err(WordFault::Form);
        };
        self.words = rest;
        Ok(first)
    }

    /// The next word, which is a keyword.
    pub fn word(&mut self) -> Result<&'a str, WordFault>
        ensures next { IfOk result (λ word. next_bare self.old.words.now ≡ Some (word.now, self.new.words.now)) }
        ensures all { (word : List ℕ) (rest : List Word) → IsUtf8 word →
            next_bare self.old.words.now ≡ Some (word, rest) → IsOk result }
        ensures form { IfErr result (λ fault. fault ≡ Form) }
    {
        let word = self.next()?;
        if !word.is_bare {
            return Err(WordFault::Form);
        }
        letters_of(word.bytes.as_slice())
    }

    /// The next word as a text, whether it stands in quotes or not.
    pub fn text(&mut self) -> Result<&'a [u8], WordFault>
        ensures next { IfOk result (λ text. next_text self.old.words.now ≡ Some (text.now, self.new.words.now)) }
        ensures form { IfErr result (λ fault. (fault ≡ Form) × (next_text self.old.words.now ≡ None)) }
    {
        let word = self.next()?;
        if word.is(b";") {
            return Err(WordFault::Form);
        }
        Ok(word.bytes.as_slice())
    }

    /// The next word as a text of whole letters.
    pub fn letters(&mut self) -> Result<&'a str, WordFault>
        ensures next { IfOk result (λ text. next_text self.old.words.now ≡ Some (text.now, self.new.words.now)) }
        ensures all { (text : List ℕ) (rest : List Word) → IsUtf8 text →
            next_text self.old.words.now ≡ Some (text, rest) → IsOk result }
        ensures form { IfErr result (λ fault. fault ≡ Form) }
    {
        letters_of(self.text()?)
    }

    /// Each word that is left, as a text of whole letters.
    pub fn letters_left(&mut self) -> Result<Vec<String>, WordFault>
        ensures { IfOk result (λ texts. map string_bytes texts.items ≡ bytes_of self.old.words.now) }
    {
        let mut texts = Vec::new(self.alloc);
        for _ in 0..self.len() {
            texts.push(String::from_str(self.alloc, self.letters()?)?)?;
        }
        Ok(texts)
    }

    /// The next word as a number.
    pub fn number(&mut self) -> Result<u64, WordFault>
        ensures next { IfOk result (λ n. next_text self.old.words.now ≡ Some (decimal n, self.new.words.now)) }
        ensures all { (n : ℕ) (rest : List Word) → n < 2 ^ 64 →
            next_text self.old.words.now ≡ Some (decimal n, rest) → result ≡ Ok n }
        ensures form { IfErr result (λ fault. fault ≡ Form) }
    {
        number_of(self.text()?).ok_or(WordFault::Form)
    }

    /// The next word as a number below 2^32.
    pub fn short(&mut self) -> Result<u32, WordFault>
        ensures next { IfOk result (λ n. next_text self.old.words.now ≡ Some (decimal n, self.new.words.now)) }
        ensures all { (n : ℕ) (rest : List Word) → n < 2 ^ 32 →
            next_text self.old.words.now ≡ Some (decimal n, rest) → result ≡ Ok n }
        ensures form { IfErr result (λ fault. fault ≡ Form) }
    {
        match u32::try_from(self.number()?) {
            Ok(number) => Ok(number),
            Err(_) => Err(WordFault::Form),
        }
    }

    /// Passes over the next word where it is this keyword.
    pub fn skips(&mut self, keyword: &str) -> bool
        ensures yes { IsTrue result → behind_keyword keyword.now self.old.words.now ≡ Some self.new.words.now }
        ensures no { IsFalse result →
            (behind_keyword keyword.now self.old.words.now ≡ None) × (self.new.words.now ≡ self.old.words.now) }
    {
        let Some((word, rest)) = self.words.split_first() else {
            return false;
        };
        if !word.is(keyword.as_bytes()) {
            return false;
        }
        self.words = rest;
        true
    }

    /// Passes over the next word, which is this keyword.
    pub fn keyword(&mut self, keyword: &str) -> Result<(), WordFault>
        ensures next { OnOk result (behind_keyword keyword.now self.old.words.now ≡ Some self.new.words.now) }
        ensures form { IfErr result (λ fault.
            (fault ≡ Form) × (behind_keyword keyword.now self.old.words.now ≡ None)) }
    {
        if self.skips(keyword) {
            Ok(())
        } else {
            Err(WordFault::Form)
        }
    }
}

/// What the words of a line say, each of which has to be read.
pub fn read_line<T, F>(alloc: Global, text: &str, read: F) -> Result<T, WordFault>
where
    T: Drop,
    F: FnOnce(&mut Input) -> Result<T, WordFault>,
    requires { F.IsAlwaysCallable read }
{
    let words = words_of(alloc, text.as_bytes())?;
    let mut input = Input::new(alloc, &words);
    let value = read(&mut input)?;
    whole(&input, value)
}

// A value, behind which no word is left.
fn whole<T: Drop>(input: &Input, value: T) -> Result<T, WordFault>
    ensures exact { IsOk result ↔ (input.now.words.now ≡ []) }
    ensures value { IfOk result (λ kept. kept ≡ value) }
    ensures form { IfErr result (λ fault. fault ≡ Form) }
{
    match input.end() {
        Ok(()) => Ok(value),
        Err(fault) => {
            drop(value);
            Err(fault)
        }
    }
}

fn letters_of(bytes: &[u8]) -> Result<&str, WordFault>
    ensures same { IfOk result (λ letters. letters.now ≡ bytes.now) }
    ensures exact { IsOk result ↔ IsUtf8 bytes.now }
    ensures form { IfErr result (λ fault. fault ≡ Form) }
{
    match from_utf8(bytes) {
        Ok(letters) => Ok(letters),
        Err(_) => Err(WordFault::Form),
    }
}
