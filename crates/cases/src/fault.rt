//! Why a case stops.

ghost use Rattle.std.specs.Prelude.{◌≡◌, ◌↔◌, [], All, List, IfErr, IfOk, IsOk, decimal, map};
ghost use Rattle.cases.specs.Answers.{added, one_form};
ghost use Rattle.cases.specs.Comparing.{Means, Tells};
ghost use Rattle.cases.specs.Reading.{IsWord, Reads, line_of};
ghost use Rattle.cases.specs.declared.fault.Fault.TheVariants as faults;
ghost use Rattle.cases.specs.declared.words.Word.{Word};

use crate::answer::Answer;
use crate::words::words_of;
use itoa::Buffer;
use std::alloc::{AllocError, AllocFailed, Global};

/// Why words aren't a value, or a value has no words.
#[derive(Clone, Copy, Debug, PartialEq, Eq)]
pub enum WordFault {
    /// There isn't memory enough.
    Memory,
    /// The words aren't of the form that is read.
    Form,
}

impl From<AllocError> for WordFault {
    ghost use Rattle.cases.specs.declared.fault.WordFault.TheVariants.{Memory};
    ghost use Rattle.std.specs.Prelude.{◌≡◌};

    ghost from_gives = { λ _ fault. fault ≡ Memory };

    fn from(_: AllocError) -> WordFault {
        WordFault::Memory
    }
}

impl<T: Drop> From<AllocFailed<T>> for WordFault {
    ghost use Rattle.cases.specs.declared.fault.WordFault.TheVariants.{Memory};
    ghost use Rattle.std.specs.Prelude.{◌≡◌};

    ghost from_gives = { λ _ fault. fault ≡ Memory };

    fn from(_: AllocFailed<T>) -> WordFault {
        WordFault::Memory
    }
}

impl WordFault {
    /// What stops a case at the line of this number.
    pub fn at(self, number: usize) -> Stop
        ensures number { result.number ≡ number }
        ensures fault { Means result.fault self }
    {
        Fault::from(self).at(number)
    }
}

/// Why a line of a case can't be passed.
#[derive(Drop)]
pub enum Fault {
    /// There isn't memory enough.
    Memory,
    /// The line isn't one of the forms that are read.
    Form,
    /// One thing is due, and another came.
    Differs { due: Vec<u8>, came: Vec<u8> },
    /// The case must differ, and nothing in it does.
    NothingDiffers,
}

impl From<AllocError> for Fault {
    fn from(_: AllocError) -> Fault {
        Fault::Memory
    }
}

impl<T: Drop> From<AllocFailed<T>> for Fault {
    fn from(_: AllocFailed<T>) -> Fault {
        Fault::Memory
    }
}

impl From<WordFault> for Fault {
    ghost use Rattle.cases.specs.Comparing.{Means};

    ghost from_gives = { λ given fault. Means fault given };

    fn from(fault: WordFault) -> Fault {
        match fault {
            WordFault::Memory => Fault::Memory,
            WordFault::Form => Fault::Form,
        }
    }
}

impl Fault {
    /// What stops a case at the line of this number.
    pub fn at(self, number: usize) -> Stop
        ensures { (result.number ≡ number) × (result.fault ≡ self) }
    {
        Stop {
            number,
            fault: self,
        }
    }
}

/// The line at which a case stops, and why.
#[derive(Drop)]
pub struct Stop {
    pub number: usize,
    pub fault: Fault,
}

/// What is due, and what came.
pub fn differs(alloc: Global, due: &[u8], came: &[u8]) -> Fault
    ensures { Tells result due.now came.now }
{
    match both(alloc, due, came) {
        Ok(fault) => fault,
        Err(AllocError) => Fault::Memory,
    }
}

fn both(alloc: Global, due: &[u8], came: &[u8]) -> Result<Fault, AllocError>
    ensures { IfOk result (λ fault. Tells fault due.now came.now) }
{
    let due = due.to_vec(alloc)?;
    let came = came.to_vec(alloc)?;
    Ok(Fault::Differs { due, came })
}

/// Passes where the numbers are the same.
pub fn same_number(alloc: Global, due: u64, came: u64) -> Result<(), Fault>
    ensures exact { IsOk result ↔ (due ≡ came) }
    ensures differs { IfErr result (λ fault. Tells fault (decimal due) (decimal came)) }
{
    if due == came {
        return Ok(());
    }
    let (mut left, mut right) = (Buffer::new(), Buffer::new());
    let (due, came) = (left.format(due), right.format(came));
    Err(differs(alloc, due.as_bytes(), came.as_bytes()))
}

/// Passes where the bytes are the same.
pub fn same_bytes(alloc: Global, due: &[u8], came: &[u8]) -> Result<(), Fault>
    ensures exact { IsOk result ↔ (due.now ≡ came.now) }
    ensures differs { IfErr result (λ fault. Tells fault due.now came.now) }
{
    if due == came {
        return Ok(());
    }
    Err(differs(alloc, due, came))
}

/// Passes where the texts are the same.
pub fn same_text(alloc: Global, due: &str, came: &str) -> Result<(), Fault>
    ensures exact { IsOk result ↔ (due.now ≡ came.now) }
    ensures differs { IfErr result (λ fault. Tells fault due.now came.now) }
{
    same_bytes(alloc, due.as_bytes(), came.as_bytes())
}

/// Passes where the words of a text are those of an answer, whichever of them stand in quotes.
pub fn same_words(alloc: Global, due: &str, came: &Answer) -> Result<(), Fault>
    ensures same { (words : List Word) → All IsWord words → due.now ≡ line_of words →
        IfOk result (λ _. came.now ≡ added [] (map one_form words)) }
    ensures differs { (words : List Word) → All IsWord words → due.now ≡ line_of words →
        IfErr result (λ fault. Tells fault (added [] (map one_form words)) came.now) }
    ensures exact { (words : List Word) → All IsWord words → due.now ≡ line_of words →
        came.now ≡ added [] (map one_form words) → IfErr result (λ fault. fault ≡ faults.Memory) }
{
    let due = one_form(alloc, due)?;
    same_bytes(alloc, due.as_bytes(), came.as_bytes())
}

// The words of a text as they are written.
fn one_form(alloc: Global, text: &str) -> Result<Answer, WordFault>
    ensures again { (words : List Word) → All IsWord words → text.now ≡ line_of words →
        Reads result (λ answer. answer ≡ added [] (map one_form words)) }
{
    if text.is_empty() {
        return Ok(Answer::new(alloc));
    }
    let words = words_of(alloc, text.as_bytes())?;
    Answer::of(alloc, &words)
}
