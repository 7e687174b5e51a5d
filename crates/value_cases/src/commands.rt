//! Calls of `imap_command` and `command_texts`: the texts of commands, as they are written and as
//! they are heard.

use cases::{Answer, Input, WordFault, command, put_command, put_tag, tag};
use command_texts::{Heard, heard};
use imap_command::{Parts, astring, write};
use imap_model::Command;
use mail_base::{BoxName, Bytes, List, Tag};
use std::alloc::Global;

/// Whether a command changes something.
pub fn put_mutating(input: &mut Input, answer: &mut Answer) -> Result<(), WordFault> {
    let command = command(input)?;
    let is = command.is_mutating();
    drop(command);
    answer.yes(is)
}

/// What the parts of a text are heard as.
pub fn put_parts_heard(input: &mut Input, answer: &mut Answer) -> Result<(), WordFault> {
    let parts = parts(input)?;
    put_heard(input.alloc, parts.as_slice(), answer)
}

/// What is told of the text of a command.
#[derive(Clone, Copy)]
pub enum Spoken {
    /// Its parts.
    Parts,
    /// What each front of it is heard as, and the whole.
    Fronts,
    /// Whether what is heard is written in the same parts.
    Alike,
}

/// The text of a command's copy under a tag, where it can be written.
pub fn put_written(
    input: &mut Input,
    answer: &mut Answer,
    spoken: Spoken,
) -> Result<(), WordFault> {
    let tag = tag(input)?;
    let command = copied(input)?;
    let told = put_text(input.alloc, tag, &command, spoken, answer);
    drop(command);
    told
}

fn copied(input: &mut Input) -> Result<Command, WordFault> {
    let command = command(input)?;
    let copy = command.copy();
    drop(command);
    Ok(copy?)
}

fn put_text(
    alloc: Global,
    tag: Tag,
    command: &Command,
    spoken: Spoken,
    answer: &mut Answer,
) -> Result<(), WordFault> {
    let Some(parts) = written(alloc, tag, command)? else {
        return answer.word("not writable");
    };
    let parts = parts.as_slice();
    match spoken {
        Spoken::Parts => put_parts(answer, parts),
        Spoken::Fronts => put_fronts(alloc, parts, answer),
        Spoken::Alike => answer.yes(is_heard_alike(alloc, parts)?),
    }
}

fn put_parts(answer: &mut Answer, parts: &[Bytes]) -> Result<(), WordFault> {
    for part in parts {
        answer.text(part.as_slice())?;
    }
    Ok(())
}

/// A text as an argument.
pub fn put_argument(input: &mut Input, answer: &mut Answer) -> Result<(), WordFault> {
    let text = input.text()?;
    if text.contains(&0) {
        return answer.word("has a nul");
    }
    answer.text(&astring(input.alloc, text)?)
}

// All texts that are left.
fn parts(input: &mut Input) -> Result<List<Bytes>, WordFault> {
    let mut parts = List::new(input.alloc);
    for _ in 0..input.len() {
        let text = input.text()?;
        parts.push(Bytes::of(text.to_vec(input.alloc)?))?;
    }
    Ok(parts)
}

// What the parts of a text are.
fn put_heard(alloc: Global, parts: &[Bytes], answer: &mut Answer) -> Result<(), WordFault> {
    if parts.is_empty() {
        return Err(WordFault::Form);
    }
    let heard = heard(alloc, parts)?;
    let told = put_what(answer, &heard);
    drop(heard);
    told
}

fn put_what(answer: &mut Answer, heard: &Heard) -> Result<(), WordFault> {
    match heard {
        Heard::Nothing => answer.word("nothing"),
        Heard::Front { tag, append } => put_front(answer, *tag, append),
        Heard::Command { tag, command } => put_whole(answer, *tag, command),
    }
}

fn put_front(answer: &mut Answer, tag: Tag, append: &Option<BoxName>) -> Result<(), WordFault> {
    answer.word("front")?;
    put_tag(answer, tag)?;
    match append {
        Some(name) => answer.text(name.as_bytes()),
        None => Ok(()),
    }
}

fn put_whole(answer: &mut Answer, tag: Tag, command: &Command) -> Result<(), WordFault> {
    answer.word("whole")?;
    put_tag(answer, tag)?;
    put_command(answer, command)
}

// What each front of the parts is, and all of them.
fn put_fronts(alloc: Global, parts: &[Bytes], answer: &mut Answer) -> Result<(), WordFault> {
    for size in 1..=parts.len() {
        if let Some((front, _)) = parts.split_at_checked(size) {
            put_heard(alloc, front, answer)?;
        }
    }
    Ok(())
}

// Whether parts are a text, and the command that is heard is written in the same parts.
fn is_heard_alike(alloc: Global, parts: &[Bytes]) -> Result<bool, WordFault> {
    if parts.is_empty() {
        return Ok(false);
    }
    let heard = heard(alloc, parts)?;
    let is = is_what(alloc, &heard, parts);
    drop(heard);
    is
}

// Whether it is a command that is written in these parts.
fn is_what(alloc: Global, heard: &Heard, parts: &[Bytes]) -> Result<bool, WordFault> {
    match heard {
        Heard::Command { tag, command } => is_written_so(alloc, *tag, command, parts),
        Heard::Front { .. } | Heard::Nothing => Ok(false),
    }
}

// Whether a command is written in these parts.
fn is_written_so(
    alloc: Global,
    tag: Tag,
    command: &Command,
    parts: &[Bytes],
) -> Result<bool, WordFault> {
    match written(alloc, tag, command)? {
        Some(again) => Ok(are_same(parts, again.as_slice())),
        None => Ok(false),
    }
}

// The parts of a command's text, where it can be written.
fn written(alloc: Global, tag: Tag, command: &Command) -> Result<Option<Parts>, WordFault> {
    if !command.is_writable(tag) {
        return Ok(None);
    }
    Ok(Some(write(alloc, tag, command)?))
}

fn are_same(left: &[Bytes], right: &[Bytes]) -> bool {
    if left.len() != right.len() {
        return false;
    }
    for (part, other) in left.iter().zip(right) {
        if part.as_slice() != other.as_slice() {
            return false;
        }
    }
    true
}
