//! The calls of a session, by their words.

use cases::{Input, WordFault, account, command, flags, mark, name, read_line, tag};
use flag_set::FlagSet;
use imap_model::{Command, Mark};
use mail_base::{Account, BoxName, Tag};
use std::alloc::Global;

/// A call of a session.
#[derive(Drop)]
pub enum Call {
    Connect,
    Greet,
    LogIn(Account),
    Enable,
    Select(BoxName, Option<Mark>),
    Ask(Tag, Command),
    /// The same with a listener that refuses what comes behind so many responses.
    Hear(u64, Tag, Command),
    Leave,
    /// Tells what is selected.
    Name,
    /// Tells the next tag.
    NextTag,
    /// Tells whether each flag may be kept.
    Permits(FlagSet),
}

// The call of the next words.
fn next_call(input: &mut Input) -> Result<Call, WordFault> {
    match input.word()? {
        "connect" => Ok(Call::Connect),
        "greet" => Ok(Call::Greet),
        "authenticate" => Ok(Call::LogIn(account(input)?)),
        "enable" => Ok(Call::Enable),
        "select" => Ok(Call::Select(name(input)?, mark(input)?)),
        "ask" => Ok(Call::Ask(tag(input)?, command(input)?)),
        "hear" => Ok(Call::Hear(input.number()?, tag(input)?, command(input)?)),
        "leave" => Ok(Call::Leave),
        "name" => Ok(Call::Name),
        "tag" => Ok(Call::NextTag),
        "permits" => Ok(Call::Permits(flags(input)?)),
        _ => Err(WordFault::Form),
    }
}

/// The call of a line.
pub fn call_of(alloc: Global, text: &str) -> Result<Call, WordFault> {
    read_line(alloc, text, next_call)
}
