//! Commands, as words: `fetch 42`, `store 42 715 + \Seen`, and so on.

use crate::answer::Answer;
use crate::fault::WordFault;
use crate::input::Input;
use crate::values::{
    bytes, flags, modseq, name, named, put_filed, put_flags, put_modseq, put_name, put_set,
    put_sign, put_stamp, put_uid, put_validity, set, sign, uid, validity,
};
use imap_model::{Command, Mark};
use mail_base::{Account, BoxName};

/// The next words as a command.
pub fn command(input: &mut Input) -> Result<Command, WordFault> {
    match input.word()? {
        "capability" => Ok(Command::Capability),
        "login" => Ok(Command::Login {
            account: account(input)?,
        }),
        "plain" => Ok(Command::Plain {
            account: account(input)?,
        }),
        "enable" => Ok(Command::Enable {
            rev2: input.skips("rev2"),
        }),
        "select" => select(input),
        "fetch" => fetch(input),
        "ids" => Ok(Command::FetchIds { uids: set(input)? }),
        "append" => append(input),
        "logout" => Ok(Command::Logout),
        word => of_uid(word, input),
    }
}

fn select(input: &mut Input) -> Result<Command, WordFault> {
    let text = input.text()?;
    Ok(Command::Select {
        since: mark(input)?,
        name: named(text)?,
    })
}

// A command whose UID comes first.
fn of_uid(word: &str, input: &mut Input) -> Result<Command, WordFault> {
    let uid = uid(input)?;
    match word {
        "text" => Ok(Command::FetchText { uid }),
        "expunge" => Ok(Command::Expunge { uid }),
        "search" => Ok(Command::Search {
            from: uid,
            id: bytes(input)?,
        }),
        "store" => Ok(Command::Store {
            uid,
            since: modseq(input)?,
            add: sign(input)?,
            flags: flags(input)?,
        }),
        "move" => Ok(Command::Shift {
            uid,
            to: name(input)?,
        }),
        "copy" => Ok(Command::Copy {
            uid,
            to: name(input)?,
        }),
        _ => Err(WordFault::Form),
    }
}

fn append(input: &mut Input) -> Result<Command, WordFault> {
    let to = name(input)?;
    let text = bytes(input)?;
    let flags = flags(input)?;
    Ok(Command::Append { to, flags, text })
}

/// The next texts as a user and a password.
pub fn account(input: &mut Input) -> Result<Account, WordFault> {
    let (user, password) = (input.letters()?, input.letters()?);
    Account::new(input.alloc, user, password)
        .ok()
        .ok_or(WordFault::Form)
}

/// `since 5 715`, where it stands there.
pub fn mark(input: &mut Input) -> Result<Option<Mark>, WordFault> {
    if !input.skips("since") {
        return Ok(None);
    }
    Ok(Some(Mark {
        validity: validity(input)?,
        modseq: modseq(input)?,
    }))
}

// `fetch all`, or `fetch 42`.
fn fetch(input: &mut Input) -> Result<Command, WordFault> {
    if input.skips("all") {
        return Ok(Command::FetchAll);
    }
    Ok(Command::FetchRow { uid: uid(input)? })
}

/// Adds the words of a command.
pub fn put_command(answer: &mut Answer, command: &Command) -> Result<(), WordFault> {
    answer.word(word_of(command))?;
    match command {
        Command::Capability | Command::Logout | Command::Enable { rev2: false } => Ok(()),
        Command::Login { account } | Command::Plain { account } => {
            answer.text(account.user().as_bytes())?;
            answer.text(account.password().as_bytes())
        }
        Command::Enable { rev2: true } => answer.word("rev2"),
        Command::Select { name, since } => put_select(answer, name, since),
        Command::FetchAll => answer.word("all"),
        Command::FetchRow { uid } | Command::FetchText { uid } | Command::Expunge { uid } => {
            put_uid(answer, *uid)
        }
        Command::Search { from, id } => {
            put_uid(answer, *from)?;
            answer.text(id.as_slice())
        }
        Command::FetchIds { uids } => put_set(answer, uids),
        Command::Store {
            uid,
            since,
            add,
            flags,
        } => {
            put_stamp(answer, *uid, *since)?;
            put_sign(answer, *add)?;
            put_flags(answer, flags)
        }
        Command::Shift { uid, to } | Command::Copy { uid, to } => {
            put_uid(answer, *uid)?;
            put_name(answer, to)
        }
        Command::Append { to, flags, text } => {
            put_name(answer, to)?;
            put_filed(answer, text, flags)
        }
    }
}

fn word_of(command: &Command) -> &'static str {
    match command {
        Command::Capability => "capability",
        Command::Login { .. } => "login",
        Command::Plain { .. } => "plain",
        Command::Enable { .. } => "enable",
        Command::Select { .. } => "select",
        Command::FetchAll | Command::FetchRow { .. } => "fetch",
        Command::Search { .. } => "search",
        Command::FetchIds { .. } => "ids",
        Command::FetchText { .. } => "text",
        Command::Store { .. } => "store",
        Command::Shift { .. } => "move",
        Command::Copy { .. } => "copy",
        Command::Expunge { .. } => "expunge",
        Command::Append { .. } => "append",
        Command::Logout => "logout",
    }
}

fn put_select(answer: &mut Answer, name: &BoxName, since: &Option<Mark>) -> Result<(), WordFault> {
    put_name(answer, name)?;
    match since {
        None => Ok(()),
        Some(mark) => {
            answer.word("since")?;
            put_validity(answer, mark.validity)?;
            put_modseq(answer, mark.modseq)
        }
    }
}
