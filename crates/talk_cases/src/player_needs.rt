//! What the player needs, as words: `select INBOX`, `intend 1 store INBOX 5 42 715`, `learn ..`,
//! `settle 1 done 9 12`, `withdraw 1 2` or `finished`; and a command as the bytes that are sent.

use action_queue::Event;
use cases::{Answer, WordFault, put_event, put_name, put_numbered, put_outcome};
use imap_command::write;
use imap_model::Command;
use mail_base::{Bytes, Tag};
use playback::Need;
use std::alloc::Global;

/// Adds what is needed. Of a command that it is one: its bytes stand for it.
pub fn put_need(answer: &mut Answer, need: &Need) -> Result<(), WordFault> {
    match need {
        Need::Select(name) => {
            answer.word("select")?;
            put_name(answer, name)
        }
        Need::Commit(event) => put_event(answer, event),
        Need::Settle(id, outcome) => {
            put_numbered(answer, "settle", *id)?;
            put_outcome(answer, outcome)
        }
        Need::Withdraw(id, tries) => {
            put_numbered(answer, "withdraw", *id)?;
            answer.number(u64::from(*tries))
        }
        Need::Ask(_) | Need::Send(_, _) => answer.word("a command"),
        Need::Finished => answer.word("finished"),
    }
}

/// Whether it is to record what was told of a mailbox.
pub fn is_learn(need: &Need) -> bool {
    matches!(need, Need::Commit(Event::Learn { .. }))
}

/// The bytes of the command that is needed behind this many tries of the action that is due, where
/// one is: a question stands under the tag C1, and an action's command under that of its try.
pub fn command_of(alloc: Global, need: &Need, tries: u8) -> Result<Option<Vec<u8>>, WordFault> {
    match need {
        Need::Ask(command) => bytes_of(alloc, Tag::Count(1), command),
        Need::Send(id, command) if tries <= 2 => {
            bytes_of(alloc, Tag::of_try(id.number(), tries), command)
        }
        // No action has more than three tries.
        Need::Send(_, _) => Err(WordFault::Form),
        Need::Select(_)
        | Need::Commit(_)
        | Need::Settle(_, _)
        | Need::Withdraw(_, _)
        | Need::Finished => Ok(None),
    }
}

fn bytes_of(alloc: Global, tag: Tag, command: &Command) -> Result<Option<Vec<u8>>, WordFault> {
    if !command.is_writable(tag) {
        return Err(WordFault::Form);
    }
    let parts = write(alloc, tag, command)?;
    let bytes = joined(alloc, parts.as_slice())?;
    Ok(Some(bytes))
}

fn joined(alloc: Global, parts: &[Bytes]) -> Result<Vec<u8>, WordFault> {
    let mut bytes = Vec::new(alloc);
    for part in parts {
        bytes.extend_from_slice(part.as_slice())?;
    }
    Ok(bytes)
}
