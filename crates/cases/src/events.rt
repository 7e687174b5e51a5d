//! The events of a journal, as words: `begin`, `accept`, `intend`, `settle`, `learn`, `old`,
//! `reset` and `withdraw`, with what they tell.

use crate::answer::Answer;
use crate::deltas::{delta, put_delta};
use crate::fault::WordFault;
use crate::input::Input;
use crate::outcomes::{outcome, put_outcome};
use crate::values::{
    action_id, bytes, flags, modseq, name, named, put_filed, put_flags, put_headed, put_modseq,
    put_name, put_place, put_sign, put_validity, sign, uid, validity,
};
use action_queue::{Action, Event, Intent, Outcome, Target};
use mail_base::{ActionId, BoxName, List, Validity, read_u32};
use mailbox_cache::Delta;
use uid_sets::Uid;

/// The next words, to the last one, as an event.
pub fn event(input: &mut Input) -> Result<Event, WordFault> {
    match input.word()? {
        "begin" => begin(input),
        "learn" => Ok(Event::Learn {
            name: name(input)?,
            delta: delta(input)?,
        }),
        "reset" => Ok(Event::Reset {
            name: name(input)?,
            kept: validity(input)?,
            told: validity(input)?,
        }),
        word => of_action(word, input),
    }
}

// An event of the action whose number comes first.
fn of_action(word: &str, input: &mut Input) -> Result<Event, WordFault> {
    let id = action_id(input)?;
    match word {
        "accept" => Ok(Event::Accept {
            id,
            action: action(input)?,
        }),
        "intend" => Ok(Event::Intend {
            id,
            intent: intent(input)?,
        }),
        "settle" => Ok(Event::Settle {
            id,
            outcome: outcome(input)?,
        }),
        "old" => old(id, input),
        "withdraw" => withdraw(id, input),
        _ => Err(WordFault::Form),
    }
}

fn begin(input: &mut Input) -> Result<Event, WordFault> {
    let mut names = List::new(input.alloc);
    for _ in 0..input.len() {
        names.push(name(input)?)?;
    }
    Ok(Event::Begin { names })
}

fn old(id: ActionId, input: &mut Input) -> Result<Event, WordFault> {
    let action = action(input)?;
    match old_outcome(input) {
        Ok(outcome) => Ok(Event::Old {
            id,
            action,
            outcome,
        }),
        Err(fault) => {
            drop(action);
            Err(fault)
        }
    }
}

// The outcome behind an action and a `;`.
fn old_outcome(input: &mut Input) -> Result<Outcome, WordFault> {
    input.end_step()?;
    outcome(input)
}

fn withdraw(id: ActionId, input: &mut Input) -> Result<Event, WordFault> {
    let tries = input.short()?;
    if tries > 255 {
        return Err(WordFault::Form);
    }
    let tries = tries as u8;
    Ok(Event::Withdraw { id, tries })
}

/// The next words as an action: `flag INBOX 5 42 + \Seen`, `move d1 Archive` or `append Archive
/// TEXT MESSAGE-ID \Seen`. The flags go on to the step's end.
pub fn action(input: &mut Input) -> Result<Action, WordFault> {
    match input.word()? {
        "flag" => Ok(Action::Flag {
            target: target(input)?,
            add: sign(input)?,
            flags: flags(input)?,
        }),
        "move" => Ok(Action::Move {
            target: target(input)?,
            to: name(input)?,
        }),
        "append" => Ok(Action::Append {
            to: name(input)?,
            text: bytes(input)?,
            id: bytes(input)?,
            flags: flags(input)?,
        }),
        _ => Err(WordFault::Form),
    }
}

/// The next words as a message: `d1`, which the first action makes, or a mailbox, its UIDVALIDITY
/// and a UID.
pub fn target(input: &mut Input) -> Result<Target, WordFault> {
    let text = input.text()?;
    if let Some(id) = made_by(text) {
        return Ok(Target::Dummy(id));
    }
    Ok(Target::Real {
        name: named(text)?,
        validity: validity(input)?,
        uid: uid(input)?,
    })
}

// The action that makes a message of this name.
fn made_by(text: &[u8]) -> Option<ActionId> {
    match text.split_first() {
        Some((b'd', digits)) => ActionId::new(read_u32(digits).ok()?),
        _ => None,
    }
}

/// The next words as an intent: `store INBOX 5 42 715`, `move INBOX 5 42 Archive` or `put Archive 5
/// 43`.
pub fn intent(input: &mut Input) -> Result<Intent, WordFault> {
    let (word, text) = (input.word()?, input.text()?);
    let (validity, uid) = (validity(input)?, uid(input)?);
    match word {
        "store" => Ok(Intent::Store {
            validity,
            uid,
            modseq: modseq(input)?,
            name: named(text)?,
        }),
        "move" => Ok(Intent::Shift {
            from: named(text)?,
            validity,
            uid,
            to: name(input)?,
        }),
        "put" => Ok(Intent::Put {
            to: named(text)?,
            validity,
            uidnext: uid,
        }),
        _ => Err(WordFault::Form),
    }
}

/// Adds the words of an event.
pub fn put_event(answer: &mut Answer, event: &Event) -> Result<(), WordFault> {
    match event {
        Event::Begin { names } => put_names(answer, names.as_slice()),
        Event::Accept { id, action } => {
            put_numbered(answer, "accept", *id)?;
            put_action(answer, action)
        }
        Event::Intend { id, intent } => {
            put_numbered(answer, "intend", *id)?;
            put_intent(answer, intent)
        }
        Event::Settle { id, outcome } => {
            put_numbered(answer, "settle", *id)?;
            put_outcome(answer, outcome)
        }
        Event::Learn { name, delta } => put_learn(answer, name, delta),
        Event::Old {
            id,
            action,
            outcome,
        } => {
            put_numbered(answer, "old", *id)?;
            put_action(answer, action)?;
            answer.word(";")?;
            put_outcome(answer, outcome)
        }
        Event::Reset { name, kept, told } => {
            put_headed(answer, "reset", name)?;
            put_validity(answer, *kept)?;
            put_validity(answer, *told)
        }
        Event::Withdraw { id, tries } => {
            put_numbered(answer, "withdraw", *id)?;
            answer.number(u64::from(*tries))
        }
    }
}

fn put_names(answer: &mut Answer, names: &[BoxName]) -> Result<(), WordFault> {
    answer.word("begin")?;
    for name in names {
        put_name(answer, name)?;
    }
    Ok(())
}

/// Adds a word and the number of an action.
pub fn put_numbered(answer: &mut Answer, word: &str, id: ActionId) -> Result<(), WordFault> {
    answer.word(word)?;
    answer.number(u64::from(id.number()))
}

fn put_learn(answer: &mut Answer, name: &BoxName, delta: &Delta) -> Result<(), WordFault> {
    put_headed(answer, "learn", name)?;
    put_delta(answer, delta)
}

/// Adds the words of an action.
pub fn put_action(answer: &mut Answer, action: &Action) -> Result<(), WordFault> {
    match action {
        Action::Flag { target, add, flags } => {
            put_meant(answer, "flag", target)?;
            put_sign(answer, *add)?;
            put_flags(answer, flags)
        }
        Action::Move { target, to } => {
            put_meant(answer, "move", target)?;
            put_name(answer, to)
        }
        Action::Append {
            to,
            flags,
            text,
            id,
        } => {
            put_headed(answer, "append", to)?;
            answer.text(text.as_slice())?;
            put_filed(answer, id, flags)
        }
    }
}

// Adds a word and the message that is meant.
fn put_meant(answer: &mut Answer, word: &str, target: &Target) -> Result<(), WordFault> {
    answer.word(word)?;
    match target {
        Target::Real {
            name,
            validity,
            uid,
        } => {
            put_name(answer, name)?;
            put_place(answer, *validity, *uid)
        }
        Target::Dummy(id) => answer.marked("d", id.number()),
    }
}

/// Adds the words of an intent.
pub fn put_intent(answer: &mut Answer, intent: &Intent) -> Result<(), WordFault> {
    match intent {
        Intent::Store {
            name,
            validity,
            uid,
            modseq,
        } => {
            put_found(answer, "store", name, *validity, *uid)?;
            put_modseq(answer, *modseq)
        }
        Intent::Shift {
            from,
            validity,
            uid,
            to,
        } => {
            put_found(answer, "move", from, *validity, *uid)?;
            put_name(answer, to)
        }
        Intent::Put {
            to,
            validity,
            uidnext,
        } => put_found(answer, "put", to, *validity, *uidnext),
    }
}

// Adds a word, and a place in the mailbox of a name.
fn put_found(
    answer: &mut Answer,
    word: &str,
    name: &BoxName,
    validity: Validity,
    uid: Uid,
) -> Result<(), WordFault> {
    put_headed(answer, word, name)?;
    put_place(answer, validity, uid)
}
