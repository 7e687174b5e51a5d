//! Changes by other clients, as words.

use crate::answer::Answer;
use crate::fault::WordFault;
use crate::input::Input;
use crate::values::{
    bytes, listed_flags, modseq, name, put_filed, put_flags, put_headed, put_modseq, put_name,
    put_place, put_uid, uid, validity,
};
use imap_model::Change;
use mail_base::{BoxName, List};
use uid_sets::Uid;

/// A change by another client in the mailbox of a name.
#[derive(Drop)]
pub struct Foreign {
    pub name: BoxName,
    pub change: Change,
}

/// `add`, `set`, `drop`, `shift` or `reset`, and what is changed.
pub fn change(input: &mut Input) -> Result<Foreign, WordFault> {
    let verb = input.word()?;
    let name = name(input)?;
    let change = change_of(verb, input)?;
    Ok(Foreign { name, change })
}

// What is changed in the mailbox.
fn change_of(verb: &str, input: &mut Input) -> Result<Change, WordFault> {
    match verb {
        // `UID TEXT FLAG ..`
        "add" => Ok(Change::Add {
            uid: uid(input)?,
            text: bytes(input)?,
            flags: listed_flags(input)?,
        }),
        // `UID FLAG ..`
        "set" => Ok(Change::SetFlags {
            uid: uid(input)?,
            flags: listed_flags(input)?,
        }),
        "drop" => Ok(Change::Drop { uid: uid(input)? }),
        // `UID TO NEW`
        "shift" => Ok(Change::Shift {
            uid: uid(input)?,
            to: name(input)?,
            new: uid(input)?,
        }),
        // `VALIDITY UIDNEXT HIGHEST UID ..`
        "reset" => Ok(Change::Reset {
            validity: validity(input)?,
            uidnext: uid(input)?,
            highest: modseq(input)?,
            uids: List::of(uids(input)?),
        }),
        _ => Err(WordFault::Form),
    }
}

// The UIDs to the end of the step.
fn uids(input: &mut Input) -> Result<Vec<Uid>, WordFault> {
    let mut uids = Vec::new(input.alloc);
    for _ in 0..input.len() {
        if input.is_step_done() {
            break;
        }
        uids.push(uid(input)?)?;
    }
    Ok(uids)
}

/// Adds the words of a change in the mailbox of a name.
pub fn put_change(answer: &mut Answer, name: &BoxName, change: &Change) -> Result<(), WordFault> {
    put_headed(answer, verb_of(change), name)?;
    match change {
        Change::Add { flags, text, uid } => {
            put_uid(answer, *uid)?;
            put_filed(answer, text, flags)
        }
        Change::SetFlags { uid, flags } => {
            put_uid(answer, *uid)?;
            put_flags(answer, flags)
        }
        Change::Drop { uid } => put_uid(answer, *uid),
        Change::Shift { uid, to, new } => {
            put_uid(answer, *uid)?;
            put_name(answer, to)?;
            put_uid(answer, *new)
        }
        Change::Reset {
            validity,
            uids,
            uidnext,
            highest,
        } => {
            put_place(answer, *validity, *uidnext)?;
            put_modseq(answer, *highest)?;
            put_uids(answer, uids.as_slice())
        }
    }
}

fn verb_of(change: &Change) -> &'static str {
    match change {
        Change::Add { .. } => "add",
        Change::SetFlags { .. } => "set",
        Change::Drop { .. } => "drop",
        Change::Shift { .. } => "shift",
        Change::Reset { .. } => "reset",
    }
}

fn put_uids(answer: &mut Answer, uids: &[Uid]) -> Result<(), WordFault> {
    for uid in uids {
        put_uid(answer, *uid)?;
    }
    Ok(())
}
