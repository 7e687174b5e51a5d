//! What a resynchronisation told, as words: `whole 9 50 7 ; 40 7 ; 42 7 \Seen`, or `part 9 50 9
//! gone 41,43 ; 42 9`. That is whether all rows are told, the UIDVALIDITY, the UIDNEXT and the
//! highest mod-sequence, the UIDs that are gone where there are some, and of each row its UID, its
//! mod-sequence and its flags.

ghost use Rattle.std.specs.Prelude.{◌≡◌};
ghost use Rattle.mailbox_cache.specs.Rows.{has_uid};

use crate::answer::Answer;
use crate::fault::WordFault;
use crate::input::Input;
use crate::values::{
    flags, modseq, put_flags, put_modseq, put_place, put_set, put_stamp, set, uid, validity,
};
use mail_base::List;
use mailbox_cache::{Delta, Row};
use uid_sets::{Uid, UidSet};

// More rows than these are told by their number.
const FEW: usize = 20;

/// The next words, to the last one, as a delta.
///
/// # Errors
/// Where they are none: its rows stand by their UIDs, and none of them is gone.
pub fn delta(input: &mut Input) -> Result<Delta, WordFault> {
    let mut delta = without_rows(input)?;
    for _ in 0..input.len() {
        if input.is_done() {
            break;
        }
        add_row(input, &mut delta)?;
    }
    Ok(delta)
}

// A delta that tells no rows.
fn without_rows(input: &mut Input) -> Result<Delta, WordFault> {
    let whole = match input.word()? {
        "whole" => true,
        "part" => false,
        _ => return Err(WordFault::Form),
    };
    Ok(Delta {
        whole,
        validity: validity(input)?,
        uidnext: uid(input)?,
        highest: modseq(input)?,
        vanished: gone(input)?,
        rows: List::new(input.alloc),
    })
}

// The set behind the word `gone`, where it stands there.
fn gone(input: &mut Input) -> Result<UidSet, WordFault> {
    if input.skips("gone") {
        return set(input);
    }
    Ok(UidSet::none(input.alloc))
}

// Whether a UID is one of a set.
fn has_uid(set: &UidSet, uid: Uid) -> bool
    ensures { result ≡ has_uid set.now uid }
{
    set.contains(uid)
}

// Adds a row, whose UID stands behind those before it and isn't gone.
fn add_row(input: &mut Input, delta: &mut Delta) -> Result<(), WordFault> {
    input.keyword(";")?;
    let (uid, modseq) = (uid(input)?, modseq(input)?);
    if uid.number() <= delta.last_uid() || has_uid(&delta.vanished, uid) {
        return Err(WordFault::Form);
    }
    let flags = flags(input)?;
    delta.push(uid, Row { flags, modseq })?;
    Ok(())
}

/// Adds the words of a delta. Of more than twenty rows it tells how many they are.
pub fn put_delta(answer: &mut Answer, delta: &Delta) -> Result<(), WordFault> {
    answer.word(if delta.whole { "whole" } else { "part" })?;
    put_place(answer, delta.validity, delta.uidnext)?;
    put_modseq(answer, delta.highest)?;
    put_vanished(answer, &delta.vanished)?;
    put_rows(answer, delta.rows.as_slice())
}

/// Adds the UIDs that are gone, where there are some.
pub fn put_vanished(answer: &mut Answer, gone: &UidSet) -> Result<(), WordFault> {
    if gone.is_empty() {
        return Ok(());
    }
    answer.word("gone")?;
    put_set(answer, gone)
}

/// Adds the rows, or how many they are where they are more than twenty.
pub fn put_rows(answer: &mut Answer, rows: &[(Uid, Row)]) -> Result<(), WordFault> {
    if rows.len() > FEW {
        return answer.at("rows", rows.len());
    }
    for (uid, row) in rows {
        put_row(answer, *uid, row)?;
    }
    Ok(())
}

/// Adds the words of a row: `; 42 715 \Seen`.
pub fn put_row(answer: &mut Answer, uid: Uid, row: &Row) -> Result<(), WordFault> {
    answer.word(";")?;
    put_stamp(answer, uid, row.modseq)?;
    put_flags(answer, &row.flags)
}
