//! A plain slow program for the delta that replies tell: each question is asked anew of all lines
//! behind the last CLOSED, and each UID up to 150 is looked for.

use crate::resyncs::{Resync, put_missing};
use cases::{Answer, WordFault, put_modseq, put_row, put_uid, put_validity, put_vanished};
use imap_model::{Code, Fetched, Item, Replies, Response};
use mail_base::{ModSeq, Validity};
use mailbox_cache::{Cache, Row};
use uid_sets::{Uid, UidSet};

// No case has a greater UID, but as the end of a set.
const GREATEST: u32 = 150;

/// Adds what the replies tell, or the first of their faults.
pub fn put_plain(resync: Resync<'_>, answer: &mut Answer) -> Result<(), WordFault> {
    let told = told_by(resync.selected);
    if told.no_modseq {
        return answer.word("nomodseq");
    }
    if told.not_sticky {
        return answer.word("uidnotsticky");
    }
    let Some(validity) = told.validity else {
        return put_missing(answer, Item::UidValidity);
    };
    let Some(uidnext) = told.uidnext else {
        return put_missing(answer, Item::UidNext);
    };
    let Some(highest) = told.highest else {
        return put_missing(answer, Item::HighestModSeq);
    };
    if let Some(cache) = resync.kept {
        if put_unlike(cache, validity, highest, answer)? {
            return Ok(());
        }
    }
    put_rows(resync, answer, validity, highest, uidnext)
}

// What is told where the codes have no fault.
fn put_rows(
    resync: Resync<'_>,
    answer: &mut Answer,
    validity: Validity,
    highest: ModSeq,
    uidnext: Uid,
) -> Result<(), WordFault> {
    let read = resync.all.unwrap_or(resync.selected);
    if let Some(place) = bare_place(read) {
        return answer.at("bare row at", place);
    }
    answer.word(if resync.kept.is_none() {
        "whole"
    } else {
        "part"
    })?;
    put_validity(answer, validity)?;
    put_uid(answer, uidnext)?;
    put_modseq(answer, highest)?;
    if resync.kept.is_some() {
        put_vanished(answer, &gone(resync, read)?)?;
    }
    for number in 1..=GREATEST {
        if let Some(uid) = Uid::new(number) {
            put_row_of(read, uid, answer)?;
        }
    }
    Ok(())
}

// The lines up to the last CLOSED, and those behind it, which alone count.
fn parted(read: &Replies) -> (&[Response], &[Response]) {
    let lines = read.untagged.as_slice();
    let mut past = 0usize;
    for (at, response) in lines.iter().enumerate() {
        if let Response::Untagged {
            code: Code::Closed,
            ..
        } = response
        {
            past = at.saturating_add(1);
        }
    }
    lines.split_at(past.min(lines.len()))
}

// What the codes tell, the last of two of one name.
#[derive(Clone, Copy)]
struct Told {
    no_modseq: bool,
    not_sticky: bool,
    validity: Option<Validity>,
    uidnext: Option<Uid>,
    highest: Option<ModSeq>,
}

// What the codes tell that count: those of the lines, and that of the completion.
fn told_by(read: &Replies) -> Told {
    let mut told = Told {
        no_modseq: false,
        not_sticky: false,
        validity: None,
        uidnext: None,
        highest: None,
    };
    for response in parted(read).1 {
        if let Response::Untagged { code, .. } = response {
            told.hear(code);
        }
    }
    told.hear(&read.code);
    told
}

impl Told {
    fn hear(&mut self, code: &Code) {
        match code {
            Code::NoModSeq => self.no_modseq = true,
            Code::UidNotSticky => self.not_sticky = true,
            Code::UidValidity(validity) => self.validity = Some(*validity),
            Code::UidNext(uid) => self.uidnext = Some(*uid),
            Code::HighestModSeq(modseq) => self.highest = Some(*modseq),
            _ => {}
        }
    }
}

// Whether the numbers don't go on from those of the cache, which is then added.
fn put_unlike(
    cache: &Cache,
    validity: Validity,
    highest: ModSeq,
    answer: &mut Answer,
) -> Result<bool, WordFault> {
    if cache.validity.number() != validity.number() {
        answer.word("validity")?;
        put_validity(answer, cache.validity)?;
        put_validity(answer, validity)?;
        return Ok(true);
    }
    if cache.highest.number() > highest.number() {
        answer.word("unfit")?;
        put_modseq(answer, cache.highest)?;
        put_modseq(answer, highest)?;
        return Ok(true);
    }
    Ok(false)
}

// The place of the first FETCH that has no UID, flags or mod-sequence.
fn bare_place(read: &Replies) -> Option<usize> {
    let (before, lines) = parted(read);
    for (at, response) in lines.iter().enumerate() {
        if let Response::Fetch(fetched) = response {
            if fetched.uid.is_none() || fetched.flags.is_none() || fetched.modseq.is_none() {
                return Some(before.len().saturating_add(at));
            }
        }
    }
    None
}

// The FETCH of a UID that is told last.
fn row_of(read: &Replies, uid: Uid) -> Option<&Fetched> {
    let mut row = None;
    for response in parted(read).1 {
        if let Response::Fetch(fetched) = response {
            if fetched.uid == Some(uid) {
                row = Some(fetched);
            }
        }
    }
    row
}

fn put_row_of(read: &Replies, uid: Uid, answer: &mut Answer) -> Result<(), WordFault> {
    let Some(fetched) = row_of(read, uid) else {
        return Ok(());
    };
    let (Some(flags), Some(modseq)) = (&fetched.flags, fetched.modseq) else {
        return Ok(());
    };
    let flags = flags.copy()?;
    let row = Row { flags, modseq };
    let told = put_row(answer, uid, &row);
    drop(row);
    told
}

// The UIDs that a VANISHED names, and no row has.
fn gone(resync: Resync<'_>, read: &Replies) -> Result<UidSet, WordFault> {
    let mut gone = UidSet::none(resync.alloc);
    for number in 1..=GREATEST {
        if let Some(uid) = Uid::new(number) {
            if is_gone(resync.selected, uid) && row_of(read, uid).is_none() {
                gone.add(uid)?;
            }
        }
    }
    Ok(gone)
}

// Whether a VANISHED that counts names the UID.
fn is_gone(read: &Replies, uid: Uid) -> bool {
    for response in parted(read).1 {
        if let Response::Vanished { uids, .. } = response {
            if uids.contains(uid) {
                return true;
            }
        }
    }
    false
}
