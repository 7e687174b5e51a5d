//! How actions end, as words: `done`, `done 9 7` at a place, or the kind of a conflict, with its
//! numbers.

use crate::answer::Answer;
use crate::events::put_numbered;
use crate::fault::WordFault;
use crate::input::Input;
use crate::values::{
    action_id, modseq, put_modseq, put_place, put_uid, put_validity, uid, validity,
};
use action_queue::{Kind, Outcome, Place};
use mail_base::Validity;

/// The next words as an outcome.
pub fn outcome(input: &mut Input) -> Result<Outcome, WordFault> {
    match input.word()? {
        "done" => Ok(Outcome::Done {
            place: place(input)?,
        }),
        word => Ok(Outcome::Conflict(kind(word, input)?)),
    }
}

// The place behind `done`, if there is one.
fn place(input: &mut Input) -> Result<Option<Place>, WordFault> {
    if input.is_step_done() {
        return Ok(None);
    }
    Ok(Some(Place {
        validity: validity(input)?,
        uid: uid(input)?,
    }))
}

fn kind(word: &str, input: &mut Input) -> Result<Kind, WordFault> {
    Ok(match word {
        "flags-changed" => Kind::FlagsChanged { m: modseq(input)? },
        "target-unknown" => Kind::TargetUnknown {
            k: action_id(input)?,
        },
        "store-unsure" => Kind::StoreUnsure {
            m: modseq(input)?,
            f: modseq(input)?,
        },
        "ambiguous" => Kind::Ambiguous {
            u: uid(input)?,
            v: uid(input)?,
        },
        "validity-changed" => Kind::ValidityChanged {
            o: validity(input)?,
            n: validity(input)?,
        },
        "reset-after-loss" => Kind::ResetAfterLoss {
            o: validity(input)?,
            n: validity(input)?,
        },
        "message-gone" => Kind::MessageGone,
        "already-so" => Kind::AlreadySo,
        "refused-no" => Kind::RefusedNo,
        "refused-bad" => Kind::RefusedBad,
        "not-permanent" => Kind::NotPermanent,
        "found-so" => Kind::FoundSo,
        "source-gone" => Kind::SourceGone,
        "gone-after-loss" => Kind::GoneAfterLoss,
        _ => return Err(WordFault::Form),
    })
}

/// Adds the words of an outcome.
pub fn put_outcome(answer: &mut Answer, outcome: &Outcome) -> Result<(), WordFault> {
    match outcome {
        Outcome::Done { place: None } => answer.word("done"),
        Outcome::Done { place: Some(place) } => {
            answer.word("done")?;
            put_place(answer, place.validity, place.uid)
        }
        Outcome::Conflict(kind) => put_kind(answer, kind),
    }
}

fn put_kind(answer: &mut Answer, kind: &Kind) -> Result<(), WordFault> {
    match kind {
        Kind::MessageGone => answer.word("message-gone"),
        Kind::AlreadySo => answer.word("already-so"),
        Kind::FlagsChanged { m } => {
            answer.word("flags-changed")?;
            put_modseq(answer, *m)
        }
        Kind::RefusedNo => answer.word("refused-no"),
        Kind::RefusedBad => answer.word("refused-bad"),
        Kind::NotPermanent => answer.word("not-permanent"),
        Kind::TargetUnknown { k } => put_numbered(answer, "target-unknown", *k),
        Kind::FoundSo => answer.word("found-so"),
        Kind::StoreUnsure { m, f } => {
            answer.word("store-unsure")?;
            put_modseq(answer, *m)?;
            put_modseq(answer, *f)
        }
        Kind::SourceGone => answer.word("source-gone"),
        Kind::GoneAfterLoss => answer.word("gone-after-loss"),
        Kind::Ambiguous { u, v } => {
            answer.word("ambiguous")?;
            put_uid(answer, *u)?;
            put_uid(answer, *v)
        }
        Kind::ValidityChanged { o, n } => put_renewed(answer, "validity-changed", *o, *n),
        Kind::ResetAfterLoss { o, n } => put_renewed(answer, "reset-after-loss", *o, *n),
    }
}

// Adds a word, and the UIDVALIDITY of a mailbox before and behind it.
fn put_renewed(answer: &mut Answer, word: &str, o: Validity, n: Validity) -> Result<(), WordFault> {
    answer.word(word)?;
    put_validity(answer, o)?;
    put_validity(answer, n)
}
