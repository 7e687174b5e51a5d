//! Calls of `qresync_core`: what the replies to a resynchronisation tell. The lines that a server
//! sent (`S: LINE`) are those of the reply to SELECT, and then those of the reply to the FETCH of
//! all rows, where there is one; each ends with its completion. `delta` tells what they change of
//! the case's cache, or of nothing, where it has none.

use crate::compared::put_compared;
use crate::lines::Sent;
use crate::makers::put_made;
use crate::plain_delta::put_plain;
use cases::{Answer, WordFault, put_delta, put_modseq, put_uid, put_validity};
use imap_model::{Item, Replies, Response};
use imap_response::read;
use mail_base::{Bytes, List};
use mailbox_cache::{Cache, Delta};
use qresync_core::{ResyncFault, codes_of, delta_of, is_told_empty};
use std::alloc::Global;

/// The lines that a server sent and that weren't looked at yet.
#[derive(Clone, Copy)]
pub struct Heard<'a> {
    pub alloc: Global,
    pub lines: &'a [Bytes],
}

/// What was kept of a mailbox, and the replies of one resynchronisation.
#[derive(Clone, Copy)]
pub struct Resync<'a> {
    pub alloc: Global,
    pub kept: Option<&'a Cache>,
    pub selected: &'a Replies,
    pub all: Option<&'a Replies>,
}

/// Answers a call of this module, or tells that it is none.
pub fn answers(
    call: &str,
    kept: Option<&Cache>,
    heard: Heard<'_>,
    answer: &mut Answer,
) -> Result<bool, WordFault> {
    let telling = match call {
        "delta" => Telling::Delta,
        "told-codes" => Telling::Codes,
        "told-empty" => Telling::Empty,
        _ => return Ok(false),
    };
    put_told(kept, heard, telling, answer)?;
    Ok(true)
}

// What is told of a reply to SELECT.
#[derive(Clone, Copy)]
enum Telling {
    // The delta, which the plain program and makers tell too.
    Delta,
    // The numbers of its codes.
    Codes,
    // Whether it tells that the mailbox is empty.
    Empty,
}

fn put_told(
    kept: Option<&Cache>,
    mut heard: Heard<'_>,
    telling: Telling,
    answer: &mut Answer,
) -> Result<(), WordFault> {
    let selected = heard.replies()?;
    let told = match telling {
        Telling::Delta => put_selected(kept, &selected, heard, answer),
        Telling::Codes => put_codes(answer, &selected),
        Telling::Empty => answer.yes(is_told_empty(&selected)),
    };
    drop(selected);
    told
}

// The delta of a reply to SELECT, and of the one behind it, if there is one.
fn put_selected(
    kept: Option<&Cache>,
    selected: &Replies,
    mut heard: Heard<'_>,
    answer: &mut Answer,
) -> Result<(), WordFault> {
    let all = heard.others()?;
    let told = put_both(heard.alloc, kept, selected, all.as_ref(), answer);
    drop(all);
    told
}

fn put_both<'a>(
    alloc: Global,
    kept: Option<&'a Cache>,
    selected: &'a Replies,
    all: Option<&'a Replies>,
    answer: &mut Answer,
) -> Result<(), WordFault> {
    let resync = Resync {
        alloc,
        kept,
        selected,
        all,
    };
    let mut came = Answer::new(alloc);
    put_delta_of(resync, &mut came)?;
    let mut plain = Answer::new(alloc);
    put_plain(resync, &mut plain)?;
    put_compared(answer, &came, "but the plain program tells", &plain)?;
    put_made(resync, answer)
}

/// Adds what the replies tell.
pub fn put_delta_of(resync: Resync<'_>, answer: &mut Answer) -> Result<(), WordFault> {
    let Resync {
        alloc,
        kept,
        selected,
        all,
    } = resync;
    put_outcome(answer, delta_of(alloc, kept, selected, all))
}

/// Adds the words of a delta, or those of the fault that there is in its place.
pub fn put_outcome(
    answer: &mut Answer,
    outcome: Result<Delta, ResyncFault>,
) -> Result<(), WordFault> {
    match outcome {
        Ok(delta) => {
            let told = put_delta(answer, &delta);
            drop(delta);
            told
        }
        Err(fault) => put_fault(answer, fault),
    }
}

fn put_codes(answer: &mut Answer, selected: &Replies) -> Result<(), WordFault> {
    match codes_of(selected) {
        Ok(codes) => {
            put_validity(answer, codes.validity)?;
            put_uid(answer, codes.uidnext)?;
            put_modseq(answer, codes.highest)
        }
        Err(fault) => put_fault(answer, ResyncFault::from(fault)),
    }
}

fn put_fault(answer: &mut Answer, fault: ResyncFault) -> Result<(), WordFault> {
    match fault {
        ResyncFault::Memory => Err(WordFault::Memory),
        ResyncFault::NoModSeq => answer.word("nomodseq"),
        ResyncFault::NotSticky => answer.word("uidnotsticky"),
        ResyncFault::NoCode { which } => put_missing(answer, which),
        ResyncFault::Validity { kept, told } => {
            answer.word("validity")?;
            put_validity(answer, kept)?;
            put_validity(answer, told)
        }
        ResyncFault::Unfit { kept, told } => {
            answer.word("unfit")?;
            put_modseq(answer, kept)?;
            put_modseq(answer, told)
        }
        ResyncFault::BareRow { index } => answer.at("bare row at", index),
    }
}

/// Adds that a code isn't told.
pub fn put_missing(answer: &mut Answer, which: Item) -> Result<(), WordFault> {
    answer.word(match which {
        Item::UidValidity => "no uidvalidity",
        Item::UidNext => "no uidnext",
        Item::HighestModSeq => "no highestmodseq",
        _ => "no other code",
    })
}

impl Heard<'_> {
    // The lines up to a completion.
    fn replies(&mut self) -> Result<Replies, WordFault> {
        let mut untagged = List::new(self.alloc);
        for _ in 0..self.lines.len() {
            match self.response()? {
                Response::Done { ending, code, .. } => {
                    return Ok(Replies {
                        untagged,
                        ending,
                        code,
                    });
                }
                response => untagged.push(response)?,
            }
        }
        Err(WordFault::Form)
    }

    // Those of a further reply, if there is one.
    fn others(&mut self) -> Result<Option<Replies>, WordFault> {
        if self.lines.is_empty() {
            return Ok(None);
        }
        Ok(Some(self.replies()?))
    }

    // The next line as a response.
    fn response(&mut self) -> Result<Response, WordFault> {
        let (line, rest) = self.lines.split_first().ok_or(WordFault::Form)?;
        self.lines = rest;
        let frame = Sent::bare(line.as_slice()).frame(self.alloc)?;
        let response = read(self.alloc, &frame);
        drop(frame);
        response.ok().ok_or(WordFault::Form)
    }
}
