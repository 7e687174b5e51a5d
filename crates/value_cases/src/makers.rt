//! Makers of a delta beside the plain function: response by response they make what it makes of the
//! whole replies. CLOSED is put into each place of either reply, too.

ghost use Rattle.std.specs.Prelude.{◌≤◌, IsTrue, length};
ghost use Rattle.imap_model.specs.Small.{AreFew, IsSmall, IsSmallCode};

use crate::compared::put_unlike;
use crate::resyncs::{Resync, put_delta_of, put_outcome};
use cases::{Answer, WordFault};
use flag_set::{FlagSet, MAX_FLAGS};
use imap_model::{Code, Ending, Last, Listen, Replies, Response};
use mail_base::List;
use mailbox_cache::Cache;
use qresync_core::{DeltaMaker, is_told_empty};
use std::alloc::Global;

/// Adds a note where the makers tell something else than the function, on these replies or with
/// CLOSED in a place of them.
pub fn put_made(resync: Resync<'_>, answer: &mut Answer) -> Result<(), WordFault> {
    put_both(resync, answer)?;
    for place in 0..=resync.selected.untagged.len() {
        let closed = with_closed(resync.alloc, resync.selected, place)?;
        let other = Resync {
            selected: &closed,
            ..resync
        };
        let told = put_both(other, answer);
        drop(closed);
        told?;
    }
    match resync.all {
        Some(all) => put_all_made(resync, all, answer),
        None => Ok(()),
    }
}

// The same with CLOSED in each place of the reply to the FETCH of all rows.
fn put_all_made(resync: Resync<'_>, all: &Replies, answer: &mut Answer) -> Result<(), WordFault> {
    for place in 0..=all.untagged.len() {
        let closed = with_closed(resync.alloc, all, place)?;
        let other = Resync {
            all: Some(&closed),
            ..resync
        };
        let told = put_both(other, answer);
        drop(closed);
        told?;
    }
    Ok(())
}

// Adds a note where the two tell something else of these replies.
fn put_both(resync: Resync<'_>, answer: &mut Answer) -> Result<(), WordFault> {
    let mut whole = Answer::new(resync.alloc);
    put_whole(resync, &mut whole)?;
    let mut made = Answer::new(resync.alloc);
    put_by_makers(resync, &mut made)?;
    put_unlike(answer, &whole, "but makers tell", &made)
}

fn put_whole(resync: Resync<'_>, answer: &mut Answer) -> Result<(), WordFault> {
    put_delta_of(resync, answer)?;
    answer.yes(is_told_empty(resync.selected))
}

fn put_by_makers(resync: Resync<'_>, answer: &mut Answer) -> Result<(), WordFault> {
    let last = Last {
        ending: resync.selected.ending,
        code: resync.selected.code.copy(resync.alloc)?,
    };
    let told = put_finished(resync, &last, answer);
    drop(last);
    told
}

fn put_finished(resync: Resync<'_>, last: &Last, answer: &mut Answer) -> Result<(), WordFault> {
    let maker = maker_of(resync.alloc, resync.selected)?;
    match every_of(resync) {
        Ok(every) => put_told_by(maker, resync.kept, last, every, answer),
        Err(fault) => {
            drop(maker);
            Err(fault)
        }
    }
}

fn put_told_by(
    maker: DeltaMaker,
    kept: Option<&Cache>,
    last: &Last,
    every: Option<DeltaMaker>,
    answer: &mut Answer,
) -> Result<(), WordFault> {
    let empty = maker.empty();
    put_outcome(answer, maker.finish(kept, last, every))?;
    answer.yes(empty)
}

// A maker that took the reply to the FETCH of all rows, if there is one.
fn every_of(resync: Resync<'_>) -> Result<Option<DeltaMaker>, WordFault> {
    match resync.all {
        Some(all) => Ok(Some(maker_of(resync.alloc, all)?)),
        None => Ok(None),
    }
}

// A maker that took a reply.
fn maker_of(alloc: Global, replies: &Replies) -> Result<DeltaMaker, WordFault> {
    let mut maker = DeltaMaker::new(alloc);
    match take_all(alloc, replies, &mut maker) {
        Ok(()) => Ok(maker),
        Err(fault) => {
            drop(maker);
            Err(fault)
        }
    }
}

fn take_all(alloc: Global, replies: &Replies, maker: &mut DeltaMaker) -> Result<(), WordFault> {
    for response in replies.untagged.as_slice() {
        take_small(response.copy(alloc)?, maker)?;
    }
    Ok(())
}

fn take_small(response: Response, maker: &mut DeltaMaker) -> Result<(), WordFault> {
    if is_small(&response) {
        maker.take(response)?;
        return Ok(());
    }
    drop(response);
    Err(WordFault::Form)
}

// Whether the response has as few flags as the reader lets through.
fn is_small(response: &Response) -> bool
    ensures { IsTrue result → IsSmall response.now }
{
    match response {
        Response::Done { code, .. } => is_small_code(code),
        Response::Untagged { code, .. } => is_small_code(code),
        Response::Preauth { code } => is_small_code(code),
        Response::Fetch(fetched) => match &fetched.flags {
            Some(flags) => are_few(flags),
            None => true,
        },
        _ => true,
    }
}

fn is_small_code(code: &Code) -> bool
    ensures { IsTrue result → IsSmallCode code.now }
{
    match code {
        Code::PermanentFlags { flags, .. } => are_few(flags),
        _ => true,
    }
}

fn are_few(flags: &FlagSet) -> bool
    ensures { IsTrue result → AreFew flags.now }
{
    flags.len() <= MAX_FLAGS
}

// The reply with CLOSED in front of the response at this place.
fn with_closed(alloc: Global, replies: &Replies, place: usize) -> Result<Replies, WordFault>
    requires { place ≤ length replies.now.untagged }
{
    let code = replies.code.copy(alloc)?;
    let mut untagged = List::new(alloc);
    match put_closed(alloc, replies.untagged.as_slice(), place, &mut untagged) {
        Ok(()) => Ok(Replies {
            untagged,
            ending: replies.ending,
            code,
        }),
        Err(fault) => {
            drop(untagged);
            drop(code);
            Err(fault)
        }
    }
}

fn put_closed(
    alloc: Global,
    lines: &[Response],
    place: usize,
    put: &mut List<Response>,
) -> Result<(), WordFault>
    requires { place ≤ length lines.now }
{
    put_lines(alloc, &lines[..place], put)?;
    put.push(Response::Untagged {
        ending: Ending::Ok,
        code: Code::Closed,
    })?;
    put_lines(alloc, &lines[place..], put)
}

fn put_lines(alloc: Global, lines: &[Response], put: &mut List<Response>) -> Result<(), WordFault> {
    for line in lines {
        put.push(line.copy(alloc)?)?;
    }
    Ok(())
}
