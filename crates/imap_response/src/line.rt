//! The lines of a server (RFC 9051, section 9, response).

ghost use Rattle.std.specs.Prelude.{◌≡◌, ◌≤◌, ℕ, length, IfErr, IfOk, IsErrOf};
ghost use Rattle.imap_model.specs.Responses.{Spells};
ghost use Rattle.imap_model.specs.Small.{IsSmall};
ghost use Rattle.imap_model.specs.declared.limit.Limit.{Limit};
ghost use Rattle.imap_model.specs.declared.response.Response.{Response};
ghost use Rattle.imap_response.specs.Faults.{IsPlaced};
ghost use Rattle.imap_response.specs.Flags.{kept};
ghost use Rattle.imap_response.specs.Leaf.{gap_at};
ghost use Rattle.imap_response.specs.Left.{left_of};
ghost use Rattle.imap_response.specs.ReadLines.{simply, ending_of, fits_tag, tagged_at, capability_line_at, enabled_at, vanished_set_at, vanished_at, named_line_at, status_at, fetch_at, exists_at, second_word, numbered_at, untagged_at, line_at};
ghost use Rattle.imap_response.specs.Reading.{Answers, answer_to, reading, said_whole, too_large};
ghost use Rattle.imap_response.specs.Reads.{Gives};
ghost use Rattle.imap_response.specs.Tags.{tag_misfit};
ghost use Rattle.imap_response.specs.Within.{SpellsWithin};

use crate::fault::{Misfit, ResponseFault};
use crate::fetch::items;
use crate::leaf::{gap, line_end, mark, named, nonzero_in, number_in, set_in, word};
use crate::other::other;
use crate::rest::{Rest, at};
use crate::runs::is_digits;
use crate::search::{extended, found};
use crate::tag::{tag_misfit, tag_of};
use crate::text_part::text_part;
use crate::word_list::words;
use flag_set::FlagFault;
use imap_model::{Ending, Limit, Response};
use mail_base::Frame;
use std::alloc::Global;

// A response, and the first reason for which flags in it are too large.
#[derive(Drop)]
pub(crate) struct Said {
    pub(crate) response: Response,
    pub(crate) excess: Option<FlagFault>,
}

/// The response that a frame spells.
///
/// Refuses a frame that spells none, at the first token that doesn't fit, and else a flag of more than 255 bytes and a list
/// of more than 1,024 different flags, of which the first from the left is told. It takes time linear in the frame's length,
/// and recursion on nothing that a server can nest.
pub fn read(alloc: Global, frame: &Frame) -> Result<Response, ResponseFault>
    ensures small { IfOk result IsSmall }
    ensures within { IfErr result (IsPlaced (length frame.now.bytes)) }

    // What is read is spelled so.
    ensures spelled { IfOk result (Spells frame.now) }
    ensures limited { IfOk result (SpellsWithin frame.now) }

    // What is spelled so, and nothing else, is read.
    ensures alone { (response : Response) → Spells frame.now response → IfOk result (λ read. read ≡ response) }
    ensures bad_form { (at : ℕ) → IsErrOf result (ResponseFault.BadForm at) → (response : Response) → ¬ (Spells frame.now response) }
    ensures too_large { (limit : Limit) (number : ℕ) → IsErrOf result (ResponseFault.TooLarge limit number)
        → (response : Response) × Spells frame.now response }
    ensures none_within { (limit : Limit) (number : ℕ) → IsErrOf result (ResponseFault.TooLarge limit number)
        → (response : Response) → ¬ (SpellsWithin frame.now response) }

    // Which answer it is, with its place or its limit; want of memory alone may come in place of it.
    ensures exact { Answers (answer_to (length frame.now.bytes) (reading kept frame.now)) result }
{
    answered(alloc, frame)
}

// The same, as the reading on lists has it.
fn answered(alloc: Global, frame: &Frame) -> Result<Response, ResponseFault>
    ensures small { IfOk result IsSmall }
    ensures exact { Answers (answer_to (length frame.now.bytes) (reading kept frame.now)) result }
{
    let text = frame.bytes.as_slice();
    let rest = Rest {
        total: text.len(),
        text,
        literals: frame.literals.as_slice(),
    };
    match line(alloc, rest) {
        Ok(said) => said_whole(said),
        Err(Misfit::At { left }) => Err(ResponseFault::BadForm {
            at: text.len().saturating_sub(left),
        }),
        Err(Misfit::Memory) => Err(ResponseFault::Memory),
    }
}

// The response, if nothing in it is too large.
fn said_whole(said: Said) -> Result<Response, ResponseFault>
    requires { IsSmall said.response }
    ensures small { IfOk result IsSmall }
    ensures value { result ≡ said_whole said.response said.excess }
{
    match said.excess {
        None => Ok(said.response),
        Some(fault) => Err(too_large(fault)),
    }
}

fn too_large(fault: FlagFault) -> ResponseFault
    ensures { result ≡ too_large fault }
{
    match fault {
        FlagFault::TooLong { length } => ResponseFault::TooLarge {
            limit: Limit::Flag,
            number: length as u64,
        },
        FlagFault::TooMany { count } => ResponseFault::TooLarge {
            limit: Limit::Flags,
            number: count as u64,
        },
        _ => ResponseFault::Memory,
    }
}

fn plain(response: Response) -> Said
    ensures { result ≡ simply response }
{
    Said {
        response,
        excess: None,
    }
}

#[tactic(auto, unfolding(crate::specs::ReadLines::line_at))]
fn line<'a>(alloc: Global, rest: Rest<'a>) -> Result<Said, Misfit>
    ensures small { IfOk result (λ said. IsSmall said.response) }
    ensures value { Gives (λ said. said) result (line_at kept (left_of rest.entry)) }
{
    let (first, behind) = word(rest.text);
    if first == b"*".as_slice() {
        return untagged(alloc, at(rest, gap(behind)?));
    }
    if first == b"+".as_slice() {
        let coded = text_part(alloc, behind)?;
        return Ok(Said {
            response: Response::Go,
            excess: coded.excess,
        });
    }
    tagged(alloc, rest.text)
}

// A completion.
#[tactic(auto, unfolding(crate::specs::ReadLines::tagged_at))]
fn tagged(alloc: Global, text: &[u8]) -> Result<Said, Misfit>
    ensures small { IfOk result (λ said. IsSmall said.response) }
    ensures value { Gives (λ said. said) result (tagged_at kept text.now) }
{
    let (tag, behind) = word(text);
    tag_fits(text, tag)?;
    let after = gap(behind)?;
    let (name, rest) = word(after);
    let Some(ending) = ending_of(name) else {
        return Err(Misfit::At { left: after.len() });
    };
    let coded = text_part(alloc, rest)?;
    Ok(Said {
        response: Response::Done {
            tag: tag_of(tag),
            ending,
            code: coded.code,
        },
        excess: coded.excess,
    })
}

// The word in front of the text is one of a tag.
fn tag_fits(text: &[u8], tag: &[u8]) -> Result<(), Misfit>
    ensures { Gives (λ done. done) result (fits_tag text.now tag.now (tag_misfit 0 0 tag.now)) }
{
    if tag.is_empty() {
        return Err(Misfit::At { left: text.len() });
    }
    match tag_misfit(tag) {
        None => Ok(()),
        Some(place) => Err(Misfit::At {
            left: text.len().saturating_sub(place),
        }),
    }
}

fn ending_of(name: &[u8]) -> Option<Ending>
    ensures { result ≡ ending_of name.now }
{
    if name.eq_ignore_ascii_case(b"OK") {
        Some(Ending::Ok)
    } else if name.eq_ignore_ascii_case(b"NO") {
        Some(Ending::No)
    } else if name.eq_ignore_ascii_case(b"BAD") {
        Some(Ending::Bad)
    } else {
        None
    }
}

// What stands behind `*` and the spaces.
#[tactic(auto, unfolding(crate::specs::ReadLines::untagged_at))]
fn untagged<'a>(alloc: Global, rest: Rest<'a>) -> Result<Said, Misfit>
    ensures small { IfOk result (λ said. IsSmall said.response) }
    ensures value { Gives (λ said. said) result (untagged_at kept (left_of rest.entry)) }
{
    let (name, behind) = word(rest.text);
    if name.is_empty() {
        return Err(Misfit::At {
            left: rest.text.len(),
        });
    }
    if is_digits(name) {
        return numbered(alloc, rest);
    }
    match ending_of(name) {
        None => status(alloc, name, rest, behind),
        Some(ending) => {
            let coded = text_part(alloc, behind)?;
            Ok(Said {
                response: Response::Untagged {
                    ending,
                    code: coded.code,
                },
                excess: coded.excess,
            })
        }
    }
}

// BYE and PREAUTH, and what isn't a status response: its word, the line from that word on, and what stands behind it.
#[tactic(auto, unfolding(crate::specs::ReadLines::status_at))]
fn status<'a>(alloc: Global, name: &[u8], rest: Rest<'a>, behind: &'a [u8]) -> Result<Said, Misfit>
    ensures small { IfOk result (λ said. IsSmall said.response) }
    ensures value { Gives (λ said. said) result (status_at kept name.now (left_of rest.entry) behind.now) }
{
    if name.eq_ignore_ascii_case(b"BYE") {
        let coded = text_part(alloc, behind)?;
        Ok(Said {
            response: Response::Bye,
            excess: coded.excess,
        })
    } else if name.eq_ignore_ascii_case(b"PREAUTH") {
        let coded = text_part(alloc, behind)?;
        Ok(Said {
            response: Response::Preauth { code: coded.code },
            excess: coded.excess,
        })
    } else {
        Ok(plain(named_line(alloc, name, rest, behind)?))
    }
}

// An untagged line that is no status response.
#[tactic(auto, unfolding(crate::specs::ReadLines::named_line_at))]
fn named_line<'a>(
    alloc: Global,
    name: &[u8],
    rest: Rest<'a>,
    behind: &'a [u8],
) -> Result<Response, Misfit>
    ensures small { IfOk result IsSmall }
    ensures value { Gives (λ response. response) result (named_line_at name.now (left_of rest.entry) behind.now) }
{
    if name.eq_ignore_ascii_case(b"CAPABILITY") {
        capability(alloc, behind)
    } else if name.eq_ignore_ascii_case(b"ENABLED") {
        enabled(alloc, behind)
    } else if name.eq_ignore_ascii_case(b"VANISHED") {
        vanished(alloc, behind)
    } else if name.eq_ignore_ascii_case(b"SEARCH") {
        Ok(Response::Found(found(alloc, behind)?))
    } else if name.eq_ignore_ascii_case(b"ESEARCH") {
        Ok(Response::Found(extended(alloc, at(rest, behind))?))
    } else {
        other(rest)?;
        Ok(Response::Other)
    }
}

// One word or more, to the line's end.
#[tactic(auto, unfolding(crate::specs::ReadLines::capability_line_at))]
fn capability(alloc: Global, text: &[u8]) -> Result<Response, Misfit>
    ensures small { IfOk result IsSmall }
    ensures value { Gives (λ response. response) result (capability_line_at text.now) }
{
    let (list, behind) = words(alloc, text)?;
    if list.as_slice().is_empty() {
        return Err(Misfit::At { left: 0 });
    }
    line_end(behind)?;
    Ok(Response::Capability(list))
}

#[tactic(auto, unfolding(crate::specs::ReadLines::enabled_at))]
fn enabled(alloc: Global, text: &[u8]) -> Result<Response, Misfit>
    ensures small { IfOk result IsSmall }
    ensures value { Gives (λ response. response) result (enabled_at text.now) }
{
    let (list, behind) = words(alloc, text)?;
    line_end(behind)?;
    Ok(Response::Enabled(list))
}

// A line with a number in front.
#[tactic(auto, unfolding(crate::specs::ReadLines::numbered_at))]
fn numbered<'a>(alloc: Global, rest: Rest<'a>) -> Result<Said, Misfit>
    ensures small { IfOk result (λ said. IsSmall said.response) }
    ensures value { Gives (λ said. said) result (numbered_at kept (left_of rest.entry)) }
{
    let (_, behind) = word(rest.text);
    let (name, later) = second_word(behind);
    if name.eq_ignore_ascii_case(b"EXISTS") {
        exists(rest.text, later)
    } else if name.eq_ignore_ascii_case(b"FETCH") {
        nonzero_in(rest.text)?;
        fetch(alloc, at(rest, later))
    } else {
        other(rest)?;
        Ok(plain(Response::Other))
    }
}

// The word behind spaces and what stands behind it, or nothing.
fn second_word(text: &[u8]) -> (&[u8], &[u8])
    ensures { (result.0.now, result.1.now) ≡ second_word (gap_at text.now) }
{
    match gap(text) {
        Ok(after) => word(after),
        Err(_) => (&[], &[]),
    }
}

// How many messages there are, in front of the text, to the line's end.
#[tactic(auto, unfolding(crate::specs::ReadLines::exists_at))]
fn exists(text: &[u8], later: &[u8]) -> Result<Said, Misfit>
    ensures small { IfOk result (λ said. IsSmall said.response) }
    ensures value { Gives (λ said. said) result (exists_at text.now later.now) }
{
    let (count, _) = number_in(text)?;
    line_end(later)?;
    Ok(plain(Response::Exists(count)))
}

// A message's items, behind the word FETCH.
#[tactic(auto, unfolding(crate::specs::ReadLines::fetch_at))]
fn fetch<'a>(alloc: Global, rest: Rest<'a>) -> Result<Said, Misfit>
    ensures small { IfOk result (λ said. IsSmall said.response) }
    ensures value { Gives (λ said. said) result (fetch_at kept (left_of rest.entry)) }
{
    let (gathered, behind) = items(alloc, at(rest, gap(rest.text)?))?;
    line_end(behind.text)?;
    Ok(Said {
        response: Response::Fetch(gathered.fetched),
        excess: gathered.excess,
    })
}

// What stands behind the word VANISHED.
#[tactic(auto, unfolding(crate::specs::ReadLines::vanished_at))]
fn vanished(alloc: Global, text: &[u8]) -> Result<Response, Misfit>
    ensures small { IfOk result IsSmall }
    ensures value { Gives (λ response. response) result (vanished_at text.now) }
{
    let after = gap(text)?;
    match mark(after, b'(') {
        Ok(inside) => {
            let end = mark(named(inside, b"EARLIER")?, b')')?;
            vanished_set(alloc, true, gap(end)?)
        }
        Err(_) => vanished_set(alloc, false, after),
    }
}

// A set of UIDs, to the line's end.
#[tactic(auto, unfolding(crate::specs::ReadLines::vanished_set_at))]
fn vanished_set(alloc: Global, earlier: bool, text: &[u8]) -> Result<Response, Misfit>
    ensures small { IfOk result IsSmall }
    ensures value { Gives (λ response. response) result (vanished_set_at earlier text.now) }
{
    let (uids, behind) = set_in(alloc, text)?;
    line_end(behind)?;
    Ok(Response::Vanished { earlier, uids })
}
