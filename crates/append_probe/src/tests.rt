//! What is asked about a lost append, and what follows from the answers.

ghost use Rattle.std.specs.Prelude.{IfSome};
ghost use Rattle.append_probe.specs.Question.{IsAppend, IsPut};

use crate::{Verdict, candidates, question, question_for, verdict_of};
use action_queue::{Action, Intent};
use flag_set::FlagSet;
use imap_model::{Code, Command, Ending, Fetched, Replies, Response};
use mail_base::{BoxName, Bytes, List, Validity, read_u32};
use mail_header::message_id;
use std::alloc::Global;
use std::test::Fail;
use uid_sets::{Uid, UidSet};

// A reply that ends well.
fn replies(untagged: List<Response>) -> Replies {
    Replies {
        untagged,
        ending: Ending::Ok,
        code: Code::None,
    }
}

fn bytes(alloc: Global, text: &str) -> Option<Bytes> {
    Some(Bytes::of(Vec::from_slice(alloc, text.as_bytes()).ok()?))
}

// Whether the command is a search from 7 for this text.
fn is_search(command: &Command, text: &str) -> bool {
    match command {
        Command::Search { from, id } => from.number() == 7 && id.as_slice() == text.as_bytes(),
        _ => false,
    }
}

fn put() -> Option<Intent>
    ensures { IfSome result IsPut }
{
    let to = BoxName::new(b"INBOX").ok()?;
    let validity = Validity::new(5)?;
    let uidnext = Uid::new(7)?;
    Some(Intent::Put {
        to,
        validity,
        uidnext,
    })
}

fn append(alloc: Global) -> Option<Action>
    ensures { IfSome result IsAppend }
{
    let to = BoxName::new(b"INBOX").ok()?;
    let id = bytes(alloc, "<a@x>")?;
    Some(Action::Append {
        to,
        flags: FlagSet::none(alloc),
        text: Bytes::new(alloc),
        id,
    })
}

fn searches_for_the_append(alloc: Global) -> Option<bool> {
    let intent = put()?;
    let action = append(alloc)?;
    let command = question(alloc, &intent, &action).ok()?;
    Some(is_search(&command, "<a@x>"))
}

#[test]
fn the_search_is_from_the_uidnext_of_the_intent(rt: HostRuntime) -> Result<(), Fail> {
    assert_eq!(rt; searches_for_the_append(rt.alloc()), Some(true));
    Ok(())
}

fn searches(alloc: Global, id: &str, text: &str) -> Option<bool> {
    let uidnext = Uid::new(7)?;
    let id = bytes(alloc, id)?;
    let command = question_for(alloc, uidnext, &id).ok()?;
    Some(is_search(&command, text))
}

// The first row of identifiers and of what is searched for that isn't so.
fn wrong_search(alloc: Global) -> Option<usize> {
    let rows = [
        ("<a@x>", "<a@x>"),
        ("<a?=b@x>", "<a?=b@x>"),
        ("<=?us-ascii?Q?a=62c?=@x>", "@x>"),
        ("<abc=?utf-8?B?YWJj?=@x>", "<abc"),
        ("<a=?u?q?b?=c>", "<a"),
        ("<=?u?q?b?==?u?q?c?=d@x>", "d@x>"),
        ("<a?=bc=?d", "<a?=bc"),
        ("<=?=>", "<"),
        ("<a=?>", "<a"),
    ];
    rows.iter()
        .position(|(id, text)| searches(alloc, id, text) != Some(true))
}

#[test]
fn an_identifier_is_searched_for_outside_of_encoded_words(rt: HostRuntime) -> Result<(), Fail> {
    assert_eq!(rt; wrong_search(rt.alloc()), None);
    Ok(())
}

// Whether these are the candidates from 7 on, where one line or another tells these sets to be found.
fn are_candidates(alloc: Global, one: &str, other: &str, wanted: &str) -> Option<bool> {
    let mut told = List::new(alloc);
    told.push(Response::Found(set(alloc, one)?)).ok()?;
    told.push(Response::Exists(9)).ok()?;
    told.push(Response::Found(set(alloc, other)?)).ok()?;
    let found = candidates(alloc, Uid::new(7)?, &replies(told)).ok()?;
    Some(found.text().ok()?.as_slice() == wanted.as_bytes())
}

fn set(alloc: Global, text: &str) -> Option<UidSet> {
    if text.is_empty() {
        return Some(UidSet::none(alloc));
    }
    UidSet::read(alloc, text.as_bytes()).ok()
}

// The first row of two sets that are told and of the candidates that isn't so.
fn wrong_candidates(alloc: Global) -> Option<usize> {
    let rows = [
        ("", "", ""),
        ("6", "", ""),
        ("7", "", "7"),
        ("5:9", "12,3", "7:9,12"),
        ("1:4294967295", "8", "7:4294967295"),
    ];
    rows.iter().position(|(one, other, wanted)| are_candidates(alloc, one, other, wanted)
        != Some(true))
}

#[test]
fn candidates_are_found_from_the_uidnext_on(rt: HostRuntime) -> Result<(), Fail> {
    assert_eq!(rt; wrong_candidates(rt.alloc()), None);
    Ok(())
}

// The field of an identifier, and the empty line behind it.
fn field(alloc: Global, id: &str) -> Option<Bytes> {
    let mut text = bytes(alloc, "Message-ID: ")?;
    text.extend(id.as_bytes()).ok()?;
    text.extend(b"\r\n\r\n").ok()?;
    Some(text)
}

// A FETCH response: a UID, a space, and an identifier, or `-` where no fields are told.
fn fetch(alloc: Global, line: &str) -> Option<Response> {
    let (uid, id) = line.split_once(' ')?;
    let mut fetched = Fetched::none();
    fetched.uid = Uid::new(read_u32(uid.as_bytes()).ok()?);
    if id != "-" {
        fetched.ids = Some(field(alloc, id)?);
    }
    Some(Response::Fetch(fetched))
}

// The UIDs that the verdict names, of three responses.
fn named(alloc: Global, of: &str, id: &str, lines: &[&str; 3]) -> Option<(u32, u32)> {
    let of = set(alloc, of)?;
    let id = message_id(alloc, field(alloc, id)?.as_slice()).ok()?;
    let mut told = List::new(alloc);
    for line in lines {
        told.push(fetch(alloc, line)?).ok()?;
    }
    Some(numbers(&verdict_of(alloc, &of, &replies(told), &id).ok()?))
}

fn numbers(verdict: &Verdict) -> (u32, u32) {
    match verdict {
        Verdict::NotThere => (0, 0),
        Verdict::There { uid } => (uid.number(), 0),
        Verdict::Several { first, second } => (first.number(), second.number()),
    }
}

// The first row of candidates, an identifier, three responses and the UIDs that the verdict names that isn't so.
fn wrong_verdict(alloc: Global) -> Option<usize> {
    let rows = [
        ("7:9", "<a@x>", ["7 <b@x>", "8 -", "9 <aa@x>"], (0, 0)),
        ("7:9", "<a@x>", ["7 <A@x>", "8 <a@X>", "9 <a@x>"], (9, 0)),
        ("7:9", "<A@x>", ["7 <A@x>", "8 <a@X>", "9 <a@x>"], (7, 0)),
        (
            "7:9",
            "<=?u?q?a?=@x>",
            ["7 <a@x>", "8 <=?u?Q?a?=@x>", "9 <=?u?q?a?=@x>"],
            (9, 0),
        ),
        // Of one UID the last fields count.
        ("7:9", "<a@x>", ["7 <a@x>", "7 <b@x>", "7 -"], (0, 0)),
        ("7:9", "<a@x>", ["7 <b@x>", "7 <a@x>", "7 -"], (7, 0)),
        // Others than the candidates.
        ("7:9", "<a@x>", ["6 <a@x>", "10 <a@x>", "8 <b@x>"], (0, 0)),
        ("", "<a@x>", ["6 <a@x>", "7 <a@x>", "8 <a@x>"], (0, 0)),
        // More than one.
        ("7:9", "<a@x>", ["9 <a@x>", "8 <b@x>", "7 <a@x>"], (7, 9)),
        ("7:9", "<a@x>", ["9 <a@x>", "8 <a@x>", "7 <a@x>"], (7, 8)),
        (
            "1:4294967295",
            "<a@x>",
            ["4294967295 <a@x>", "5 <a@x>", "6 <b@x>"],
            (5, 4_294_967_295),
        ),
    ];
    rows.iter().position(|(of, id, lines, wanted)| named(alloc, of, id, lines) != Some(*wanted))
}

#[test]
fn candidates_with_exactly_the_identifier_are_counted(rt: HostRuntime) -> Result<(), Fail> {
    assert_eq!(rt; wrong_verdict(rt.alloc()), None);
    Ok(())
}

// An identifier of this many bytes.
fn long_id(alloc: Global, size: usize) -> Option<String> {
    let mut id = String::from_str(alloc, "<").ok()?;
    for _ in 2..size {
        id.push('a').ok()?;
    }
    id.push('>').ok()?;
    Some(id)
}

// What the verdict is on three messages with identifiers of 512 bytes, 513 and 512 again, but for one.
fn named_by_long_ids(alloc: Global) -> Option<(u32, u32)> {
    let id = long_id(alloc, 512)?;
    let longer = long_id(alloc, 513)?;
    let first = format!(in alloc; "7 {longer}").ok()?;
    let second = format!(in alloc; "8 {id}").ok()?;
    named(
        alloc,
        "7:9",
        id.as_str(),
        &[first.as_str(), second.as_str(), "9 <a>"],
    )
}

#[test]
fn an_identifier_of_512_bytes_is_told_apart(rt: HostRuntime) -> Result<(), Fail> {
    assert_eq!(rt; named_by_long_ids(rt.alloc()), Some((8, 0)));
    Ok(())
}
