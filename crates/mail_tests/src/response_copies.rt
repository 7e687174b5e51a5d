//! Copies of responses: with memory at hand each is made, and is what it is a copy of.

use flag_set::FlagSet;
use imap_model::{Code, Ending, Fetched, Replies, Response};
use mail_base::{Bytes, List, Tag, Validity, Words};
use std::alloc::Global;
use std::test::Fail;
use uid_sets::{Uid, UidSet};

// What is copied is made in a function of its own, looked at in another, and let go of by `drop`: a
// value that is held at an assert, or at a block's end, is dear to prove.

fn fetched(alloc: Global) -> Fetched {
    Fetched {
        uid: Uid::new(42),
        flags: FlagSet::read_list(alloc, b"\\Seen Work").ok(),
        modseq: None,
        ids: Some(Bytes::new(alloc)),
        text: None,
    }
}

fn is_copy_of(copy: &Fetched, fetched: &Fetched) -> bool {
    let has_no_id = match &copy.ids {
        Some(ids) => ids.as_slice().is_empty(),
        None => false,
    };
    has_no_id && copy.uid == Uid::new(42) && copy.flags == fetched.flags && copy.modseq.is_none()
}

fn is_copied_as_fetched(fetched: &Fetched) -> bool {
    match fetched.copy() {
        Ok(copy) => {
            let is_copy = is_copy_of(&copy, fetched);
            drop(copy);
            is_copy
        }
        Err(_) => false,
    }
}

fn copies_what_was_fetched(alloc: Global) -> bool {
    let fetched = fetched(alloc);
    let is_copied = is_copied_as_fetched(&fetched);
    drop(fetched);
    is_copied
}

fn has_nothing(fetched: &Fetched) -> bool {
    fetched.uid.is_none() && fetched.ids.is_none()
}

fn begins_with_nothing() -> bool {
    let fetched = Fetched::none();
    let is_so = has_nothing(&fetched);
    drop(fetched);
    is_so
}

#[test]
fn what_was_fetched_is_copied(rt: HostRuntime) -> Result<(), Fail> {
    assert!(rt; begins_with_nothing());
    assert!(rt; copies_what_was_fetched(rt.alloc()));
    Ok(())
}

// The completion of a MOVE of message 7.
fn completion(alloc: Global) -> Option<Response> {
    let validity = Validity::new(9)?;
    let source = seven(alloc)?;
    let target = UidSet::none(alloc);
    Some(Response::Done {
        tag: Tag::Play(1),
        ending: Ending::Ok,
        code: Code::CopyUid {
            validity,
            source,
            target,
        },
    })
}

fn seven(alloc: Global) -> Option<UidSet> {
    let uid = Uid::new(7)?;
    let mut set = UidSet::none(alloc);
    set.add(uid).ok()?;
    Some(set)
}

fn is_move_of_seven(response: &Response) -> bool {
    match response {
        Response::Done { tag, ending, code } => {
            *tag == Tag::Play(1) && *ending == Ending::Ok && copies_seven(code)
        }
        _ => false,
    }
}

fn copies_seven(code: &Code) -> bool {
    match code {
        Code::CopyUid { source, target, .. } => source.only() == Uid::new(7) && target.is_empty(),
        _ => false,
    }
}

fn is_copied_as_move(alloc: Global, response: &Response) -> bool {
    match response.copy(alloc) {
        Ok(copy) => {
            let is_copy = is_move_of_seven(&copy);
            drop(copy);
            is_copy
        }
        Err(_) => false,
    }
}

fn copies_a_completion(alloc: Global) -> bool {
    match completion(alloc) {
        Some(response) => {
            let is_copied = is_copied_as_move(alloc, &response);
            drop(response);
            is_copied
        }
        None => false,
    }
}

#[test]
fn a_completion_is_copied(rt: HostRuntime) -> Result<(), Fail> {
    assert!(rt; copies_a_completion(rt.alloc()));
    Ok(())
}

fn move_alone(alloc: Global) -> Option<Words> {
    let mut words = Words::new(alloc);
    words.push(Bytes::of(b"MOVE".to_vec(alloc).ok()?)).ok()?;
    Some(words)
}

fn offers_move_alone(code: &Code) -> bool {
    match code {
        Code::Capability(words) => words.has(b"move") && !words.has(b"QRESYNC"),
        _ => false,
    }
}

fn is_copied_as_offer(alloc: Global, code: &Code) -> bool {
    match code.copy(alloc) {
        Ok(copy) => {
            let is_copy = offers_move_alone(&copy);
            drop(copy);
            is_copy
        }
        Err(_) => false,
    }
}

fn copies_capabilities(alloc: Global) -> Option<bool> {
    let code = Code::Capability(move_alone(alloc)?);
    let is_copied = is_copied_as_offer(alloc, &code);
    drop(code);
    Some(is_copied)
}

#[test]
fn capabilities_are_copied(rt: HostRuntime) -> Result<(), Fail> {
    assert_eq!(rt; copies_capabilities(rt.alloc()), Some(true));
    Ok(())
}

// A NO behind two lines.
fn replies(alloc: Global) -> Option<Replies> {
    let mut untagged = List::new(alloc);
    untagged.push(Response::Exists(2)).ok()?;
    untagged.push(Response::Bye).ok()?;
    Some(Replies {
        untagged,
        ending: Ending::No,
        code: Code::Closed,
    })
}

fn are_those(replies: &Replies) -> bool {
    replies.untagged.len() == 2
        && replies.ending == Ending::No
        && matches!(replies.code, Code::Closed)
        && matches!(
            replies.untagged.as_slice().first(),
            Some(Response::Exists(2))
        )
}

fn are_copied(alloc: Global, replies: &Replies) -> bool {
    match replies.copy(alloc) {
        Ok(copy) => {
            let is_copy = are_those(&copy);
            drop(copy);
            is_copy
        }
        Err(_) => false,
    }
}

fn copies_replies(alloc: Global) -> Option<bool> {
    let replies = replies(alloc)?;
    let is_copied = are_copied(alloc, &replies);
    drop(replies);
    Some(is_copied)
}

#[test]
fn replies_are_copied(rt: HostRuntime) -> Result<(), Fail> {
    assert_eq!(rt; copies_replies(rt.alloc()), Some(true));
    Ok(())
}
