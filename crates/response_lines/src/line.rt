//! The line of each response (RFC 9051, section 7).
#![tactic(auto, using(crate::proofs::TextChains::text_assoc, crate::proofs::TextChains::text_nil))]

ghost use Rattle.std.specs.Prelude.{◌≡◌, ◌≢◌, ◌<◌, ◌≤◌, ◌+◌, ◌++◌, ◌==◌, ◌-◌, ◌^◌, [], Some, IfSome, OnOk, length, codes, true, false};
ghost use Rattle.std.specs.List.{AllByRecursion, position};
ghost use Rattle.imap_model.specs.Lines.{IsSpelled};
ghost use Rattle.imap_model.specs.TagText.{IsCommandTag};
ghost use Rattle.imap_model.specs.declared.response.Response.TheVariants as responses;
ghost use Rattle.response_lines.specs.LineTexts.{◌⌢◌, line_end, line_of, capability_text, done_text, enabled_text, exists_text, fetch_text, found_text, other_text, preauth_text, untagged_text, vanished_text};
ghost use Rattle.response_lines.specs.MessageNumbers.{number_at, place_from, place_of};
ghost use Rattle.response_lines.specs.Tellable.{AreTellable, IsAtomic, IsTellable, IsTellableCode, IsTellableRow};
ghost use Rattle.response_lines.specs.ToldText.{count_other, lines_of};
ghost use Rattle.response_lines.specs.Written.{WritesLines};

use crate::codes::{put_code, put_ending};
use crate::fetch_line::put_items;
use crate::found_line::{put_extended, put_search};
use crate::texts::{put, put_number, put_set, put_tag, put_words};
use imap_model::{Code, Ending, Fetched, Message, Response};
use mail_base::{Tag, Words};
use std::alloc::{AllocError, Global};
use uid_sets::{Uid, UidSet};

/// How the server's lines are spelled.
#[derive(Drop)]
pub struct Spelling {
    /// Where the bytes of lines come from.
    pub alloc: Global,
    /// IMAP4rev2 isn't offered.
    pub older: bool,
    /// The tag of the command that is answered.
    pub tag: Tag,
}

impl Spelling {
    /// Puts the lines of these responses behind the bytes. The messages are those of the selected mailbox, in their order: a
    /// row tells the number of its message.
    pub fn put_lines(
        &self,
        messages: &[Message],
        told: &[Response],
        out: &mut Vec<u8>,
    ) -> Result<(), AllocError>
        requires { AreTellable told.now }
        ensures spelled { OnOk result (WritesLines told.now out.old.items out.new.items) }
        ensures text { OnOk result (out.new.items ≡ out.old.items ++ lines_of self.now.older self.now.tag messages.now told.now) }
    {
        let mut at = 0;
        let mut others = 0;
        for response in told {
            at = place_of(messages, at, response);
            self.put_line(number_of(at), others, response, out)?;
            others = count_other(others, response);
        }
        Ok(())
    }

    // The line of one response with its CRLF, with the number of the message that it is about, and the count of lines
    // without a meaning that came before.
    fn put_line(
        &self,
        number: u32,
        others: usize,
        response: &Response,
        out: &mut Vec<u8>,
    ) -> Result<(), AllocError>
        requires tellable { IsTellable response.now }
        requires number { 0 < number }
        ensures text { OnOk result (out.new.items ≡ out.old.items ⌢ (line_of (record { older = self.now.older; tag = self.now.tag; number = number; others = others }) response.now ⌢ line_end)) }
        ensures spelled { OnOk result (IsSpelled response.now (line_of (record { older = self.now.older; tag = self.now.tag; number = number; others = others }) response.now)) }
    {
        self.put_text(number, others, response, out)?;
        put(out, b"\r\n")
    }

    fn put_text(
        &self,
        number: u32,
        others: usize,
        response: &Response,
        out: &mut Vec<u8>,
    ) -> Result<(), AllocError>
        requires tellable { IsTellable response.now }
        requires number { 0 < number }
        ensures text { OnOk result (out.new.items ≡ out.old.items ⌢ line_of (record { older = self.now.older; tag = self.now.tag; number = number; others = others }) response.now) }
        ensures spelled { OnOk result (IsSpelled response.now (line_of (record { older = self.now.older; tag = self.now.tag; number = number; others = others }) response.now)) }
    {
        match response {
            Response::Done { tag, ending, code } => put_done(out, *tag, *ending, code),
            Response::Untagged { ending, code } => put_untagged(out, *ending, code),
            Response::Bye => put_bye(out),
            Response::Preauth { code } => put_preauth(out, code),
            Response::Go => put_go(out),
            Response::Capability(words) => put_capability(out, words),
            Response::Enabled(words) => put_enabled(out, words),
            Response::Exists(count) => put_exists(out, *count),
            Response::Fetch(fetched) => put_fetch(out, self.older, number, fetched),
            Response::Vanished { earlier, uids } => put_vanished(out, *earlier, uids),
            Response::Found(uids) => put_found(out, self.older, self.tag, uids),
            Response::Other => put_other(out, others),
        }
    }
}

fn put_done(out: &mut Vec<u8>, tag: Tag, ending: Ending, code: &Code) -> Result<(), AllocError>
    requires tag { IsCommandTag tag }
    requires code { IsTellableCode code.now }
    ensures text { OnOk result (out.new.items ≡ out.old.items ⌢ done_text tag ending code.now) }
    ensures spelled { OnOk result (IsSpelled (responses.Done tag ending code.now) (done_text tag ending code.now)) }
{
    put_tag(out, tag)?;
    put(out, b" ")?;
    put_ending(out, ending)?;
    put_code(out, ending, code, b"done")
}

fn put_untagged(out: &mut Vec<u8>, ending: Ending, code: &Code) -> Result<(), AllocError>
    requires { IsTellableCode code.now }
    ensures text { OnOk result (out.new.items ≡ out.old.items ⌢ untagged_text ending code.now) }
    ensures spelled { OnOk result (IsSpelled (responses.Untagged ending code.now) (untagged_text ending code.now)) }
{
    put(out, b"* ")?;
    put_ending(out, ending)?;
    put_code(out, ending, code, b"done")
}

fn put_preauth(out: &mut Vec<u8>, code: &Code) -> Result<(), AllocError>
    requires { IsTellableCode code.now }
    ensures text { OnOk result (out.new.items ≡ out.old.items ⌢ preauth_text code.now) }
    ensures spelled { OnOk result (IsSpelled (responses.Preauth code.now) (preauth_text code.now)) }
{
    put(out, b"* PREAUTH")?;
    put_code(out, Ending::Ok, code, b"done")
}

fn put_bye(out: &mut Vec<u8>) -> Result<(), AllocError>
    ensures text { OnOk result (out.new.items ≡ out.old.items ⌢ codes "* BYE bye") }
    ensures spelled { OnOk result (IsSpelled responses.Bye (codes "* BYE bye")) }
{
    put(out, b"* BYE bye")
}

fn put_go(out: &mut Vec<u8>) -> Result<(), AllocError>
    ensures text { OnOk result (out.new.items ≡ out.old.items ⌢ codes "+ go on") }
    ensures spelled { OnOk result (IsSpelled responses.Go (codes "+ go on")) }
{
    put(out, b"+ go on")
}

fn put_capability(out: &mut Vec<u8>, words: &Words) -> Result<(), AllocError>
    requires { (words.now ≢ []) × AllByRecursion IsAtomic words.now }
    ensures text { OnOk result (out.new.items ≡ out.old.items ⌢ capability_text words.now) }
    ensures spelled { OnOk result (IsSpelled (responses.Capability words.now) (capability_text words.now)) }
{
    put(out, b"* CAPABILITY")?;
    put_words(out, words.as_slice())
}

fn put_enabled(out: &mut Vec<u8>, words: &Words) -> Result<(), AllocError>
    requires { AllByRecursion IsAtomic words.now }
    ensures text { OnOk result (out.new.items ≡ out.old.items ⌢ enabled_text words.now) }
    ensures spelled { OnOk result (IsSpelled (responses.Enabled words.now) (enabled_text words.now)) }
{
    put(out, b"* ENABLED")?;
    put_words(out, words.as_slice())
}

fn put_exists(out: &mut Vec<u8>, count: u32) -> Result<(), AllocError>
    ensures text { OnOk result (out.new.items ≡ out.old.items ⌢ exists_text count) }
    ensures spelled { OnOk result (IsSpelled (responses.Exists count) (exists_text count)) }
{
    put(out, b"* ")?;
    put_number(out, u64::from(count))?;
    put(out, b" EXISTS")
}

fn put_fetch(
    out: &mut Vec<u8>,
    older: bool,
    number: u32,
    fetched: &Fetched,
) -> Result<(), AllocError>
    requires tellable { IsTellableRow fetched.now.uid fetched.now.flags fetched.now.modseq fetched.now.ids fetched.now.text }
    requires number { 0 < number }
    ensures text { OnOk result (out.new.items ≡ out.old.items ⌢ fetch_text older number fetched.now) }
    ensures spelled { OnOk result (IsSpelled (responses.Fetch fetched.now) (fetch_text older number fetched.now)) }
{
    put(out, b"* ")?;
    put_number(out, u64::from(number))?;
    put(out, b" FETCH (")?;
    put_items(out, older, fetched)
}

fn put_vanished(out: &mut Vec<u8>, earlier: bool, uids: &UidSet) -> Result<(), AllocError>
    requires { uids.now ≢ [] }
    ensures text { OnOk result (out.new.items ≡ out.old.items ⌢ vanished_text earlier uids.now) }
    ensures spelled { OnOk result (IsSpelled (responses.Vanished earlier uids.now) (vanished_text earlier uids.now)) }
{
    if earlier {
        put_earlier(out, uids)
    } else {
        put_gone(out, uids)
    }
}

fn put_earlier(out: &mut Vec<u8>, uids: &UidSet) -> Result<(), AllocError>
    requires { uids.now ≢ [] }
    ensures text { OnOk result (out.new.items ≡ out.old.items ⌢ vanished_text true uids.now) }
    ensures spelled { OnOk result (IsSpelled (responses.Vanished true uids.now) (vanished_text true uids.now)) }
{
    put(out, b"* VANISHED (EARLIER) ")?;
    put_set(out, uids)
}

fn put_gone(out: &mut Vec<u8>, uids: &UidSet) -> Result<(), AllocError>
    requires { uids.now ≢ [] }
    ensures text { OnOk result (out.new.items ≡ out.old.items ⌢ vanished_text false uids.now) }
    ensures spelled { OnOk result (IsSpelled (responses.Vanished false uids.now) (vanished_text false uids.now)) }
{
    put(out, b"* VANISHED ")?;
    put_set(out, uids)
}

fn put_found(out: &mut Vec<u8>, older: bool, tag: Tag, uids: &UidSet) -> Result<(), AllocError>
    ensures text { OnOk result (out.new.items ≡ out.old.items ⌢ found_text older tag uids.now) }
    ensures spelled { OnOk result (IsSpelled (responses.Found uids.now) (found_text older tag uids.now)) }
{
    if older {
        return put_search(out, tag, uids);
    }
    put_extended(out, tag, uids)
}

// The lines that a SELECT tells besides where IMAP4rev2 isn't offered, each once.
fn put_other(out: &mut Vec<u8>, before: usize) -> Result<(), AllocError>
    ensures text { OnOk result (out.new.items ≡ out.old.items ⌢ other_text before) }
    ensures spelled { OnOk result (IsSpelled responses.Other (other_text before)) }
{
    match before {
        0 => put(out, b"* 0 RECENT"),
        1 => put(
            out,
            b"* FLAGS (\\Answered \\Flagged \\Deleted \\Seen \\Draft)",
        ),
        _ => put(out, b"* XNOTE 1"),
    }
}

// How many lines without a meaning came up to this response.
fn count_other(before: usize, response: &Response) -> usize
    ensures value { before < 2 ^ 64 - 1 → result ≡ count_other before response.now }
    ensures least { before ≤ result }
    ensures one { result ≤ before + 1 }
{
    match response {
        Response::Other => before.saturating_add(1),
        _ => before,
    }
}

// The place of the message that a response tells of, looked for from a place on, which is the answer where there is none.
fn place_of(messages: &[Message], at: usize, response: &Response) -> usize
    ensures { result ≡ place_of messages.now at response.now }
{
    match response {
        Response::Fetch(fetched) => match fetched.uid {
            Some(uid) => place_from(messages, at, uid),
            None => at,
        },
        _ => at,
    }
}

fn place_from(messages: &[Message], at: usize, uid: Uid) -> usize
    ensures { result ≡ place_from messages.now at (Some uid) }
{
    let Some(rest) = messages.get(at..) else {
        return at;
    };
    match uid_place(rest, uid) {
        Some(further) => at + further,
        None => at,
    }
}

// The place of the first message with this UID.
fn uid_place(messages: &[Message], uid: Uid) -> Option<usize>
    ensures value { result ≡ position (λ message. message.uid == uid) messages.now }
    ensures within { IfSome result (λ place. place < length messages.now) }
{
    messages.iter().position(|message| message.uid == uid)
}

// The number of the message at a place, counted from 1 (RFC 9051, section 2.3.1.2), as far as 32 bits tell it.
fn number_of(at: usize) -> u32
    ensures nonzero { 0 < result }
    ensures value { result ≡ number_at at }
{
    match u32::try_from(at) {
        Ok(before) => before.saturating_add(1),
        Err(_) => u32::MAX,
    }
}
