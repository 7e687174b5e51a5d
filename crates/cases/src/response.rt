//! Responses as words: `fetch uid 42 modseq 715 flags \seen`, and so on. What ends in flags has
//! them last.

use crate::answer::Answer;
use crate::fault::WordFault;
use crate::values::{
    put_flags, put_modseq, put_place, put_set, put_tag, put_uid, put_validity, put_words,
};
use imap_model::{Code, Ending, Fetched, Response};
use mail_base::Bytes;

/// The word of a response's kind.
pub fn kind_of(response: &Response) -> &'static str {
    match response {
        Response::Done { .. } => "done",
        Response::Untagged { .. } => "untagged",
        Response::Bye => "bye",
        Response::Preauth { .. } => "preauth",
        Response::Go => "go",
        Response::Capability(_) => "capability",
        Response::Enabled(_) => "enabled",
        Response::Exists(_) => "exists",
        Response::Fetch(_) => "fetch",
        Response::Vanished { .. } => "vanished",
        Response::Found(_) => "found",
        Response::Other => "other",
    }
}

/// Adds a response.
pub fn put_response(answer: &mut Answer, response: &Response) -> Result<(), WordFault> {
    answer.word(kind_of(response))?;
    match response {
        Response::Done { tag, ending, code } => {
            put_tag(answer, *tag)?;
            put_ending(answer, *ending, code)
        }
        Response::Untagged { ending, code } => put_ending(answer, *ending, code),
        Response::Preauth { code } => put_code(answer, code),
        Response::Capability(words) | Response::Enabled(words) => put_words(answer, words),
        Response::Exists(count) => answer.number(u64::from(*count)),
        Response::Fetch(fetched) => put_fetched(answer, fetched),
        Response::Vanished { earlier, uids } => {
            answer.word(if *earlier { "earlier" } else { "just" })?;
            put_set(answer, uids)
        }
        Response::Found(uids) => put_set(answer, uids),
        Response::Bye | Response::Go | Response::Other => Ok(()),
    }
}

fn put_ending(answer: &mut Answer, ending: Ending, code: &Code) -> Result<(), WordFault> {
    answer.word(word_of_ending(ending))?;
    put_code(answer, code)
}

/// The word of an ending.
pub fn word_of_ending(ending: Ending) -> &'static str {
    match ending {
        Ending::Ok => "ok",
        Ending::No => "no",
        Ending::Bad => "bad",
    }
}

fn put_fetched(answer: &mut Answer, fetched: &Fetched) -> Result<(), WordFault> {
    if let Some(uid) = fetched.uid {
        answer.word("uid")?;
        put_uid(answer, uid)?;
    }
    if let Some(modseq) = fetched.modseq {
        answer.word("modseq")?;
        put_modseq(answer, modseq)?;
    }
    put_held(answer, "ids", &fetched.ids)?;
    put_held(answer, "text", &fetched.text)?;
    if let Some(flags) = &fetched.flags {
        answer.word("flags")?;
        put_flags(answer, flags)?;
    }
    Ok(())
}

// Adds a word and the text behind it, where there is one.
fn put_held(answer: &mut Answer, word: &str, text: &Option<Bytes>) -> Result<(), WordFault> {
    match text {
        Some(text) => {
            answer.word(word)?;
            answer.text(text.as_slice())
        }
        None => Ok(()),
    }
}

/// Adds a response code, where there is one.
pub fn put_code(answer: &mut Answer, code: &Code) -> Result<(), WordFault> {
    let Some(word) = word_of_code(code) else {
        return Ok(());
    };
    answer.word(word)?;
    match code {
        Code::None | Code::NoModSeq | Code::UidNotSticky | Code::Closed | Code::Other => Ok(()),
        Code::Capability(words) => put_words(answer, words),
        Code::PermanentFlags { flags, any } => {
            answer.word(if *any { "any" } else { "only" })?;
            put_flags(answer, flags)
        }
        Code::Modified(uids) => put_set(answer, uids),
        Code::UidNext(uid) => put_uid(answer, *uid),
        Code::UidValidity(validity) => put_validity(answer, *validity),
        Code::HighestModSeq(modseq) => put_modseq(answer, *modseq),
        Code::AppendUid { validity, uid } => put_place(answer, *validity, *uid),
        Code::CopyUid {
            validity,
            source,
            target,
        } => {
            put_validity(answer, *validity)?;
            put_set(answer, source)?;
            put_set(answer, target)
        }
    }
}

fn word_of_code(code: &Code) -> Option<&'static str> {
    match code {
        Code::None => None,
        Code::NoModSeq => Some("nomodseq"),
        Code::UidNotSticky => Some("uidnotsticky"),
        Code::Closed => Some("closed"),
        Code::Other => Some("other"),
        Code::Capability(_) => Some("capability"),
        Code::PermanentFlags { .. } => Some("permanentflags"),
        Code::Modified(_) => Some("modified"),
        Code::UidNext(_) => Some("uidnext"),
        Code::UidValidity(_) => Some("uidvalidity"),
        Code::HighestModSeq(_) => Some("highestmodseq"),
        Code::AppendUid { .. } => Some("appenduid"),
        Code::CopyUid { .. } => Some("copyuid"),
    }
}
