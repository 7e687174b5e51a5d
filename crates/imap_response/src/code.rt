//! Response codes (RFC 9051, section 7.1; RFC 4315, section 3; RFC 7162, section 3).

ghost use Rattle.std.specs.Prelude.{IfOk};
ghost use Rattle.imap_model.specs.Small.{IsSmallCode};
ghost use Rattle.imap_response.specs.ReadCodes.{closed_at, bare_at, capability_at, uid_next_at, uid_validity_at, highest_modseq_at, append_uid_at, copy_uid_at, modified_at, plain_code_at, permanent_flags_at, code_at};
ghost use Rattle.imap_response.specs.Flags.{kept};
ghost use Rattle.imap_response.specs.Reads.{Gives};

use crate::fault::Misfit;
use crate::flags::permanent;
use crate::leaf::{gap, modseq_in, modseq_of, nonzero_in, set_in, uid_of, validity_of, wide};
use crate::text_part::Coded;
use crate::word_list::words;
use imap_model::Code;
use std::alloc::Global;

// The code that the text between the brackets is.
#[tactic(auto, unfolding(crate::specs::ReadCodes::code_at))]
pub(crate) fn code_of(alloc: Global, text: &[u8]) -> Result<Coded, Misfit>
    ensures small { IfOk result (λ coded. IsSmallCode coded.code) }
    ensures value { Gives (λ code. code) result (code_at kept text.now) }
{
    let (name, rest) = wide(text);
    if name.eq_ignore_ascii_case(b"PERMANENTFLAGS") {
        return permanent_flags(alloc, rest);
    }
    Ok(Coded {
        code: plain_code(alloc, name, rest)?,
        excess: None,
    })
}

// Every code but PERMANENTFLAGS.
#[tactic(auto, unfolding(crate::specs::ReadCodes::plain_code_at))]
fn plain_code(alloc: Global, name: &[u8], rest: &[u8]) -> Result<Code, Misfit>
    ensures small { IfOk result IsSmallCode }
    ensures value { Gives (λ code. code) result (plain_code_at name.now rest.now) }
{
    if name.eq_ignore_ascii_case(b"CAPABILITY") {
        capability(alloc, rest)
    } else if name.eq_ignore_ascii_case(b"UIDNEXT") {
        uid_next(rest)
    } else if name.eq_ignore_ascii_case(b"UIDVALIDITY") {
        uid_validity(rest)
    } else if name.eq_ignore_ascii_case(b"HIGHESTMODSEQ") {
        highest_modseq(rest)
    } else if name.eq_ignore_ascii_case(b"NOMODSEQ") {
        bare(rest, Code::NoModSeq)
    } else if name.eq_ignore_ascii_case(b"UIDNOTSTICKY") {
        bare(rest, Code::UidNotSticky)
    } else if name.eq_ignore_ascii_case(b"CLOSED") {
        bare(rest, Code::Closed)
    } else if name.eq_ignore_ascii_case(b"APPENDUID") {
        append_uid(rest)
    } else if name.eq_ignore_ascii_case(b"COPYUID") {
        copy_uid(alloc, rest)
    } else if name.eq_ignore_ascii_case(b"MODIFIED") {
        modified(alloc, rest)
    } else {
        Ok(Code::Other)
    }
}

// The code ends here.
#[tactic(auto, unfolding(crate::specs::ReadCodes::closed_at))]
fn closed(text: &[u8]) -> Result<(), Misfit>
    ensures { Gives (λ done. done) result (closed_at text.now) }
{
    if text.is_empty() {
        return Ok(());
    }
    Err(Misfit::At { left: text.len() })
}

#[tactic(auto, unfolding(crate::specs::ReadCodes::bare_at))]
fn bare(text: &[u8], code: Code) -> Result<Code, Misfit>
    requires { IsSmallCode code }
    ensures small { IfOk result IsSmallCode }
    ensures value { Gives (λ code. code) result (bare_at code text.now) }
{
    closed(text)?;
    Ok(code)
}

#[tactic(auto, unfolding(crate::specs::ReadCodes::capability_at))]
fn capability(alloc: Global, text: &[u8]) -> Result<Code, Misfit>
    ensures small { IfOk result IsSmallCode }
    ensures value { Gives (λ code. code) result (capability_at text.now) }
{
    let (list, rest) = words(alloc, text)?;
    if list.as_slice().is_empty() {
        return Err(Misfit::At { left: rest.len() });
    }
    closed(rest)?;
    Ok(Code::Capability(list))
}

#[tactic(auto, unfolding(crate::specs::ReadCodes::uid_next_at))]
fn uid_next(text: &[u8]) -> Result<Code, Misfit>
    ensures small { IfOk result IsSmallCode }
    ensures value { Gives (λ code. code) result (uid_next_at text.now) }
{
    let (number, rest) = nonzero_in(gap(text)?)?;
    closed(rest)?;
    Ok(Code::UidNext(uid_of(number)))
}

#[tactic(auto, unfolding(crate::specs::ReadCodes::uid_validity_at))]
fn uid_validity(text: &[u8]) -> Result<Code, Misfit>
    ensures small { IfOk result IsSmallCode }
    ensures value { Gives (λ code. code) result (uid_validity_at text.now) }
{
    let (number, rest) = nonzero_in(gap(text)?)?;
    closed(rest)?;
    Ok(Code::UidValidity(validity_of(number)))
}

#[tactic(auto, unfolding(crate::specs::ReadCodes::permanent_flags_at))]
fn permanent_flags(alloc: Global, text: &[u8]) -> Result<Coded, Misfit>
    ensures small { IfOk result (λ coded. IsSmallCode coded.code) }
    ensures value { Gives (λ code. code) result (permanent_flags_at kept text.now) }
{
    let (listed, rest) = permanent(alloc, gap(text)?)?;
    closed(rest)?;
    Ok(Coded {
        code: Code::PermanentFlags {
            flags: listed.flags,
            any: listed.any,
        },
        excess: listed.excess,
    })
}

#[tactic(auto, unfolding(crate::specs::ReadCodes::highest_modseq_at))]
fn highest_modseq(text: &[u8]) -> Result<Code, Misfit>
    ensures small { IfOk result IsSmallCode }
    ensures value { Gives (λ code. code) result (highest_modseq_at text.now) }
{
    let (number, rest) = modseq_in(gap(text)?)?;
    closed(rest)?;
    Ok(Code::HighestModSeq(modseq_of(number)))
}

#[tactic(auto, unfolding(crate::specs::ReadCodes::append_uid_at))]
fn append_uid(text: &[u8]) -> Result<Code, Misfit>
    ensures small { IfOk result IsSmallCode }
    ensures value { Gives (λ code. code) result (append_uid_at text.now) }
{
    let (validity, rest) = nonzero_in(gap(text)?)?;
    let (uid, rest) = nonzero_in(gap(rest)?)?;
    closed(rest)?;
    Ok(Code::AppendUid {
        validity: validity_of(validity),
        uid: uid_of(uid),
    })
}

#[tactic(auto, unfolding(crate::specs::ReadCodes::copy_uid_at))]
fn copy_uid(alloc: Global, text: &[u8]) -> Result<Code, Misfit>
    ensures small { IfOk result IsSmallCode }
    ensures value { Gives (λ code. code) result (copy_uid_at text.now) }
{
    let (validity, rest) = nonzero_in(gap(text)?)?;
    let (source, rest) = set_in(alloc, gap(rest)?)?;
    let (target, rest) = set_in(alloc, gap(rest)?)?;
    closed(rest)?;
    Ok(Code::CopyUid {
        validity: validity_of(validity),
        source,
        target,
    })
}

#[tactic(auto, unfolding(crate::specs::ReadCodes::modified_at))]
fn modified(alloc: Global, text: &[u8]) -> Result<Code, Misfit>
    ensures small { IfOk result IsSmallCode }
    ensures value { Gives (λ code. code) result (modified_at text.now) }
{
    let (uids, rest) = set_in(alloc, gap(text)?)?;
    closed(rest)?;
    Ok(Code::Modified(uids))
}
