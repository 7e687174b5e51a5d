//! Response codes (RFC 9051, section 7.1; RFC 7162, section 3; RFC 4315, section 3).
#![tactic(auto, using(crate::proofs::TextChains::text_assoc, crate::proofs::TextChains::text_nil))]

ghost use Rattle.std.specs.Prelude.{◌≡◌, ◌≢◌, [], OnOk, codes};
ghost use Rattle.std.specs.List.{AllByRecursion};
ghost use Rattle.flag_set.specs.FlagSet.{IsFlagSet};
ghost use Rattle.imap_model.specs.Responses.{ending_word};
ghost use Rattle.imap_model.specs.declared.code.Code.TheVariants as codings;
ghost use Rattle.imap_model.specs.declared.ending.Ending.TheVariants as endings;
ghost use Rattle.uid_sets.specs.Spelling.{set_text};
ghost use Rattle.uid_sets.specs.UidSet.{IsCanonical};
ghost use Rattle.response_lines.specs.Bracketed.{FitsBrackets};
ghost use Rattle.response_lines.specs.LineTexts.{◌⌢◌, code_text, inner_text, other_code, permanent_text};
ghost use Rattle.response_lines.specs.Tellable.{IsAtomic, IsTellableCode, LacksRecent};

use crate::texts::{
    put, put_flags, put_flags_with, put_modseq, put_set, put_uid, put_validity, put_words,
};
use flag_set::FlagSet;
use imap_model::{Code, Ending};
use mail_base::{ModSeq, Validity, Words};
use std::alloc::AllocError;
use uid_sets::{Uid, UidSet};

/// Puts OK, NO or BAD behind the bytes.
pub fn put_ending(out: &mut Vec<u8>, ending: Ending) -> Result<(), AllocError>
    ensures { OnOk result (out.new.items ≡ out.old.items ⌢ ending_word ending) }
{
    match ending {
        Ending::Ok => put(out, b"OK"),
        Ending::No => put(out, b"NO"),
        Ending::Bad => put(out, b"BAD"),
    }
}

/// Puts a code in its brackets behind the bytes, if there is one, and then these words.
pub fn put_code(
    out: &mut Vec<u8>,
    ending: Ending,
    code: &Code,
    last: &[u8],
) -> Result<(), AllocError>
    requires { IsTellableCode code.now }
    ensures text { OnOk result (out.new.items ≡ out.old.items ⌢ code_text ending code.now last.now) }
    ensures fits { OnOk result (FitsBrackets ending code.now) }
{
    match code {
        Code::None => {
            put(out, b" ")?;
            put(out, last)
        }
        _ => {
            put(out, b" [")?;
            put_inner(out, ending, code)?;
            put(out, b"] ")?;
            put(out, last)
        }
    }
}

// What stands between the brackets.
fn put_inner(out: &mut Vec<u8>, ending: Ending, code: &Code) -> Result<(), AllocError>
    requires { IsTellableCode code.now }
    ensures text { OnOk result (out.new.items ≡ out.old.items ⌢ inner_text ending code.now) }
    ensures fits { OnOk result (FitsBrackets ending code.now) }
{
    match code {
        Code::None => Ok(()),
        Code::Capability(words) => put_capabilities(out, words),
        Code::UidNext(uid) => put_uidnext(out, *uid),
        Code::UidValidity(validity) => put_uidvalidity(out, *validity),
        Code::PermanentFlags { flags, any } => put_permanent(out, flags, *any),
        Code::HighestModSeq(modseq) => put_highest(out, *modseq),
        Code::NoModSeq => put_no_modseq(out),
        Code::UidNotSticky => put_not_sticky(out),
        Code::AppendUid { validity, uid } => put_append_uid(out, *validity, *uid),
        Code::CopyUid {
            validity,
            source,
            target,
        } => put_copy_uid(out, *validity, source, target),
        Code::Modified(uids) => put_modified(out, uids),
        Code::Closed => put_closed(out),
        Code::Other => put_other_code(out, ending),
    }
}

fn put_uidnext(out: &mut Vec<u8>, uid: Uid) -> Result<(), AllocError>
    ensures text { OnOk result (out.new.items ≡ out.old.items ⌢ inner_text endings.Ok (codings.UidNext uid)) }
    ensures fits { OnOk result (FitsBrackets endings.Ok (codings.UidNext uid)) }
{
    put(out, b"UIDNEXT ")?;
    put_uid(out, uid)
}

fn put_uidvalidity(out: &mut Vec<u8>, validity: Validity) -> Result<(), AllocError>
    ensures text { OnOk result (out.new.items ≡ out.old.items ⌢ inner_text endings.Ok (codings.UidValidity validity)) }
    ensures fits { OnOk result (FitsBrackets endings.Ok (codings.UidValidity validity)) }
{
    put(out, b"UIDVALIDITY ")?;
    put_validity(out, validity)
}

fn put_highest(out: &mut Vec<u8>, modseq: ModSeq) -> Result<(), AllocError>
    ensures text { OnOk result (out.new.items ≡ out.old.items ⌢ inner_text endings.Ok (codings.HighestModSeq modseq)) }
    ensures fits { OnOk result (FitsBrackets endings.Ok (codings.HighestModSeq modseq)) }
{
    put(out, b"HIGHESTMODSEQ ")?;
    put_modseq(out, modseq)
}

fn put_permanent(out: &mut Vec<u8>, flags: &FlagSet, any: bool) -> Result<(), AllocError>
    requires { LacksRecent flags.now }
    ensures text { OnOk result (out.new.items ≡ out.old.items ⌢ inner_text endings.Ok (codings.PermanentFlags flags.now any)) }
    ensures fits { OnOk result (FitsBrackets endings.Ok (codings.PermanentFlags flags.now any)) }
{
    put(out, b"PERMANENTFLAGS (")?;
    put_all_flags(out, flags, any)?;
    put(out, b")")
}

// The flags, and `\*` behind them where new keywords can be made.
fn put_all_flags(out: &mut Vec<u8>, flags: &FlagSet, any: bool) -> Result<(), AllocError>
    ensures text { OnOk result (out.new.items ≡ out.old.items ⌢ permanent_text flags.now any) }
    ensures set { IsFlagSet flags.now }
{
    if any {
        return put_flags_with(out, flags, b"\\*");
    }
    put_flags(out, flags)
}

fn put_append_uid(out: &mut Vec<u8>, validity: Validity, uid: Uid) -> Result<(), AllocError>
    ensures text { OnOk result (out.new.items ≡ out.old.items ⌢ inner_text endings.Ok (codings.AppendUid validity uid)) }
    ensures fits { OnOk result (FitsBrackets endings.Ok (codings.AppendUid validity uid)) }
{
    put(out, b"APPENDUID ")?;
    put_validity(out, validity)?;
    put(out, b" ")?;
    put_uid(out, uid)
}

fn put_copy_uid(
    out: &mut Vec<u8>,
    validity: Validity,
    source: &UidSet,
    target: &UidSet,
) -> Result<(), AllocError>
    requires some { (source.now ≢ []) × (target.now ≢ []) }
    ensures text { OnOk result (out.new.items ≡ out.old.items ⌢ inner_text endings.Ok (codings.CopyUid validity source.now target.now)) }
    ensures fits { OnOk result (FitsBrackets endings.Ok (codings.CopyUid validity source.now target.now)) }
{
    put(out, b"COPYUID ")?;
    put_validity(out, validity)?;
    put(out, b" ")?;
    put_sets(out, source, target)
}

// Two sets, with a space between.
fn put_sets(out: &mut Vec<u8>, source: &UidSet, target: &UidSet) -> Result<(), AllocError>
    ensures text { OnOk result (out.new.items ≡ out.old.items ⌢ (set_text source.now ⌢ codes " " ⌢ set_text target.now)) }
    ensures canonical { OnOk result (IsCanonical source.now × IsCanonical target.now) }
{
    put_set(out, source)?;
    put(out, b" ")?;
    put_set(out, target)
}

fn put_modified(out: &mut Vec<u8>, uids: &UidSet) -> Result<(), AllocError>
    requires { uids.now ≢ [] }
    ensures text { OnOk result (out.new.items ≡ out.old.items ⌢ inner_text endings.Ok (codings.Modified uids.now)) }
    ensures fits { OnOk result (FitsBrackets endings.Ok (codings.Modified uids.now)) }
{
    put(out, b"MODIFIED ")?;
    put_set(out, uids)
}

fn put_capabilities(out: &mut Vec<u8>, words: &Words) -> Result<(), AllocError>
    requires { (words.now ≢ []) × AllByRecursion IsAtomic words.now }
    ensures text { OnOk result (out.new.items ≡ out.old.items ⌢ inner_text endings.Ok (codings.Capability words.now)) }
    ensures fits { OnOk result (FitsBrackets endings.Ok (codings.Capability words.now)) }
{
    put(out, b"CAPABILITY")?;
    put_words(out, words.as_slice())
}

fn put_no_modseq(out: &mut Vec<u8>) -> Result<(), AllocError>
    ensures text { OnOk result (out.new.items ≡ out.old.items ⌢ inner_text endings.Ok codings.NoModSeq) }
    ensures fits { OnOk result (FitsBrackets endings.Ok codings.NoModSeq) }
{
    put(out, b"NOMODSEQ")
}

fn put_not_sticky(out: &mut Vec<u8>) -> Result<(), AllocError>
    ensures text { OnOk result (out.new.items ≡ out.old.items ⌢ inner_text endings.Ok codings.UidNotSticky) }
    ensures fits { OnOk result (FitsBrackets endings.Ok codings.UidNotSticky) }
{
    put(out, b"UIDNOTSTICKY")
}

fn put_closed(out: &mut Vec<u8>) -> Result<(), AllocError>
    ensures text { OnOk result (out.new.items ≡ out.old.items ⌢ inner_text endings.Ok codings.Closed) }
    ensures fits { OnOk result (FitsBrackets endings.Ok codings.Closed) }
{
    put(out, b"CLOSED")
}

// A code that has no meaning to this client.
fn put_other_code(out: &mut Vec<u8>, ending: Ending) -> Result<(), AllocError>
    ensures text { OnOk result (out.new.items ≡ out.old.items ⌢ other_code ending) }
    ensures fits { OnOk result (FitsBrackets ending codings.Other) }
{
    match ending {
        Ending::Ok => put(out, b"READ-WRITE"),
        Ending::No => put(out, b"TRYCREATE"),
        Ending::Bad => put(out, b"CLIENTBUG"),
    }
}
