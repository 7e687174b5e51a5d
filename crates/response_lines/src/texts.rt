//! The parts of a line: texts, numbers, words, flags and sets.
#![tactic(auto, using(crate::proofs::TextChains::text_assoc, crate::proofs::TextChains::text_nil))]

ghost use Rattle.std.specs.Prelude.{◌≡◌, ◌<◌, ◌^◌, OnOk, codes, decimal};
ghost use Rattle.flag_set.specs.FlagSet.{IsFlagSet};
ghost use Rattle.flag_set.specs.FlagText.{list_text};
ghost use Rattle.uid_sets.specs.Spelling.{set_text};
ghost use Rattle.uid_sets.specs.UidSet.{IsCanonical};
ghost use Rattle.response_lines.specs.LineTexts.{◌⌢◌, flags_with, tag_text, words_text};
ghost use Rattle.response_lines.specs.Tellable.{TagFits};

use flag_set::FlagSet;
use itoa::Buffer;
use mail_base::{Bytes, ModSeq, Tag, Validity};
use std::alloc::AllocError;
use uid_sets::{Uid, UidSet};

/// Puts a text behind the bytes.
#[tactic(auto)]
pub fn put(out: &mut Vec<u8>, text: &[u8]) -> Result<(), AllocError>
    ensures { OnOk result (out.new.items ≡ out.old.items ⌢ text.now) }
{
    out.extend_from_slice(text)
}

/// Puts a number behind the bytes, without leading zeros.
pub fn put_number(out: &mut Vec<u8>, number: u64) -> Result<(), AllocError>
    ensures { OnOk result (out.new.items ≡ out.old.items ⌢ decimal number) }
{
    let mut digits = Buffer::new();
    put(out, digits.format(number).as_bytes())
}

/// Puts a UID behind the bytes.
pub fn put_uid(out: &mut Vec<u8>, uid: Uid) -> Result<(), AllocError>
    ensures text { OnOk result (out.new.items ≡ out.old.items ⌢ decimal uid) }
    ensures nonzero { 0 < uid }
    ensures fits { uid < 2 ^ 32 }
{
    put_number(out, u64::from(uid.number()))
}

/// Puts a UIDVALIDITY behind the bytes.
pub fn put_validity(out: &mut Vec<u8>, validity: Validity) -> Result<(), AllocError>
    ensures text { OnOk result (out.new.items ≡ out.old.items ⌢ decimal validity) }
    ensures nonzero { 0 < validity }
    ensures fits { validity < 2 ^ 32 }
{
    put_number(out, u64::from(validity.number()))
}

/// Puts a mod-sequence behind the bytes.
pub fn put_modseq(out: &mut Vec<u8>, modseq: ModSeq) -> Result<(), AllocError>
    ensures text { OnOk result (out.new.items ≡ out.old.items ⌢ decimal modseq) }
    ensures nonzero { 0 < modseq }
    ensures fits { modseq < 2 ^ 63 }
{
    put_number(out, modseq.number())
}

/// Puts words behind the bytes, a space before each.
pub fn put_words(out: &mut Vec<u8>, words: &[Bytes]) -> Result<(), AllocError>
    ensures { OnOk result (out.new.items ≡ out.old.items ⌢ words_text words.now) }
{
    for word in words {
        put(out, b" ")?;
        put(out, word.as_slice())?;
    }
    Ok(())
}

/// Puts a set behind the bytes, as a sequence-set.
pub fn put_set(out: &mut Vec<u8>, uids: &UidSet) -> Result<(), AllocError>
    ensures text { OnOk result (out.new.items ≡ out.old.items ⌢ set_text uids.now) }
    ensures canonical { IsCanonical uids.now }
{
    if uids.ranges().is_empty() {
        return Ok(());
    }
    let text = uids.text()?;
    put(out, &text)
}

/// Puts flags behind the bytes, with one space between.
pub fn put_flags(out: &mut Vec<u8>, flags: &FlagSet) -> Result<(), AllocError>
    ensures text { OnOk result (out.new.items ≡ out.old.items ⌢ list_text flags.now) }
    ensures set { IsFlagSet flags.now }
{
    if flags.keys().is_empty() {
        return Ok(());
    }
    let text = flags.text()?;
    put(out, &text)
}

/// Puts flags behind the bytes, and a last one behind them.
pub fn put_flags_with(out: &mut Vec<u8>, flags: &FlagSet, last: &[u8]) -> Result<(), AllocError>
    ensures text { OnOk result (out.new.items ≡ out.old.items ⌢ flags_with flags.now last.now) }
    ensures set { IsFlagSet flags.now }
{
    if flags.keys().is_empty() {
        return put(out, last);
    }
    put_flags(out, flags)?;
    put(out, b" ")?;
    put(out, last)
}

/// Puts the text of a tag behind the bytes.
pub fn put_tag(out: &mut Vec<u8>, tag: Tag) -> Result<(), AllocError>
    ensures text { OnOk result (out.new.items ≡ out.old.items ⌢ tag_text tag) }
    ensures fits { TagFits tag }
{
    match tag {
        Tag::Play(number) => {
            put(out, b"P")?;
            put_number(out, u64::from(number))
        }
        Tag::Again { id, turn } => put_try(out, id, turn),
        Tag::Count(number) => {
            put(out, b"C")?;
            put_number(out, u64::from(number))
        }
        Tag::Strange => put(out, b"X"),
    }
}

// The tag of an action's second or third try.
fn put_try(out: &mut Vec<u8>, id: u32, turn: u8) -> Result<(), AllocError>
    ensures { OnOk result (out.new.items ≡ out.old.items ⌢ (codes "P" ⌢ decimal id ⌢ codes "R" ⌢ decimal turn)) }
{
    put(out, b"P")?;
    put_number(out, u64::from(id))?;
    put(out, b"R")?;
    put_number(out, u64::from(turn))
}
