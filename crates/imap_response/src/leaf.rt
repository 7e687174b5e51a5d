//! Spaces, words and numbers (RFC 9051, section 9).

ghost use Rattle.std.specs.Prelude.{◌≡◌, ◌<◌, ◌^◌, ◌-◌, IfOk, IfErr, IfSome};
ghost use Rattle.imap_response.specs.Reads.{Gives, IsPlace};
ghost use Rattle.imap_response.specs.Leaf.{gap_at, blank_at, end_at, mark_at, word_at, wide_at, named_at};
ghost use Rattle.imap_response.specs.ReadNumbers.{number_of, nonzero, number_at, nonzero_at, modseq_at};
ghost use Rattle.imap_response.specs.Sets.{IsUidNumber, set_at};

use crate::fault::Misfit;
use crate::runs::{space_len, wide_len, word_len};
use mail_base::{ModSeq, Validity, read_modseq, read_u32};
use std::alloc::Global;
use uid_sets::{SetFault, Uid, UidSet};

// One or more spaces: what stands behind them.
#[tactic(auto, unfolding(crate::specs::Leaf::gap_at))]
pub(crate) fn gap(text: &[u8]) -> Result<&[u8], Misfit>
    ensures value { Gives (λ rest. rest.now) result (gap_at text.now) }
    ensures place { IfErr result IsPlace }
{
    let spaces = space_len(text);
    if spaces == 0 {
        return Err(Misfit::At { left: text.len() });
    }
    Ok(&text[spaces..])
}

// What stands behind spaces, also none.
pub(crate) fn blank(text: &[u8]) -> &[u8]
    ensures { result.now ≡ blank_at text.now }
{
    &text[space_len(text)..]
}

// Spaces, also none, and the line's end.
#[tactic(auto, unfolding(crate::specs::Leaf::end_at))]
pub(crate) fn line_end(text: &[u8]) -> Result<(), Misfit>
    ensures { Gives (λ done. done) result (end_at text.now) }
{
    let rest = blank(text);
    if rest.is_empty() {
        return Ok(());
    }
    Err(Misfit::At { left: rest.len() })
}

// This byte: what stands behind it.
#[tactic(auto, unfolding(crate::specs::Leaf::mark_at))]
pub(crate) fn mark(text: &[u8], byte: u8) -> Result<&[u8], Misfit>
    ensures value { Gives (λ rest. rest.now) result (mark_at byte text.now) }
    ensures place { IfErr result IsPlace }
{
    match text.split_first() {
        Some((first, rest)) if *first == byte => Ok(rest),
        _ => Err(Misfit::At { left: text.len() }),
    }
}

// A word of a response line, also of no bytes, and what stands behind it.
pub(crate) fn word(text: &[u8]) -> (&[u8], &[u8])
    ensures { (result.0.now, result.1.now) ≡ word_at text.now }
{
    text.split_at(word_len(text))
}

// The bytes of an atom, also none, and what stands behind them.
pub(crate) fn wide(text: &[u8]) -> (&[u8], &[u8])
    ensures { (result.0.now, result.1.now) ≡ wide_at text.now }
{
    text.split_at(wide_len(text))
}

// This name in any case: what stands behind it.
#[tactic(auto, unfolding(crate::specs::Leaf::named_at))]
pub(crate) fn named<'a>(text: &'a [u8], name: &[u8]) -> Result<&'a [u8], Misfit>
    ensures value { Gives (λ rest. rest.now) result (named_at name.now text.now) }
    ensures place { IfErr result IsPlace }
{
    let (run, rest) = wide(text);
    if run.eq_ignore_ascii_case(name) {
        return Ok(rest);
    }
    Err(Misfit::At { left: text.len() })
}

// The number of 32 bits that the text is.
pub(crate) fn number_of(text: &[u8]) -> Option<u32>
    ensures { result ≡ number_of 4294967295 text.now }
{
    match read_u32(text) {
        Ok(number) => Some(number),
        Err(_) => None,
    }
}

// A number of 32 bits.
#[tactic(auto, unfolding(crate::specs::ReadNumbers::number_at))]
pub(crate) fn number_in(text: &[u8]) -> Result<(u32, &[u8]), Misfit>
    ensures { Gives (λ read. (read.0, read.1.now)) result (number_at text.now) }
{
    let (run, rest) = wide(text);
    match number_of(run) {
        Some(number) => Ok((number, rest)),
        None => Err(Misfit::At { left: text.len() }),
    }
}

// A nonzero number of 32 bits.
#[tactic(auto, unfolding(crate::specs::ReadNumbers::nonzero_at))]
pub(crate) fn nonzero_in(text: &[u8]) -> Result<(u32, &[u8]), Misfit>
    ensures uid { IfOk result (λ read. IsUidNumber read.0) }
    ensures value { Gives (λ read. (read.0, read.1.now)) result (nonzero_at text.now) }
{
    let (run, rest) = wide(text);
    match number_of(run) {
        Some(number) if number > 0 => Ok((number, rest)),
        _ => Err(Misfit::At { left: text.len() }),
    }
}

// The UID of a number that isn't 0.
pub(crate) fn uid_of(number: u32) -> Uid
    requires { 0 < number }
    ensures { result ≡ number }
{
    match Uid::new(number) {
        Some(uid) => uid,
        None => unreachable!(),
    }
}

// The UIDVALIDITY of a number that isn't 0.
pub(crate) fn validity_of(number: u32) -> Validity
    requires { 0 < number }
    ensures { result ≡ number }
{
    match Validity::new(number) {
        Some(validity) => validity,
        None => unreachable!(),
    }
}

// The mod-sequence that the text is.
fn modseq_in_whole(text: &[u8]) -> Option<u64>
    ensures within { IfSome result (λ number. (0 < number) × (number < 2 ^ 63)) }
    ensures value { result ≡ nonzero (number_of (2 ^ 63 - 1) text.now) }
{
    match read_modseq(text) {
        Ok(modseq) => Some(modseq.number()),
        Err(_) => None,
    }
}

// A mod-sequence.
#[tactic(auto, unfolding(crate::specs::ReadNumbers::modseq_at))]
pub(crate) fn modseq_in(text: &[u8]) -> Result<(u64, &[u8]), Misfit>
    ensures within { IfOk result (λ read. (0 < read.0) × (read.0 < 2 ^ 63)) }
    ensures value { Gives (λ read. (read.0, read.1.now)) result (modseq_at text.now) }
{
    let (run, rest) = wide(text);
    match modseq_in_whole(run) {
        Some(number) => Ok((number, rest)),
        None => Err(Misfit::At { left: text.len() }),
    }
}

// The mod-sequence of a number that is one.
pub(crate) fn modseq_of(number: u64) -> ModSeq
    requires { (0 < number) × (number < 2 ^ 63) }
    ensures { result ≡ number }
{
    match ModSeq::new(number) {
        Some(modseq) => modseq,
        None => unreachable!(),
    }
}

// A set of UIDs.
#[tactic(auto, unfolding(crate::specs::Sets::set_at))]
pub(crate) fn set_in(alloc: Global, text: &[u8]) -> Result<(UidSet, &[u8]), Misfit>
    ensures { Gives (λ read. (read.0, read.1.now)) result (set_at text.now) }
{
    let (run, rest) = wide(text);
    match UidSet::read(alloc, run) {
        Ok(set) => Ok((set, rest)),
        Err(SetFault::Memory) => Err(Misfit::Memory),
        Err(
            SetFault::Empty
            | SetFault::Zero { .. }
            | SetFault::BadNumber { .. }
            | SetFault::BadByte { .. },
        ) => Err(Misfit::At { left: text.len() }),
    }
}
