//! What a search found (RFC 9051, section 9, esearch-response; RFC 3501, section 7.2.5; RFC 7162, section 3.1.5).

ghost use Rattle.std.specs.Prelude.{◌≡◌, ◌↔◌, ℕ, [], length, IfOk};
ghost use Rattle.std.specs.List.{AllByRecursion};
ghost use Rattle.uid_sets.specs.UidSet.{IsCanonical, Member};
ghost use Rattle.imap_response.specs.Left.{left_of};
ghost use Rattle.imap_response.specs.Reads.{Gives};
ghost use Rattle.imap_response.specs.ReadSearches.{begins_with, search_end_at, numbers_from, found_at, search_tag_at, correlator_at, uid_word_at, pair_at, pairs_from, extended_at};
ghost use Rattle.imap_response.specs.Sets.{IsUidNumber, IsIn, set_of_numbers};

use crate::fault::Misfit;
use crate::fetch::is_atom;
use crate::leaf::{blank, gap, line_end, mark, modseq_in, named, nonzero_in, set_in, uid_of, wide};
use crate::rest::{Rest, at};
use crate::strings::{astring, mark_in};
use crate::values::value;
use std::alloc::{AllocError, Global};
use uid_sets::UidSet;

// What stands behind the word SEARCH.
#[tactic(auto, unfolding(crate::specs::ReadSearches::found_at))]
pub(crate) fn found(alloc: Global, text: &[u8]) -> Result<UidSet, Misfit>
    ensures { Gives (λ uids. uids) result (found_at text.now) }
{
    let numbers = numbers(alloc, text)?;
    Ok(set_with(alloc, numbers)?)
}

// Numbers, spaces before each, and maybe a mod-sequence.
fn numbers(alloc: Global, text: &[u8]) -> Result<Vec<u32>, Misfit>
    ensures uids { IfOk result (λ numbers. AllByRecursion IsUidNumber numbers.items) }
    ensures value { Gives (λ numbers. numbers.items) result (numbers_from (length text.now) text.now) }
{
    let mut numbers = Vec::new(alloc);
    let mut rest = text;
    // Each number has a byte at least.
    for _ in 0..text.len() {
        if blank(rest).is_empty() {
            return Ok(numbers);
        }
        let after = gap(rest)?;
        if begins_with(b'(', after) {
            search_end(after)?;
            return Ok(numbers);
        }
        let (number, behind) = nonzero_in(after)?;
        numbers.push(number)?;
        rest = behind;
    }
    Ok(numbers)
}

// The set of these numbers, in whatever order they come.
fn set_with(alloc: Global, numbers: Vec<u32>) -> Result<UidSet, AllocError>
    requires { AllByRecursion IsUidNumber numbers.items }
    ensures { IfOk result (λ uids. uids ≡ set_of_numbers numbers.items) }
{
    let mut numbers = numbers;
    numbers.sort()?;
    added(alloc, &numbers)
}

// The set of these numbers, in constant time for each where they rise.
fn added(alloc: Global, numbers: &[u32]) -> Result<UidSet, AllocError>
    requires { AllByRecursion IsUidNumber numbers.now }
    ensures { IfOk result (λ uids. IsCanonical uids × ((uid : ℕ) → Member uids uid ↔ IsIn numbers.now uid)) }
{
    let mut set = UidSet::none(alloc);
    for number in numbers {
        set.add(uid_of(*number))?;
    }
    Ok(set)
}

// Whether the text begins with the byte.
fn begins_with(byte: u8, text: &[u8]) -> bool
    ensures { result ≡ begins_with byte text.now }
{
    match text.split_first() {
        Some((first, _)) => *first == byte,
        None => false,
    }
}

// A mod-sequence in parentheses, and the line's end.
#[tactic(auto, unfolding(crate::specs::ReadSearches::search_end_at))]
fn search_end(text: &[u8]) -> Result<(), Misfit>
    ensures { Gives (λ done. done) result (search_end_at text.now) }
{
    let behind = named(mark(text, b'(')?, b"MODSEQ")?;
    let (_, behind) = modseq_in(gap(behind)?)?;
    line_end(mark(behind, b')')?)
}

// What stands behind the word ESEARCH.
#[tactic(auto, unfolding(crate::specs::ReadSearches::extended_at))]
pub(crate) fn extended<'a>(alloc: Global, rest: Rest<'a>) -> Result<UidSet, Misfit>
    ensures { Gives (λ uids. uids) result (extended_at (left_of rest.entry)) }
{
    let rest = correlator(rest)?;
    let text = uid_word(rest.text)?;
    pairs(alloc, at(rest, text))
}

// The tag of the search, if it is told: what stands behind it.
#[tactic(auto, unfolding(crate::specs::ReadSearches::correlator_at))]
fn correlator<'a>(rest: Rest<'a>) -> Result<Rest<'a>, Misfit>
    ensures { Gives left_of result (correlator_at (left_of rest.entry)) }
{
    match gap(rest.text) {
        Ok(after) => {
            if begins_with(b'(', after) {
                search_tag(at(rest, after))
            } else {
                Ok(rest)
            }
        }
        Err(_) => Ok(rest),
    }
}

// The word TAG and an astring in parentheses.
#[tactic(auto, unfolding(crate::specs::ReadSearches::search_tag_at))]
fn search_tag<'a>(rest: Rest<'a>) -> Result<Rest<'a>, Misfit>
    ensures { Gives left_of result (search_tag_at (left_of rest.entry)) }
{
    let behind = named(mark(rest.text, b'(')?, b"TAG")?;
    let tag = astring(at(rest, gap(behind)?))?;
    mark_in(tag, b')')
}

// The word UID, if it stands there behind spaces: what stands behind it.
#[tactic(auto, unfolding(crate::specs::ReadSearches::uid_word_at))]
fn uid_word(text: &[u8]) -> Result<&[u8], Misfit>
    ensures { Gives (λ rest. rest.now) result (uid_word_at text.now) }
{
    match gap(text) {
        Ok(after) => match named(after, b"UID") {
            Ok(behind) => Ok(behind),
            Err(_) => Ok(text),
        },
        Err(_) => Ok(text),
    }
}

// Pairs of a name and a value, also none.
fn pairs<'a>(alloc: Global, rest: Rest<'a>) -> Result<UidSet, Misfit>
    ensures { Gives (λ uids. uids) result (pairs_from (length rest.entry.text.now) [] (left_of rest.entry)) }
{
    let mut set = UidSet::none(alloc);
    let mut rest = rest;
    // Each pair has a byte at least.
    for _ in 0..rest.text.len() {
        if blank(rest.text).is_empty() {
            return Ok(set);
        }
        (set, rest) = pair(alloc, set, rest)?;
    }
    Ok(set)
}

// A pair: the set that counts behind it, and what stands behind it.
#[tactic(auto, unfolding(crate::specs::ReadSearches::pair_at))]
fn pair<'a>(alloc: Global, set: UidSet, rest: Rest<'a>) -> Result<(UidSet, Rest<'a>), Misfit>
    ensures { Gives (λ read. (read.0, left_of read.1)) result (pair_at set (left_of rest.entry)) }
{
    let text = gap(rest.text)?;
    let (name, behind) = wide(text);
    if !is_atom(name) {
        return Err(Misfit::At { left: text.len() });
    }
    let after = gap(behind)?;
    if name.eq_ignore_ascii_case(b"ALL") {
        let (all, behind) = set_in(alloc, after)?;
        return Ok((all, at(rest, behind)));
    }
    let behind = value(at(rest, after))?;
    Ok((set, behind))
}
