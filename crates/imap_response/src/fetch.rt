//! The items of a FETCH response (RFC 9051, section 9, msg-att; RFC 7162, section 3.1.4.2).

ghost use Rattle.std.specs.Prelude.{◌≡◌, length, IfOk, IfErr};
ghost use Rattle.imap_model.specs.Small.{AreFewIfTold};
ghost use Rattle.imap_response.specs.Told.{IsSmallTold};
ghost use Rattle.imap_response.specs.Flags.{kept};
ghost use Rattle.imap_response.specs.Items.{is_atom, id_section_at, is_origin, origin_at, other_section_at, told_body, body_at, sectioned_at, named_item_at, item_at, nothing, with_told, items_from, items_at};
ghost use Rattle.imap_response.specs.Left.{left_of};
ghost use Rattle.imap_response.specs.Reads.{Gives, IsPlace};

use crate::fault::Misfit;
use crate::flags::flags;
use crate::leaf::{gap, mark, modseq_in, modseq_of, named, nonzero_in, uid_of, wide};
use crate::rest::{Rest, at};
use crate::runs::{digits_len, is_digits};
use crate::strings::{id_field, mark_in, nstring};
use crate::values::{section, value};
use flag_set::{FlagFault, FlagSet};
use imap_model::Fetched;
use mail_base::{Bytes, ModSeq};
use std::alloc::Global;
use uid_sets::Uid;

// What an item tells.
#[derive(Drop)]
pub(crate) enum Told {
    Uid(Uid),
    Flags(FlagSet, Option<FlagFault>),
    ModSeq(ModSeq),
    Ids(Bytes),
    Text(Bytes),
    Nothing,
}

// Which string stands behind the section of a BODY item.
#[derive(Clone, Copy)]
pub(crate) enum Body {
    // The fields that identify a message.
    Ids,
    // The whole text.
    Text,
}

// What items told, and the first reason for which flags are too large.
#[derive(Drop)]
pub(crate) struct Gathered {
    pub(crate) fetched: Fetched,
    pub(crate) excess: Option<FlagFault>,
}

// The items in parentheses, and what stands behind them.
#[tactic(auto, unfolding(crate::specs::Items::items_at))]
pub(crate) fn items<'a>(alloc: Global, rest: Rest<'a>) -> Result<(Gathered, Rest<'a>), Misfit>
    ensures small { IfOk result (λ read. AreFewIfTold read.0.fetched.flags) }
    ensures value { Gives (λ read. (read.0, left_of read.1)) result (items_at kept (left_of rest.entry)) }
{
    items_in(alloc, mark_in(rest, b'(')?)
}

// The items behind the left parenthesis.
fn items_in<'a>(alloc: Global, rest: Rest<'a>) -> Result<(Gathered, Rest<'a>), Misfit>
    ensures small { IfOk result (λ read. AreFewIfTold read.0.fetched.flags) }
    ensures value { Gives (λ read. (read.0, left_of read.1)) result (items_from kept (length rest.entry.text.now) nothing (left_of rest.entry)) }
{
    let mut rest = rest;
    let mut gathered = nothing();
    // Each item has a byte at least.
    for _ in 0..rest.text.len() {
        let (told, behind) = item(alloc, rest)?;
        gathered = with_told(gathered, told);
        match mark(behind.text, b')') {
            Ok(end) => return Ok((gathered, at(behind, end))),
            Err(_) => rest = at(behind, gap(behind.text)?),
        }
    }
    Err(Misfit::At { left: 0 })
}

// Nothing was told yet.
fn nothing() -> Gathered
    ensures { result ≡ nothing }
{
    Gathered {
        fetched: Fetched::none(),
        excess: None,
    }
}

fn with_told(gathered: Gathered, told: Told) -> Gathered
    requires so_far { AreFewIfTold gathered.fetched.flags }
    requires more { IsSmallTold told }
    ensures small { AreFewIfTold result.fetched.flags }
    ensures value { result ≡ with_told gathered told }
{
    let Gathered {
        mut fetched,
        mut excess,
    } = gathered;
    match told {
        Told::Uid(uid) => fetched.uid = Some(uid),
        Told::Flags(flags, too_large) => {
            fetched.flags = Some(flags);
            excess = excess.or(too_large);
        }
        Told::ModSeq(modseq) => fetched.modseq = Some(modseq),
        Told::Ids(ids) => fetched.ids = Some(ids),
        Told::Text(text) => fetched.text = Some(text),
        Told::Nothing => {}
    }
    Gathered { fetched, excess }
}

// An item, and what stands behind it.
#[tactic(auto, unfolding(crate::specs::Items::item_at))]
fn item<'a>(alloc: Global, rest: Rest<'a>) -> Result<(Told, Rest<'a>), Misfit>
    ensures small { IfOk result (λ read. IsSmallTold read.0) }
    ensures value { Gives (λ read. (read.0, left_of read.1)) result (item_at kept (left_of rest.entry)) }
{
    let (name, behind) = wide(rest.text);
    if !is_atom(name) {
        return Err(Misfit::At {
            left: rest.text.len(),
        });
    }
    match mark(behind, b'[') {
        Ok(inside) => sectioned(alloc, name, at(rest, inside)),
        Err(_) => named_item(alloc, name, at(rest, gap(behind)?)),
    }
}

// An item whose name has no section, behind the spaces.
#[tactic(auto, unfolding(crate::specs::Items::named_item_at))]
fn named_item<'a>(alloc: Global, name: &[u8], rest: Rest<'a>) -> Result<(Told, Rest<'a>), Misfit>
    ensures small { IfOk result (λ read. IsSmallTold read.0) }
    ensures value { Gives (λ read. (read.0, left_of read.1)) result (named_item_at kept name.now (left_of rest.entry)) }
{
    if name.eq_ignore_ascii_case(b"UID") {
        let (number, behind) = nonzero_in(rest.text)?;
        Ok((Told::Uid(uid_of(number)), at(rest, behind)))
    } else if name.eq_ignore_ascii_case(b"FLAGS") {
        let (listed, behind) = flags(alloc, rest.text)?;
        Ok((Told::Flags(listed.flags, listed.excess), at(rest, behind)))
    } else if name.eq_ignore_ascii_case(b"MODSEQ") {
        let (number, behind) = modseq_in(mark(rest.text, b'(')?)?;
        let behind = mark(behind, b')')?;
        Ok((Told::ModSeq(modseq_of(number)), at(rest, behind)))
    } else {
        Ok((Told::Nothing, value(rest)?))
    }
}

// Whether a run is an atom: neither NIL nor digits alone.
pub(crate) fn is_atom(run: &[u8]) -> bool
    ensures { result ≡ is_atom run.now }
{
    !run.is_empty() && !run.eq_ignore_ascii_case(b"NIL") && !is_digits(run)
}

// An item whose name has a section, behind the left bracket.
#[tactic(auto, unfolding(crate::specs::Items::sectioned_at))]
fn sectioned<'a>(alloc: Global, name: &[u8], rest: Rest<'a>) -> Result<(Told, Rest<'a>), Misfit>
    ensures small { IfOk result (λ read. IsSmallTold read.0) }
    ensures value { Gives (λ read. (read.0, left_of read.1)) result (sectioned_at name.now (left_of rest.entry)) }
{
    if !name.eq_ignore_ascii_case(b"BODY") {
        return other_section(rest);
    }
    if let Ok(behind) = id_section(rest) {
        return body_string(alloc, Body::Ids, behind);
    }
    match mark_in(rest, b']') {
        Ok(behind) => body_string(alloc, Body::Text, behind),
        Err(_) => other_section(rest),
    }
}

// The section of the identifiers and the right bracket: what stands behind them.
#[tactic(auto, unfolding(crate::specs::Items::id_section_at))]
fn id_section<'a>(rest: Rest<'a>) -> Result<Rest<'a>, Misfit>
    ensures value { Gives left_of result (id_section_at (left_of rest.entry)) }
    ensures place { IfErr result IsPlace }
{
    let after = gap(named(rest.text, b"HEADER.FIELDS")?)?;
    let field = id_field(at(rest, mark(after, b'(')?))?;
    let list = mark_in(field, b')')?;
    mark_in(list, b']')
}

// The string of a BODY item, behind its section. With an origin it tells nothing.
#[tactic(auto, unfolding(crate::specs::Items::body_at))]
fn body_string<'a>(alloc: Global, which: Body, rest: Rest<'a>) -> Result<(Told, Rest<'a>), Misfit>
    ensures small { IfOk result (λ read. IsSmallTold read.0) }
    ensures value { Gives (λ read. (read.0, left_of read.1)) result (body_at which (left_of rest.entry)) }
{
    let after = at(rest, gap(origin(rest.text)?)?);
    let (run, _) = wide(rest.text);
    if run.is_empty() {
        let (bytes, behind) = nstring(alloc, after)?;
        return Ok((told_body(which, bytes), behind));
    }
    Ok((Told::Nothing, value(after)?))
}

fn told_body(which: Body, bytes: Bytes) -> Told
    ensures small { IsSmallTold result }
    ensures value { result ≡ told_body which bytes }
{
    match which {
        Body::Ids => Told::Ids(bytes),
        Body::Text => Told::Text(bytes),
    }
}

// What stands behind a section that is neither that of the identifiers nor empty.
#[tactic(auto, unfolding(crate::specs::Items::other_section_at))]
fn other_section<'a>(rest: Rest<'a>) -> Result<(Told, Rest<'a>), Misfit>
    ensures small { IfOk result (λ read. IsSmallTold read.0) }
    ensures value { Gives (λ read. (read.0, left_of read.1)) result (other_section_at (left_of rest.entry)) }
{
    let behind = section(rest)?;
    let after = gap(origin(behind.text)?)?;
    Ok((Told::Nothing, value(at(behind, after))?))
}

// Where a part of a text began, or nothing: what stands behind it.
#[tactic(auto, unfolding(crate::specs::Items::origin_at))]
fn origin(text: &[u8]) -> Result<&[u8], Misfit>
    ensures { Gives (λ rest. rest.now) result (origin_at text.now) }
{
    let (run, behind) = wide(text);
    if is_origin(run) {
        return Ok(behind);
    }
    Err(Misfit::At { left: text.len() })
}

// Whether a run is `<`, digits and `>`, or has no bytes.
fn is_origin(run: &[u8]) -> bool
    ensures { result ≡ is_origin run.now }
{
    match run.split_first() {
        None => true,
        Some((first, more)) => {
            let digits = digits_len(more);
            let (_, rest) = more.split_at(digits);
            *first == b'<' && digits > 0 && rest == b">".as_slice()
        }
    }
}
