//! Strings (RFC 9051, section 9, string, astring and nstring).

ghost use Rattle.std.specs.Prelude.{◌≡◌, ◌≤◌, length, IfOk, IfErr};
ghost use Rattle.imap_response.specs.Reads.{Gives, IsPlace};
ghost use Rattle.imap_response.specs.Left.{left_of, mark_in};
ghost use Rattle.imap_response.specs.ReadStrings.{unquoted, octets, nstring_at, astring_len, astring_at, is_id, id_field_at};

use crate::fault::Misfit;
use crate::leaf::mark;
use crate::rest::{Rest, at, next};
use crate::tag::is_astring_byte;
use crate::word_list::bytes_of;
use imap_tokens::TokenKind;
use mail_base::{Bytes, Span};
use std::alloc::{AllocError, Global};

// A string or NIL: the bytes that it stands for, and what stands behind it.
#[tactic(auto, unfolding(crate::specs::ReadStrings::nstring_at))]
pub(crate) fn nstring<'a>(alloc: Global, rest: Rest<'a>) -> Result<(Bytes, Rest<'a>), Misfit>
    ensures { Gives (λ read. (read.0, left_of read.1)) result (nstring_at (left_of rest.entry)) }
{
    let (kind, token, behind) = next(rest)?;
    match kind {
        TokenKind::Nil => Ok((Bytes::new(alloc), behind)),
        TokenKind::Quoted => Ok((unquoted(alloc, token)?, behind)),
        TokenKind::Literal => Ok((bytes_of(alloc, octets(rest.literals, token))?, behind)),
        _ => Err(Misfit::At {
            left: rest.text.len(),
        }),
    }
}

// The octets of a literal, which stand at the end of its token.
fn octets<'a>(literals: &[Span], token: &'a [u8]) -> &'a [u8]
    ensures { result.now ≡ octets literals.now token.now }
{
    match literals.first() {
        Some(span) => {
            let header = token
                .len()
                .saturating_sub(span.high.saturating_sub(span.low));
            let (_, octets) = token.split_at(header);
            octets
        }
        None => token,
    }
}

// The bytes that a quoted string stands for.
fn unquoted(alloc: Global, token: &[u8]) -> Result<Bytes, AllocError>
    ensures { IfOk result (λ bytes. bytes ≡ unquoted token.now) }
{
    let mut bytes = Vec::new(alloc);
    let mut escaped = false;
    let (_, inside) = token.split_at(token.len().min(1));
    for byte in inside {
        if escaped {
            bytes.push(*byte)?;
            escaped = false;
            continue;
        }
        if *byte == b'"' {
            return Ok(Bytes::of(bytes));
        }
        if *byte == b'\\' {
            escaped = true;
            continue;
        }
        bytes.push(*byte)?;
    }
    Ok(Bytes::of(bytes))
}

// An astring: what stands behind it.
#[tactic(auto, unfolding(crate::specs::ReadStrings::astring_at))]
pub(crate) fn astring<'a>(rest: Rest<'a>) -> Result<Rest<'a>, Misfit>
    ensures { Gives left_of result (astring_at (left_of rest.entry)) }
{
    let bare = astring_len(rest.text);
    if bare > 0 {
        let (_, behind) = rest.text.split_at(bare);
        return Ok(at(rest, behind));
    }
    let (kind, _, behind) = next(rest)?;
    match kind {
        TokenKind::Quoted | TokenKind::Literal => Ok(behind),
        _ => Err(Misfit::At {
            left: rest.text.len(),
        }),
    }
}

#[tactic(auto, using(crate::proofs::RunLemmas::run_within))]
fn astring_len(text: &[u8]) -> usize
    ensures value { result ≡ astring_len text.now }
    ensures within { result ≤ length text.now }
{
    text.iter()
        .take_while(|byte| is_astring_byte(**byte))
        .count()
}

// An astring that stands for Message-ID in any case: what stands behind it.
#[tactic(auto, unfolding(crate::specs::ReadStrings::id_field_at))]
pub(crate) fn id_field<'a>(rest: Rest<'a>) -> Result<Rest<'a>, Misfit>
    ensures value { Gives left_of result (id_field_at (left_of rest.entry)) }
    ensures place { IfErr result IsPlace }
{
    let (front, behind) = rest.text.split_at(rest.text.len().min(10));
    if front.eq_ignore_ascii_case(b"Message-ID") {
        return Ok(at(rest, behind));
    }
    let (kind, token, behind) = next(rest)?;
    if is_id(rest, kind, token) {
        return Ok(behind);
    }
    Err(Misfit::At {
        left: rest.text.len(),
    })
}

// Whether a token in front of the rest is a string that stands for Message-ID in any case.
fn is_id<'a>(rest: Rest<'a>, kind: TokenKind, token: &[u8]) -> bool
    ensures { result ≡ is_id (left_of rest.entry) kind token.now }
{
    match kind {
        TokenKind::Quoted => token.eq_ignore_ascii_case(b"\"Message-ID\""),
        TokenKind::Literal => octets(rest.literals, token).eq_ignore_ascii_case(b"Message-ID"),
        _ => false,
    }
}

// This byte: what stands behind it.
#[tactic(auto, unfolding(crate::specs::Left::mark_in))]
pub(crate) fn mark_in<'a>(rest: Rest<'a>, byte: u8) -> Result<Rest<'a>, Misfit>
    ensures value { Gives left_of result (mark_in byte (left_of rest.entry)) }
    ensures place { IfErr result IsPlace }
{
    Ok(at(rest, mark(rest.text, byte)?))
}
