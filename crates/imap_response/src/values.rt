//! The values that are passed over (RFC 9051, section 9: the values of msg-att-static and of esearch-response).

ghost use Rattle.std.specs.Prelude.{◌≡◌, ◌<◌, ◌+◌, ◌^◌};
ghost use Rattle.imap_response.specs.Reads.{Gives};
ghost use Rattle.imap_response.specs.Left.{left_of};
ghost use Rattle.imap_response.specs.ReadValues.{closes, is_bracket, deeper_by, list_at, value_at, section_at};

use crate::fault::Misfit;
use crate::rest::{Rest, next};
use imap_tokens::TokenKind;

// A value: what stands behind it.
#[tactic(auto, unfolding(crate::specs::ReadValues::value_at))]
pub(crate) fn value<'a>(rest: Rest<'a>) -> Result<Rest<'a>, Misfit>
    ensures { Gives left_of result (value_at (left_of rest.entry)) }
{
    let (kind, _, behind) = next(rest)?;
    match kind {
        TokenKind::Atom
        | TokenKind::Number
        | TokenKind::Nil
        | TokenKind::Quoted
        | TokenKind::Literal => Ok(behind),
        TokenKind::LeftParen => list(behind),
        _ => Err(Misfit::At {
            left: rest.text.len(),
        }),
    }
}

// The rest of a list of whose parentheses one is open: what stands behind it.
fn list<'a>(rest: Rest<'a>) -> Result<Rest<'a>, Misfit>
    ensures { Gives left_of result (list_at (left_of rest.entry)) }
{
    let mut rest = rest;
    let mut deeper: usize = 0;
    // Each token has a byte at least.
    for _ in 0..rest.text.len() {
        let (kind, _, behind) = next(rest)?;
        rest = behind;
        if closes(kind, deeper) {
            return Ok(rest);
        }
        deeper = deeper_by(kind, deeper);
    }
    Err(Misfit::At { left: 0 })
}

// Whether the token closes a list in which so many further lists are open.
fn closes(kind: TokenKind, deeper: usize) -> bool
    ensures { result ≡ closes kind deeper }
{
    kind == TokenKind::RightParen && deeper == 0
}

// How many lists are open behind a token.
fn deeper_by(kind: TokenKind, deeper: usize) -> usize
    requires { deeper + 1 < 2 ^ 64 }
    ensures { result ≡ deeper_by kind deeper }
{
    match kind {
        TokenKind::LeftParen => deeper + 1,
        TokenKind::RightParen => deeper.saturating_sub(1),
        _ => deeper,
    }
}

// What stands between brackets, the left one read already: what stands behind the first right one.
pub(crate) fn section<'a>(rest: Rest<'a>) -> Result<Rest<'a>, Misfit>
    ensures { Gives left_of result (section_at (left_of rest.entry)) }
{
    let mut rest = rest;
    for _ in 0..rest.text.len() {
        let (kind, _, behind) = next(rest)?;
        rest = behind;
        if is_bracket(kind) {
            return Ok(rest);
        }
    }
    Err(Misfit::At { left: 0 })
}

fn is_bracket(kind: TokenKind) -> bool
    ensures { result ≡ is_bracket kind }
{
    matches!(kind, TokenKind::RightBracket)
}
