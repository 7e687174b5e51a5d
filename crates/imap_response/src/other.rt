//! Lines that are passed over (this client's profile of RFC 9051, section 9, response-data).

ghost use Rattle.std.specs.Prelude.{◌≡◌, ◌≤◌, length};
ghost use Rattle.imap_response.specs.Left.{left_of, behind_token};
ghost use Rattle.imap_response.specs.ReadLines.{literal_len, begins_forbidden, other_at};
ghost use Rattle.imap_response.specs.Reads.{Gives};
ghost use Rattle.imap_response.specs.WordLists.{no_header, header_start};

use crate::fault::Misfit;
use crate::rest::{Rest, at, literals_behind};
use crate::text_part::is_forbidden;
use crate::word_list::header_start;
use imap_tokens::{TokenKind, token_at};

// A line that is passed over, from its first word on: outside literals it has no CR, LF and NUL, and behind its last literal it doesn't
// end with a header.
pub(crate) fn other<'a>(rest: Rest<'a>) -> Result<(), Misfit>
    ensures { Gives (λ done. done) result (other_at (left_of rest.entry)) }
{
    let mut rest = rest;
    let mut last = rest.text;
    // Each step passes a byte at least.
    for _ in 0..rest.text.len() {
        let size = literal_len(rest);
        if size > 0 {
            rest = behind_literal(rest, size);
            last = rest.text;
            continue;
        }
        let Some((byte, more)) = rest.text.split_first() else {
            return unheaded(last);
        };
        if is_forbidden(*byte) {
            return Err(Misfit::At {
                left: rest.text.len(),
            });
        }
        rest = at(rest, more);
    }
    unheaded(last)
}

// The text doesn't end with a literal's header.
fn unheaded(text: &[u8]) -> Result<(), Misfit>
    ensures { Gives (λ done. done) result (no_header text.now (header_start 0 text.now)) }
{
    match header_start(text) {
        Some(place) => Err(Misfit::At {
            left: text.len().saturating_sub(place),
        }),
        None => Ok(()),
    }
}

// The bytes of the literal whose `{` stands in front, and 0 where there is none.
fn literal_len<'a>(rest: Rest<'a>) -> usize
    ensures value { result ≡ literal_len (left_of rest.entry) }
    ensures within { result ≤ length rest.entry.text.now }
{
    match rest.text.split_first() {
        Some((b'{', _)) => {}
        _ => return 0,
    }
    let place = rest.total.saturating_sub(rest.text.len());
    match token_at(rest.literals, place, rest.text) {
        Some((TokenKind::Literal, size)) => size,
        _ => 0,
    }
}

// What stands behind a literal of so many bytes.
fn behind_literal<'a>(rest: Rest<'a>, size: usize) -> Rest<'a>
    requires { size ≤ length rest.text.now }
    ensures { left_of result ≡ behind_token (left_of rest.entry) TokenKind.Literal size }
{
    let (_, text) = rest.text.split_at(size);
    Rest {
        total: rest.total,
        text,
        literals: literals_behind(TokenKind::Literal, rest.literals),
    }
}
