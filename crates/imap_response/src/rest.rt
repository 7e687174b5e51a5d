//! What is left of a line, and its next token (RFC 9051, section 9).

ghost use Rattle.std.specs.Prelude.{◌≡◌, IfErr};
ghost use Rattle.imap_tokens.specs.Reading.{literals_behind};
ghost use Rattle.imap_response.specs.Reads.{Gives, IsPlace};
ghost use Rattle.imap_response.specs.Left.{left_of, at_left, next_at};

use crate::fault::Misfit;
use imap_tokens::{TokenKind, token_at};
use mail_base::Span;

// What is left of a line: the bytes, and the literals that are still to come, whose places count in the whole line.
#[derive(Clone, Copy)]
pub(crate) struct Rest<'a> {
    pub(crate) total: usize,
    pub(crate) text: &'a [u8],
    pub(crate) literals: &'a [Span],
}

// The same line with this left of it, where no literal stood between.
pub(crate) fn at<'a>(rest: Rest<'a>, text: &'a [u8]) -> Rest<'a>
    ensures { left_of result ≡ at_left (left_of rest.entry) text.now }
{
    Rest {
        total: rest.total,
        text,
        literals: rest.literals,
    }
}

// The next token, its bytes, and what stands behind it.
#[tactic(auto, unfolding(crate::specs::Left::next_at))]
pub(crate) fn next<'a>(rest: Rest<'a>) -> Result<(TokenKind, &'a [u8], Rest<'a>), Misfit>
    ensures value { Gives (λ read. (read.0, read.1.now, left_of read.2)) result (next_at (left_of rest.entry)) }
    ensures place { IfErr result IsPlace }
{
    let place = rest.total.saturating_sub(rest.text.len());
    let Some((kind, size)) = token_at(rest.literals, place, rest.text) else {
        return Err(Misfit::At {
            left: rest.text.len(),
        });
    };
    let (token, text) = rest.text.split_at(size);
    let behind = Rest {
        total: rest.total,
        text,
        literals: literals_behind(kind, rest.literals),
    };
    Ok((kind, token, behind))
}

// The literals that come behind a token.
pub(crate) fn literals_behind(kind: TokenKind, literals: &[Span]) -> &[Span]
    ensures { result.now ≡ literals_behind kind literals.now }
{
    match kind {
        TokenKind::Literal => match literals.split_first() {
            Some((_, later)) => later,
            None => literals,
        },
        _ => literals,
    }
}
