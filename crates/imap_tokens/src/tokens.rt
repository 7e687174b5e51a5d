//! Reads the tokens of a line, from the left (RFC 9051, section 9).

ghost use Rattle.std.specs.Prelude.{◌≡◌, ◌<◌, ◌≤◌, ◌+◌, ◌^◌, ◌↔◌, ℕ, drop, length, IfOk, IfNone, IfSome, IsErrOf, OnErr, None};
ghost use Rattle.imap_tokens.specs.Reading.{Reading, Reads, HasNoNext};
ghost use Rattle.imap_tokens.specs.Scan.{token_of};
ghost use Rattle.imap_tokens.specs.Tokens.{token_at, IsToken, NoToken, literal_size, word_kind, is_word_byte};

use crate::word::{header_size, is_word_byte, quoted_size, space_len, word_kind, word_len};
use crate::{Token, TokenFault, TokenKind};
use mail_base::Span;
use std::marker::Model;

/// The tokens of a line that are still to be read.
#[derive(Drop)]
pub struct Tokens<'a> {
    text: &'a [u8],
    literals: &'a [Span],
    at: usize,
}

impl<'a> Model for Tokens<'a> {
    ghost use Rattle.std.specs.Prelude.{◌≤◌, length};
    ghost use Rattle.imap_tokens.specs.Reading.{Reading};

    ghost Value = { Reading };

    ghost view = { λ tokens. record { text = tokens.text.now; literals = tokens.literals.now; at = tokens.at } };

    ghost invariant = { λ tokens. tokens.at ≤ length tokens.text.now };
}

impl<'a> Tokens<'a> {
    /// The tokens of a line's text. The spans are those of its literals' octets, in their order, without the headers. It
    /// takes no memory.
    pub fn new(text: &'a [u8], literals: &'a [Span]) -> Tokens<'a>
        ensures { result ≡ record { text = text.now; literals = literals.now; at = 0 } }
    {
        Tokens {
            text,
            literals,
            at: 0,
        }
    }

    /// The next token, or `None` at the text's end. The spans of the tokens stand in order and cover the text.
    ///
    /// Refuses exactly where no token begins, and again at each further call. The whole text is read in linear time.
    pub fn next(&mut self) -> Result<Option<Token>, TokenFault>
        ensures token { IfOk result (λ found. IfSome found (λ token. Reads self.old token self.new)) }
        ensures end { IfOk result (λ found. IfNone found ((self.old.at ≡ length self.old.text) × (self.new ≡ self.old))) }
        ensures bad_byte { (at : ℕ) → IsErrOf result (TokenFault.BadByte at)
            ↔ ((at ≡ self.old.at) × (at < length self.old.text) × HasNoNext self.old) }
        ensures kept { OnErr result (self.new ≡ self.old) }
    {
        let rest = &self.text[self.at..];
        if rest.is_empty() {
            return Ok(None);
        }
        let Some((kind, size)) = token_at(self.literals, self.at, rest) else {
            return Err(TokenFault::BadByte { at: self.at });
        };
        let span = Span {
            low: self.at,
            high: self.at + size,
        };
        if kind == TokenKind::Literal {
            self.literals = &self.literals[1..];
        }
        self.at = span.high;
        Ok(Some(Token { kind, span }))
    }
}

/// The token that begins in front of `rest`, which stands at `at` in its line, and how many bytes it takes. The spans
/// are those of the octets of the literals that are still to come.
pub fn token_at(literals: &[Span], at: usize, rest: &[u8]) -> Option<(TokenKind, usize)>
    ensures value { result ≡ token_of literals.now at rest.now }
    ensures token { IfSome result (λ token. IsToken literals.now at rest.now token.0 token.1) }
    ensures none { IfNone result (NoToken literals.now at rest.now) }
    ensures within { IfSome result (λ token. (0 < token.1) × (token.1 ≤ length rest.now)) }
{
    if let Some((b'"', more)) = rest.split_first() {
        let size = quoted_size(more)?;
        return Some((TokenKind::Quoted, size));
    }
    other_token_at(literals, at, rest)
}

// The same for every token but a quoted string.
fn other_token_at(literals: &[Span], at: usize, rest: &[u8]) -> Option<(TokenKind, usize)>
    ensures value { result ≡ token_at literals.now at rest.now }
    ensures within { IfSome result (λ token. (0 < token.1) × (token.1 ≤ length rest.now)) }
{
    let (first, _) = rest.split_first()?;
    match *first {
        b' ' => Some((TokenKind::Space, space_len(rest))),
        b'(' => Some((TokenKind::LeftParen, 1)),
        b')' => Some((TokenKind::RightParen, 1)),
        b'[' => Some((TokenKind::LeftBracket, 1)),
        b']' => Some((TokenKind::RightBracket, 1)),
        b'{' => literal_size(literals, at, rest).map(|size| (TokenKind::Literal, size)),
        byte if is_word_byte(byte) => {
            let size = word_len(rest);
            Some((word_kind(&rest[..size]), size))
        }
        _ => None,
    }
}

// The bytes of the literal whose `{` stands in front of `rest`, at `at`: its octets are those of the next span.
fn literal_size(literals: &[Span], at: usize, rest: &[u8]) -> Option<usize>
    requires { 0 < length rest.now }
    ensures value { result ≡ literal_size literals.now at rest.now }
    ensures within { IfSome result (λ size. (0 < size) × (size ≤ length rest.now)) }
{
    let next = literals.first()?;
    let size = header_size(&rest[1..])?;
    if at <= next.low
        && next.low - at == size
        && next.low <= next.high
        && next.high - at <= rest.len()
    {
        Some(next.high - at)
    } else {
        None
    }
}
