//! Calls of `imap_tokens`: the tokens of a line.

use crate::numbers::spans;
use cases::{Answer, Input, WordFault};
use imap_tokens::{Token, TokenFault, TokenKind, Tokens};
use mail_base::Span;

/// Each token of a text with its place, and how the text ends, which each further call tells again.
pub fn put_tokens(input: &mut Input, answer: &mut Answer) -> Result<(), WordFault> {
    let text = input.text()?;
    put_all(text, spans(input)?.as_slice(), answer)
}

fn put_all(text: &[u8], literals: &[Span], answer: &mut Answer) -> Result<(), WordFault> {
    let mut tokens = Tokens::new(text, literals);
    let mut last = Ok(None);
    for _ in 0..=text.len() {
        last = tokens.next();
        match last {
            Ok(Some(token)) => put_token(answer, token)?,
            Ok(None) | Err(_) => break,
        }
    }
    put_end(answer, last)?;
    if tokens.next() != last {
        return answer.word("and then another");
    }
    Ok(())
}

fn put_end(answer: &mut Answer, last: Result<Option<Token>, TokenFault>) -> Result<(), WordFault> {
    match last {
        Ok(None) => answer.word("end"),
        Ok(Some(_)) => answer.word("and more"),
        Err(TokenFault::BadByte { at }) => answer.at("bad byte at", at),
    }
}

fn put_token(answer: &mut Answer, token: Token) -> Result<(), WordFault> {
    answer.word(name_of(token.kind))?;
    answer.range(token.span.low as u64, token.span.high as u64)
}

fn name_of(kind: TokenKind) -> &'static str {
    match kind {
        TokenKind::Atom => "atom",
        TokenKind::Number => "number",
        TokenKind::Nil => "nil",
        TokenKind::Quoted => "quoted",
        TokenKind::Literal => "literal",
        TokenKind::LeftParen => "(",
        TokenKind::RightParen => ")",
        TokenKind::LeftBracket => "[",
        TokenKind::RightBracket => "]",
        TokenKind::Space => "space",
    }
}
