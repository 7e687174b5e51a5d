//! What a token is (RFC 9051, section 9: the parts of a response).

use mail_base::Span;
use thiserror::Error;

/// What a token is. A flag's backslash and `\*` stand in atoms.
#[derive(Clone, Copy, Debug, PartialEq, Eq)]
pub enum TokenKind {
    /// A longest run of bytes from 33 to 255 other than `(`, `)`, `[`, `]`, `"`, `{` and 127, if it is neither NIL nor
    /// digits alone.
    Atom,
    /// Such a run of digits alone.
    Number,
    /// Such a run that is NIL, in any case.
    Nil,
    /// `"`, then bytes without CR, LF and NUL, then `"`. A backslash stands before `"` or `\` alone.
    Quoted,
    /// A literal with its header.
    Literal,
    /// `(`
    LeftParen,
    /// `)`
    RightParen,
    /// `[`
    LeftBracket,
    /// `]`
    RightBracket,
    /// A longest run of spaces.
    Space,
}

/// A token, and where it stands in the line.
#[derive(Clone, Copy, Debug, PartialEq, Eq)]
pub struct Token {
    pub kind: TokenKind,
    pub span: Span,
}

/// Why no further token is read. The place is counted in bytes of the line, from 0.
#[derive(Clone, Copy, Debug, PartialEq, Eq, Drop, Error)]
pub enum TokenFault {
    /// No token begins there: it is no byte of a token, a `"` without its end, or a `{` that opens no literal.
    #[error("a byte that begins no token")]
    BadByte { at: usize },
}
