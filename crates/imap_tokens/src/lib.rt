//! The tokens of a line (RFC 9051, section 9), each with the place of its text.
#![tactic(auto)]

mod token;
mod tokens;
mod word;

pub use token::{Token, TokenFault, TokenKind};
pub use tokens::{Tokens, token_at};
