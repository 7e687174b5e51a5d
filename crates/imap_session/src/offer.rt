//! What a server offers, of what this client asks about (RFC 9051, sections 6.1.1 and 7.2.2).

ghost use Rattle.std.specs.Prelude.{◌≡◌, [], MatchOption};
ghost use Rattle.imap_session.specs.Offers.{code_words, last_words, named_in, names, told_words};

use crate::capabilities::is_named;
use imap_model::{Code, Listen, Response};
use mail_base::Words;
use std::alloc::AllocError;

/// Which of the capabilities that this client asks about the list names that was told last.
#[derive(Clone, Copy)]
pub struct Offer {
    pub qresync: bool,
    pub rev2: bool,
    pub uidplus: bool,
    pub moves: bool,
    pub plain: bool,
    pub no_login: bool,
}

impl Offer {
    /// Nothing was told yet.
    pub fn new() -> Offer
        ensures { result ≡ named_in [] }
    {
        Offer {
            qresync: false,
            rev2: false,
            uidplus: false,
            moves: false,
            plain: false,
            no_login: false,
        }
    }
}

// What is named in a list.
fn named_in(words: &Words) -> Offer
    ensures { result ≡ named_in words.now }
{
    Offer {
        qresync: is_named(words, b"QRESYNC"),
        rev2: is_named(words, b"IMAP4rev2"),
        uidplus: is_named(words, b"UIDPLUS"),
        moves: is_named(words, b"MOVE"),
        plain: is_named(words, b"AUTH=PLAIN"),
        no_login: is_named(words, b"LOGINDISABLED"),
    }
}

/// What is offered behind a code; where it tells no capabilities, as before.
pub fn behind_code(before: Offer, code: &Code) -> Offer
    ensures { MatchOption (code_words code.now) (result ≡ before) (λ words. result ≡ named_in words) }
{
    match code {
        Code::Capability(words) => named_in(words),
        _ => before,
    }
}

// The same of an untagged response.
fn behind(before: Offer, response: &Response) -> Offer
    ensures { MatchOption (told_words response.now) (result ≡ before) (λ words. result ≡ named_in words) }
{
    match response {
        Response::Capability(words) => named_in(words),
        Response::Untagged { code, .. } => behind_code(before, code),
        _ => before,
    }
}

impl Listen for Offer {
    ghost Stands = { λ offer told. offer ≡ named_in (last_words [] told) };

    fn take(&mut self, response: Response) -> Result<(), AllocError> {
        *self = behind(*self, &response);
        Ok(())
    }
}
