//! The Message-ID of a text (RFC 5322, section 3.6.4).

ghost use Rattle.std.specs.Prelude.{◌≡◌, ◌≢◌, ◌↔◌, ◌∷◌, ◌≤◌, ℕ, [], length, IsTrue, IfOk, IsErrOf, IsOkUnless, List, OnOk, IfErr, IfNone, IfSome};
ghost use Rattle.mail_header.specs.Identifier as spec;

use crate::field::Field;
use crate::folding::unfold;
use crate::header_line::split_line;
use crate::id_form::{trim, unfit_at};
use std::alloc::{AllocError, Global};
use thiserror::Error;

/// The bytes of the longest identifier (this client's profile).
pub const MAX_ID: usize = 512;

/// Why a text has no Message-ID that this client takes.
#[derive(Clone, Copy, Debug, PartialEq, Eq, Drop, Error)]
pub enum IdFault {
    /// The header has no field of that name.
    #[error("the header has no Message-ID")]
    Missing,
    /// The header has two fields of that name or more. The place is that of the second one's name, in bytes of the
    /// text, from 0.
    #[error("the header has more than one Message-ID")]
    Twice { second: usize },
    /// The identifier has more than 512 bytes.
    #[error("the Message-ID is too long")]
    TooLong { length: usize },
    /// The identifier isn't `<`, one or more bytes from 33 to 126 without `<` and `>`, and `>`. The place is that of
    /// the first byte that doesn't fit, or the end where it ends too early, in bytes of the identifier, from 0.
    #[error("the Message-ID isn't in angle brackets")]
    BadForm { at: usize },
    /// There isn't memory enough.
    #[error("memory is wanting")]
    Memory,
}

impl From<AllocError> for IdFault {
    ghost use Rattle.std.specs.Prelude.{◌≡◌};
    ghost use Rattle.mail_header.specs.declared.identifier.IdFault.TheVariants.{Memory};

    ghost from_gives = { λ _ fault. fault ≡ Memory };

    fn from(_: AllocError) -> IdFault {
        IdFault::Memory
    }
}

// The bodies of the fields named Message-ID that weren't given yet, in what is left of a text of this many bytes.
#[derive(Drop)]
struct IdBodies<'a> {
    rest: &'a [u8],
    end: usize,
    ghost within: { length rest.now ≤ end },
}

impl<'a> IdBodies<'a> {
    ghost use Rattle.mail_header.specs.BodiesLeft.{bodies_left, placed};

    // All of them.
    fn of(text: &'a [u8]) -> IdBodies<'a>
        ensures { bodies_left result ≡ spec.id_bodies text.now }
    {
        IdBodies {
            rest: text,
            end: text.len(),
        }
    }

    // The next one, behind the place of its field's name.
    fn next(&mut self) -> Option<(usize, &'a [u8])>
        ensures none { IfNone result (bodies_left self.old ≡ []) }
        ensures some { IfSome result (λ one. bodies_left self.old ≡ placed one ∷ bodies_left self.new) }
    {
        while let Some((line, behind)) = split_line(self.rest) {
            let at = self.end - self.rest.len();
            self.rest = behind;
            if let Some(field) = Field::of(line)
                && field.is_id()
            {
                return Some((at, field.body));
            }
        }
        None
    }
}

// The body of the one field named Message-ID.
fn one_body(text: &[u8]) -> Result<&[u8], IdFault>
    ensures value { IfOk result (λ body. spec.HasOne text.now body.now) }
    ensures why { IfErr result (spec.WhyNotOne text.now) }
{
    let mut bodies = IdBodies::of(text);
    let Some((_, body)) = bodies.next() else {
        return Err(IdFault::Missing);
    };
    match bodies.next() {
        Some((second, _)) => Err(IdFault::Twice { second }),
        None => Ok(body),
    }
}

// Refuses what is too long, and what hasn't the form.
fn check(id: &[u8]) -> Result<(), IdFault>
    ensures value { OnOk result ((length id.now ≤ 512) × spec.IsId id.now) }
    ensures why { IfErr result (spec.WhyRefused id.now) }
{
    if id.len() > MAX_ID {
        return Err(IdFault::TooLong { length: id.len() });
    }
    match unfit_at(id) {
        Some(at) => Err(IdFault::BadForm { at }),
        None => Ok(()),
    }
}

// The identifier, or the cause that there is none.
fn found(alloc: Global, text: &[u8]) -> Result<Vec<u8>, IdFault>
    ensures value { IfOk result (λ id. spec.HasMessageId text.now id.items) }
    ensures why { IfErr result (spec.WhyNoId text.now) }
{
    let body = one_body(text)?;
    let unfolded = unfold(alloc, body)?;
    let id = trim(&unfolded);
    check(id)?;
    let copy = Vec::from_slice(alloc, id)?;
    Ok(copy)
}

/// The Message-ID of a text: the body of the one field of that name in any case of its letters, without its folding,
/// and without spaces and tabs at its ends.
///
/// Refuses, in this order: no such field, more than one, an identifier of more than 512 bytes, and one without the
/// form. Nothing behind the header is read.
pub fn message_id(alloc: Global, text: &[u8]) -> Result<Vec<u8>, IdFault>
    ensures value { IfOk result (λ id. spec.HasMessageId text.now id.items) }
    ensures found { (id : List ℕ) → spec.HasMessageId text.now id → IsOkUnless result IdFault.Memory }
    ensures missing { IsErrOf result IdFault.Missing ↔ (spec.id_bodies text.now ≡ []) }
    ensures twice { (at : ℕ) → IsErrOf result (IdFault.Twice at) ↔ spec.HasSecond text.now at }

    // Of one field alone the identifier is copied, and there memory may be wanting before it is judged.
    ensures too_long { result ≢ Err IdFault.Memory → (n : ℕ) → IsErrOf result (IdFault.TooLong n) ↔ spec.IsTooLong text.now n }
    ensures bad_form { result ≢ Err IdFault.Memory → (at : ℕ) → IsErrOf result (IdFault.BadForm at) ↔ spec.IsBadForm text.now at }
{
    found(alloc, text)
}
