//! The input of a command: a message, as it is put into a mailbox.

ghost use Rattle.std.specs.Prelude.{◌≡◌, ◌≤◌, ◌<◌, ◌==◌, ℕ, List, [], OnOk, IsErrOf};
ghost use Rattle.std.specs.List.{list_any};
ghost use Rattle.mail_header.specs.BareLf.{crlf_of};
ghost use Rattle.world_traits.specs.Calls.{Rose};
ghost use Rattle.mail_top.specs.Reading.{IsInput, IsReadOut, TakesFront, Identified, InputRead, MessageRead};
ghost use Rattle.mail_top.specs.declared.refusal.Refusal.TheVariants as refusals;

use crate::{Reason, Refusal};
use mail_base::{Bytes, MAX_TEXT};
use mail_header::{crlf_of, message_id};
use std::alloc::Global;
use world_traits::Source;

/// The most bytes that are read of an input: one more than a message may have.
pub const MAX_INPUT: usize = 33_554_433;

// How many bytes are read at once.
const PIECE: usize = 4_096;

/// The message that an input gives, and its Message-ID: the input with a CR before each LF that has none (RFC 5322, sections 2.3
/// and 3.6.4).
///
/// It reads to the input's end, or 33,554,433 bytes. Refuses, in this order: an input that fails, a message of more than 33,554,432
/// bytes, one with a byte 0, and one whose Message-ID is refused.
pub fn message<I: Source>(alloc: Global, input: &mut I) -> Result<(Bytes, Bytes), Refusal>
    ensures value { (given : List ℕ) × IsInput I.tells (I.rest input.old) given × MessageRead given result }
    ensures taken { I.tells → TakesFront (I.rest input.old) (I.rest input.new) }
    ensures whole { I.tells → OnOk result (I.rest input.new ≡ []) }
    ensures out { I.tells → (IsErrOf result refusals.Input → ⊥) → (IsErrOf result refusals.Memory → ⊥) → IsReadOut (I.rest input.old) (I.rest input.new) }
    ensures count { I.source_faults input.old ≤ I.source_faults input.new }
    ensures cause { IsErrOf result refusals.Input → Rose (I.source_faults input.old) (I.source_faults input.new) }
{
    let given = read_input(alloc, input)?;
    identified(alloc, given.as_slice())
}

// The message that an input gives, and its Message-ID.
fn identified(alloc: Global, given: &[u8]) -> Result<(Bytes, Bytes), Refusal>
    ensures value { MessageRead given.now result }
    ensures never { IsErrOf result refusals.Input → ⊥ }
{
    let text = crlf_of(alloc, given)?;
    if text.len() > MAX_TEXT {
        return Err(Refusal::from(Reason::TooLarge));
    }
    if has_nul(&text) {
        return Err(Refusal::from(Reason::BadText));
    }
    let id = identifier(alloc, &text)?;
    Ok((Bytes::of(text), id))
}

// Whether a text has a byte 0.
fn has_nul(text: &[u8]) -> bool
    ensures { result ≡ list_any (λ byte. byte == 0) text.now }
{
    text.iter().any(|byte| *byte == 0)
}

// The Message-ID of a text.
fn identifier(alloc: Global, text: &[u8]) -> Result<Bytes, Refusal>
    ensures { Identified text.now result }
{
    let id = message_id(alloc, text)?;
    Ok(Bytes::of(id))
}

// The whole input, where it has at most as many bytes as are read.
fn read_input<I: Source>(alloc: Global, input: &mut I) -> Result<Bytes, Refusal>
    ensures value { (given : List ℕ) × IsInput I.tells (I.rest input.old) given × InputRead given result }
    ensures taken { I.tells → TakesFront (I.rest input.old) (I.rest input.new) }
    ensures whole { I.tells → OnOk result (I.rest input.new ≡ []) }
    ensures out { I.tells → (IsErrOf result refusals.Input → ⊥) → (IsErrOf result refusals.Memory → ⊥) → IsReadOut (I.rest input.old) (I.rest input.new) }
    ensures count { I.source_faults input.old ≤ I.source_faults input.new }
    ensures cause { IsErrOf result refusals.Input → Rose (I.source_faults input.old) (I.source_faults input.new) }
{
    let mut given = Vec::new(alloc);
    let mut piece = [0; PIECE];
    while given.len() < MAX_INPUT {
        let most = PIECE.min(MAX_INPUT - given.len());
        let count = input.read(&mut piece[..most])?;
        if count == 0 {
            return Ok(Bytes::of(given));
        }
        given.extend_from_slice(&piece[..count])?;
    }
    Err(Refusal::Reason {
        reason: Reason::TooLarge,
    })
}
