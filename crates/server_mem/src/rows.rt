//! What is told of messages (RFC 9051, section 7.5.2; RFC 7162, section 3.1.4.2).

ghost use Rattle.std.specs.Prelude.{◌≡◌, [], ◌∷◌, IfOk, nat_lt};
ghost use Rattle.flag_set.specs.FlagKey.{recent};
ghost use Rattle.imap_model.specs.PlainServer.{any_message, rows_where};
ghost use Rattle.imap_model.specs.ToldRows as told;
ghost use Rattle.imap_model.specs.declared.response.Response.TheVariants as responses;

use flag_set::{FlagKey, FlagSet};
use imap_model::{Fetched, Message, Response};
use mail_base::{List, ModSeq};
use std::alloc::{AllocError, Global};

fn recent_key(alloc: Global) -> Result<FlagKey, AllocError>
    ensures { IfOk result (λ key. key ≡ recent) }
{
    match FlagKey::new(alloc, b"\\Recent") {
        Ok(key) => Ok(key),
        Err(_) => Err(AllocError),
    }
}

fn recent_alone(alloc: Global) -> Result<FlagSet, AllocError>
    ensures { IfOk result (λ set. set ≡ recent ∷ []) }
{
    let mut set = FlagSet::none(alloc);
    set.add(recent_key(alloc)?)?;
    Ok(set)
}

/// The flags without `\Recent`.
pub fn told_flags(alloc: Global, flags: &FlagSet) -> Result<FlagSet, AllocError>
    ensures { IfOk result (λ left. left ≡ told.told_flags flags.now) }
{
    let recent = recent_alone(alloc)?;
    let left = flags.without(&recent)?;
    Ok(left)
}

/// A message's row.
pub fn row_of(alloc: Global, message: &Message) -> Result<Response, AllocError>
    ensures { IfOk result (λ row. row ≡ responses.Fetch (told.row_of message.now)) }
{
    let flags = told_flags(alloc, &message.flags)?;
    let mut row = Fetched::none();
    row.uid = Some(message.uid);
    row.flags = Some(flags);
    row.modseq = Some(message.modseq);
    Ok(Response::Fetch(row))
}

/// The row of each message.
pub fn all_rows(alloc: Global, messages: &[Message]) -> Result<List<Response>, AllocError>
    ensures { IfOk result (λ rows. rows ≡ rows_where any_message messages.now) }
{
    let mut rows = List::new(alloc);
    for message in messages {
        rows.push(row_of(alloc, message)?)?;
    }
    Ok(rows)
}

/// The rows of the messages above a mod-sequence.
pub fn rows_above(
    alloc: Global,
    modseq: ModSeq,
    messages: &[Message],
) -> Result<List<Response>, AllocError>
    ensures { IfOk result (λ rows. rows ≡ rows_where (λ m. nat_lt modseq m.modseq) messages.now) }
{
    let mut rows = List::new(alloc);
    for message in messages {
        if message.modseq > modseq {
            rows.push(row_of(alloc, message)?)?;
        }
    }
    Ok(rows)
}
