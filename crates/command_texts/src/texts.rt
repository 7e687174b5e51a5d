//! What the parts of a text are, as far as they have come (RFC 9051, sections 4.3 and 6).

ghost use Rattle.std.specs.Prelude.{◌≡◌, ◌<◌, ℕ, List, Some, None, length, IfOk, MatchOption};
ghost use Rattle.imap_model.specs.declared.command.Command.{Command};
ghost use Rattle.mail_base.specs.declared.tag.Tag.{Tag};
ghost use Rattle.command_texts.specs.HeardAs.{IsHeardAs};
ghost use Rattle.command_texts.specs.HeardParts.{IsFront, IsWhole, append_of};

use crate::Heard;
use crate::reading::candidates::{Candidate, candidate_of};
use crate::reading::fronts::{Front, front_of, is_possible};
use crate::reading::same::are_same;
use crate::reading::written::is_written;
use imap_command::write;
use imap_model::Command;
use mail_base::{BoxName, Bytes};
use std::alloc::{AllocError, Global};

/// What the parts of a text are that have come so far (RFC 9051, sections 4.3 and 6). A command is told only where its
/// whole text has come, octet for octet as a client of this program writes it, and a front only where such a text goes on
/// behind it. Fails for want of memory alone.
pub fn heard(alloc: Global, parts: &[Bytes]) -> Result<Heard, AllocError>
    requires { 0 < length parts.now }
    ensures { IfOk result (λ found. IsHeardAs parts.now found) }
{
    if let Some(found) = whole(alloc, parts)? {
        return Ok(Heard::Command {
            tag: found.tag,
            command: found.command,
        });
    }
    match begun(alloc, parts)? {
        Some(front) => Ok(Heard::Front {
            tag: front.tag,
            append: append_of(&front.stand_in.command),
        }),
        None => Ok(Heard::Nothing),
    }
}

// The command that the parts are the whole text of.
fn whole(alloc: Global, parts: &[Bytes]) -> Result<Option<Candidate>, AllocError>
    ensures { IfOk result (λ found. MatchOption found ((tag : Tag) (command : Command) → IsWhole tag command parts.now → ⊥) (λ c. IsWhole c.tag c.command parts.now)) }
{
    let Some(found) = candidate_of(alloc, parts)? else {
        return Ok(None);
    };
    if !found.command.is_writable(found.tag) {
        return Ok(None);
    }
    let written = write(alloc, found.tag, &found.command)?;
    if !are_same(parts, written.as_slice()) {
        return Ok(None);
    }
    Ok(Some(found))
}

// The front that the parts are.
fn begun(alloc: Global, parts: &[Bytes]) -> Result<Option<Front>, AllocError>
    requires { 0 < length parts.now }
    ensures { IfOk result (λ found. MatchOption found ((tag : Tag) (command : Command) → IsFront tag command parts.now → ⊥)
        (λ f. (command : Command) × IsFront f.tag command parts.now × (append_of command ≡ append_of f.stand_in.command))) }
{
    let Some(found) = front_of(alloc, parts)? else {
        return Ok(None);
    };
    if !is_possible(&found.stand_in) {
        return Ok(None);
    }
    if !found.stand_in.command.is_writable(found.tag) {
        return Ok(None);
    }
    let written = write(alloc, found.tag, &found.stand_in.command)?;
    if !is_written(alloc, found.stand_in.octets, parts, written.as_slice())? {
        return Ok(None);
    }
    Ok(Some(found))
}

// The mailbox that an APPEND names.
fn append_of(command: &Command) -> Option<BoxName>
    ensures { result ≡ append_of command.now }
{
    match command {
        Command::Append { to, .. } => Some(to.copy()),
        Command::Capability
        | Command::Login { .. }
        | Command::Plain { .. }
        | Command::Enable { .. }
        | Command::Select { .. }
        | Command::FetchAll
        | Command::FetchRow { .. }
        | Command::Search { .. }
        | Command::FetchIds { .. }
        | Command::FetchText { .. }
        | Command::Store { .. }
        | Command::Shift { .. }
        | Command::Copy { .. }
        | Command::Expunge { .. }
        | Command::Logout => None,
    }
}
