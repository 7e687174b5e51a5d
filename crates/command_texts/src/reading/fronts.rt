//! The fronts of texts: behind one the client waits to be asked for the next part (RFC 9051, sections 4.3 and 6.2.2).

ghost use Rattle.std.specs.Prelude.{◌≡◌, ◌<◌, ◌^◌, ◌++◌, ◌∷◌, ◌↔◌, [], ℕ, List, Some, IfOk, IsTrue, MatchOption, codes, decimal};
ghost use Rattle.flag_set.specs.FlagSet.{IsFlagSet};
ghost use Rattle.flag_set.specs.FlagText.{list_text};
ghost use Rattle.mail_base.specs.Account.{Credentials};
ghost use Rattle.mail_base.specs.BoxName.{IsBoxName};
ghost use Rattle.mail_base.specs.declared.tag.Tag.{Tag};
ghost use Rattle.imap_model.specs.Astring.{astring_parts};
ghost use Rattle.imap_model.specs.CommandParts.{line, words, crlf, ◌⌢◌};
ghost use Rattle.imap_model.specs.Held.{IsHeldAccount, IsNonzero32};
ghost use Rattle.imap_model.specs.declared.command.Command.TheVariants as commands;
ghost use Rattle.command_texts.specs.AwaitedParts.{Awaited, Response, User, Password, Id, Message, IsCount, IsHeldFront, IsUser, IsFrontOf, announced, begun_parts};
ghost use Rattle.command_texts.specs.Stands.{Finds, IsPossible, Stands, second};

use crate::reading::accounts::account_of;
use crate::reading::arguments::{announced, argument_at};
use crate::reading::cuts::{behind, byte_at, until};
use crate::reading::flags::flags_of;
use crate::reading::names::name;
use crate::reading::numbers::uid_of;
use crate::reading::tags::tagged;
use imap_model::Command;
use mail_base::{Bytes, Tag};
use std::alloc::{AllocError, Global};
use uid_sets::Uid;

/// What stands for the commands whose texts have a front: one of them, but for the number of octets that the front announces.
#[derive(Drop)]
pub struct StandIn {
    pub command: Command,
    pub octets: usize,
}

/// A front of a text under its tag.
#[derive(Drop)]
pub struct Front {
    pub tag: Tag,
    pub stand_in: StandIn,
}

/// The front that these parts can be.
pub fn front_of(alloc: Global, parts: &[Bytes]) -> Result<Option<Front>, AllocError>
    ensures { (tag : Tag) (awaited : Awaited) → IsFrontOf tag awaited parts.now → IfOk result (λ found. MatchOption found ⊥ (λ f. (f.tag ≡ tag) × Stands awaited f.stand_in)) }
{
    let Some((part, later)) = parts.split_first() else {
        return Ok(None);
    };
    let Some((tag, text)) = tagged(part.as_slice()) else {
        return Ok(None);
    };
    match begun(alloc, text, later)? {
        Some(stand_in) => Ok(Some(Front { tag, stand_in })),
        None => Ok(None),
    }
}

// What stands for the commands that this text begins without its tag, with the parts behind it.
fn begun(alloc: Global, text: &[u8], later: &[Bytes]) -> Result<Option<StandIn>, AllocError>
    ensures { (awaited : Awaited) → IsHeldFront awaited → text.now ∷ later.now ≡ begun_parts awaited → IfOk result (Finds awaited) }
{
    let kind = byte_at(text, 1);
    if kind == b'O' {
        return login_front(alloc, text, later);
    }
    if kind == b'U' {
        return plain_front(alloc);
    }
    if kind == b'P' {
        return append_front(alloc, text);
    }
    if kind == b'I' {
        return search_front(alloc, text);
    }
    Ok(None)
}

fn login_front(alloc: Global, text: &[u8], later: &[Bytes]) -> Result<Option<StandIn>, AllocError>
    ensures { (awaited : Awaited) → IsHeldFront awaited → second awaited ≡ 79 → text.now ∷ later.now ≡ begun_parts awaited → IfOk result (Finds awaited) }
{
    login_begun(alloc, behind(text, 6), later)
}

fn plain_front(alloc: Global) -> Result<Option<StandIn>, AllocError>
    ensures { (awaited : Awaited) → second awaited ≡ 85 → IfOk result (Finds awaited) }
{
    plain_begun(alloc)
}

fn append_front(alloc: Global, text: &[u8]) -> Result<Option<StandIn>, AllocError>
    ensures { (awaited : Awaited) (later : List (List ℕ)) → IsHeldFront awaited → second awaited ≡ 80 → text.now ∷ later ≡ begun_parts awaited → IfOk result (Finds awaited) }
{
    append_begun(alloc, behind(text, 7))
}

fn search_front(alloc: Global, text: &[u8]) -> Result<Option<StandIn>, AllocError>
    ensures { (awaited : Awaited) (later : List (List ℕ)) → IsHeldFront awaited → second awaited ≡ 73 → text.now ∷ later ≡ begun_parts awaited → IfOk result (Finds awaited) }
{
    search_begun(alloc, behind(text, 15))
}

// The response is awaited, of which no number of octets is told.
fn plain_begun(alloc: Global) -> Result<Option<StandIn>, AllocError>
    ensures { IfOk result (Finds Response) }
{
    match account_of(alloc, b"", b"")? {
        Some(account) => Ok(Some(StandIn {
            command: Command::Plain { account },
            octets: 1,
        })),
        None => Ok(None),
    }
}

// The user or the password is awaited.
fn login_begun(alloc: Global, text: &[u8], later: &[Bytes]) -> Result<Option<StandIn>, AllocError>
    ensures user { (n : ℕ) → IsCount n → text.now ∷ later.now ≡ announced n → IfOk result (Finds (User n)) }
    ensures password { (name : List ℕ) (n : ℕ) → IsUser name → IsCount n → text.now ∷ later.now ≡ astring_parts name ⌢ (words " " ⌢ announced n)
        → IfOk result (Finds (Password name n)) }
{
    if !later.is_empty() {
        return password_begun(alloc, text, later);
    }
    if byte_at(text, 0) == b'{' {
        return user_begun(alloc, text);
    }
    password_begun(alloc, text, later)
}

fn user_begun(alloc: Global, text: &[u8]) -> Result<Option<StandIn>, AllocError>
    ensures { (n : ℕ) → IsCount n → text.now ≡ 123 ∷ (decimal n ++ 125 ∷ crlf) → IfOk result (Finds (User n)) }
{
    match announced(text) {
        Some(octets) => login_awaited(alloc, b"\r", b"", octets),
        None => Ok(None),
    }
}

fn password_begun(
    alloc: Global,
    text: &[u8],
    later: &[Bytes],
) -> Result<Option<StandIn>, AllocError>
    ensures { (name : List ℕ) (n : ℕ) → IsUser name → IsCount n → text.now ∷ later.now ≡ astring_parts name ⌢ ((32 ∷ 123 ∷ (decimal n ++ 125 ∷ crlf)) ∷ [])
        → IfOk result (Finds (Password name n)) }
{
    let Some(user) = argument_at(alloc, text, later)? else {
        return Ok(None);
    };
    match announced(behind(user.rest, 1)) {
        Some(octets) => login_awaited(alloc, &user.text, b"\r", octets),
        None => Ok(None),
    }
}

fn login_awaited(
    alloc: Global,
    user: &[u8],
    password: &[u8],
    octets: usize,
) -> Result<Option<StandIn>, AllocError>
    ensures { (account : Credentials) → IsHeldAccount account → user.now ≡ account.user → password.now ≡ account.password
        → IfOk result (λ found. MatchOption found ⊥ (λ f. (f.command ≡ commands.Login account) × (f.octets ≡ octets))) }
{
    match account_of(alloc, user, password)? {
        Some(account) => Ok(Some(StandIn {
            command: Command::Login { account },
            octets,
        })),
        None => Ok(None),
    }
}

// The text of the message is awaited.
fn append_begun(alloc: Global, text: &[u8]) -> Result<Option<StandIn>, AllocError>
    ensures { (to : List ℕ) (flags : List (List ℕ)) (n : ℕ) → IsBoxName to → IsFlagSet flags → n < 2 ^ 64
        → text.now ∷ [] ≡ astring_parts to ⌢ (words " (" ⌢ (line (list_text flags) ⌢ (words ") " ⌢ line (123 ∷ (decimal n ++ 125 ∷ crlf)))))
        → IfOk result (Finds (Message to flags n)) }
{
    let Some((to, rest)) = name(alloc, text)? else {
        return Ok(None);
    };
    let (flags, rest) = until(behind(rest, 2), b')');
    let Some(flags) = flags_of(alloc, flags)? else {
        return Ok(None);
    };
    match announced(behind(rest, 1)) {
        Some(octets) => Ok(Some(StandIn {
            command: Command::Append {
                to,
                flags,
                text: Bytes::new(alloc),
            },
            octets,
        })),
        None => Ok(None),
    }
}

// What is searched for is awaited.
fn search_begun(alloc: Global, text: &[u8]) -> Result<Option<StandIn>, AllocError>
    ensures { (from n : ℕ) → IsNonzero32 from → IsCount n → text.now ≡ decimal from ++ 58 ∷ (codes "* HEADER Message-ID " ++ 123 ∷ (decimal n ++ 125 ∷ crlf))
        → IfOk result (Finds (Id from n)) }
{
    let (from, rest) = until(text, b':');
    let Some(from) = uid_of(from) else {
        return Ok(None);
    };
    match announced(behind(rest, 20)) {
        Some(octets) => search_awaited(alloc, from, octets),
        None => Ok(None),
    }
}

fn search_awaited(alloc: Global, from: Uid, octets: usize) -> Result<Option<StandIn>, AllocError>
    ensures { IfOk result (Finds (Id from octets)) }
{
    let id = Bytes::of(b"\r".to_vec(alloc)?);
    Ok(Some(StandIn {
        command: Command::Search { from, id },
        octets,
    }))
}

/// Whether the octets can be so many: only the text of a message may have none.
pub fn is_possible(stand_in: &StandIn) -> bool
    ensures possible { IsTrue result ↔ IsPossible stand_in.now.command stand_in.now.octets }
    ensures fits { stand_in.now.octets < 2 ^ 64 }
{
    let has_some = stand_in.octets > 0;
    match stand_in.command {
        Command::Append { .. } => true,
        Command::Capability
        | Command::Login { .. }
        | Command::Plain { .. }
        | Command::Enable { .. }
        | Command::Select { .. }
        | Command::FetchAll
        | Command::FetchRow { .. }
        | Command::Search { .. }
        | Command::FetchIds { .. }
        | Command::FetchText { .. }
        | Command::Store { .. }
        | Command::Shift { .. }
        | Command::Copy { .. }
        | Command::Expunge { .. }
        | Command::Logout => has_some,
    }
}
