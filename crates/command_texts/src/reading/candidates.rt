//! The one command that a text can be that of (RFC 9051, section 6; RFC 7162, sections 3.1.3 and 3.2.5).

ghost use Rattle.std.specs.Prelude.{◌≡◌, ◌<◌, ◌^◌, ◌++◌, ◌∷◌, [], ℕ, List, Bool, true, false, Option, Some, None, IfOk, MatchOption, codes, decimal, length};
ghost use Rattle.flag_set.specs.FlagSet.{IsFlagSet};
ghost use Rattle.flag_set.specs.FlagText.{list_text};
ghost use Rattle.mail_base.specs.Account.{Credentials};
ghost use Rattle.mail_base.specs.BoxName.{IsBoxName};
ghost use Rattle.mail_base.specs.declared.tag.Tag.{Tag};
ghost use Rattle.uid_sets.specs.Spelling.{set_text};
ghost use Rattle.uid_sets.specs.UidSet.{IsCanonical};
ghost use Rattle.uid_sets.specs.declared.uid.UidRange.{UidRange};
ghost use Rattle.imap_model.specs.Astring.{astring_parts, literal};
ghost use Rattle.imap_model.specs.CommandParts.{line, words, number, crlf, ◌⌢◌};
ghost use Rattle.imap_model.specs.CommandText.{command_parts, mark_parts, response_of, sign};
ghost use Rattle.imap_model.specs.Held.{IsHeld, IsHeldAccount, IsHeldMark, IsModSeq, IsNonzero32};
ghost use Rattle.imap_model.specs.OneText.{IsText};
ghost use Rattle.imap_model.specs.declared.command.Command.{Command};
ghost use Rattle.imap_model.specs.declared.command.Command.TheVariants as commands;
ghost use Rattle.imap_model.specs.declared.mark.Mark.{Mark};
ghost use Rattle.command_texts.specs.HeardParts.{IsWhole};

use crate::reading::accounts::{login, responded};
use crate::reading::arguments::{argument_at, literal};
use crate::reading::cuts::{behind, byte_at, until};
use crate::reading::flags::flags_of;
use crate::reading::names::name;
use crate::reading::numbers::{modseq_of, uid_of, validity_of};
use crate::reading::sets::uids_of;
use crate::reading::tags::tagged;
use imap_model::{Command, Mark};
use mail_base::{BoxName, Bytes, Tag};
use std::alloc::{AllocError, Global};
use uid_sets::Uid;

/// A command under its tag.
#[derive(Drop)]
pub struct Candidate {
    pub tag: Tag,
    pub command: Command,
}

/// The command under its tag that these parts can be the text of.
pub fn candidate_of(alloc: Global, parts: &[Bytes]) -> Result<Option<Candidate>, AllocError>
    ensures { (tag : Tag) (command : Command) → IsWhole tag command parts.now → IfOk result (λ found. MatchOption found ⊥ (λ c. (c.tag ≡ tag) × (c.command ≡ command))) }
{
    let Some((part, later)) = parts.split_first() else {
        return Ok(None);
    };
    let Some((tag, text)) = tagged(part.as_slice()) else {
        return Ok(None);
    };
    match command(alloc, text, later)? {
        Some(command) => Ok(Some(Candidate { tag, command })),
        None => Ok(None),
    }
}

// The command that this text without its tag can be, with the parts behind it. The second byte tells the kinds apart, but for
// LOGIN and LOGOUT.
fn command(alloc: Global, text: &[u8], later: &[Bytes]) -> Result<Option<Command>, AllocError>
    ensures { (command : Command) → IsHeld command → text.now ∷ later.now ≡ command_parts command ⌢ line crlf → IfOk result (λ found. found ≡ Some command) }
{
    let kind = byte_at(text, 1);
    if kind == b'I' {
        return on_uids(alloc, behind(text, 4), later);
    }
    if kind == b'O' {
        return login_or_logout(alloc, text, later);
    }
    if kind == b'U' {
        return plain(alloc, later);
    }
    if kind == b'E' {
        return select(alloc, behind(text, 7));
    }
    if kind == b'P' {
        return append(alloc, behind(text, 7), later);
    }
    Ok(wordy(text))
}

// CAPABILITY or ENABLE.
fn wordy(text: &[u8]) -> Option<Command>
    ensures capability { text.now ≡ codes "CAPABILITY" ++ crlf → result ≡ Some commands.Capability }
    ensures enable { text.now ≡ codes "ENABLE QRESYNC" ++ crlf → result ≡ Some (commands.Enable false) }
    ensures rev2 { text.now ≡ codes "ENABLE IMAP4rev2 QRESYNC" ++ crlf → result ≡ Some (commands.Enable true) }
{
    match byte_at(text, 0) {
        b'C' => Some(Command::Capability),
        b'E' => Some(Command::Enable {
            rev2: byte_at(text, 7) == b'I',
        }),
        _ => None,
    }
}

// LOGIN or LOGOUT.
fn login_or_logout(
    alloc: Global,
    text: &[u8],
    later: &[Bytes],
) -> Result<Option<Command>, AllocError>
    ensures login { (account : Credentials) (first : List ℕ) → IsHeldAccount account → text.now ≡ codes "LOGIN " ++ first
        → first ∷ later.now ≡ astring_parts account.user ⌢ (words " " ⌢ (astring_parts account.password ⌢ line crlf)) → IfOk result (λ found. found ≡ Some (commands.Login account)) }
    ensures logout { text.now ≡ codes "LOGOUT" ++ crlf → IfOk result (λ found. found ≡ Some commands.Logout) }
{
    if byte_at(text, 3) == b'O' {
        return Ok(Some(Command::Logout));
    }
    logged_in(alloc, behind(text, 6), later)
}

// A command behind the word UID.
fn on_uids(alloc: Global, text: &[u8], later: &[Bytes]) -> Result<Option<Command>, AllocError>
    ensures all { text.now ≡ codes "FETCH " ++ (codes "1:*" ++ (codes " (UID FLAGS MODSEQ)" ++ crlf)) → IfOk result (λ found. found ≡ Some commands.FetchAll) }
    ensures row { (uid : ℕ) → IsNonzero32 uid → text.now ≡ codes "FETCH " ++ (decimal uid ++ (codes " (UID FLAGS MODSEQ)" ++ crlf)) → IfOk result (λ found. found ≡ Some (commands.FetchRow uid)) }
    ensures ids { (uids : List UidRange) → IsCanonical uids → text.now ≡ codes "FETCH " ++ (set_text uids ++ (codes " (UID BODY.PEEK[HEADER.FIELDS (MESSAGE-ID)])" ++ crlf))
        → IfOk result (λ found. found ≡ Some (commands.FetchIds uids)) }
    ensures text { (uid : ℕ) → IsNonzero32 uid → text.now ≡ codes "FETCH " ++ (decimal uid ++ (codes " (UID BODY.PEEK[])" ++ crlf)) → IfOk result (λ found. found ≡ Some (commands.FetchText uid)) }
    ensures shift { (uid : ℕ) (to first : List ℕ) → IsNonzero32 uid → IsBoxName to → text.now ≡ codes "MOVE " ++ first
        → first ∷ [] ≡ number uid ⌢ (words " " ⌢ (astring_parts to ⌢ line crlf)) → IfOk result (λ found. found ≡ Some (commands.Shift uid to)) }
    ensures copy { (uid : ℕ) (to first : List ℕ) → IsNonzero32 uid → IsBoxName to → text.now ≡ codes "COPY " ++ first
        → first ∷ [] ≡ number uid ⌢ (words " " ⌢ (astring_parts to ⌢ line crlf)) → IfOk result (λ found. found ≡ Some (commands.Copy uid to)) }
    ensures expunge { (uid : ℕ) → IsNonzero32 uid → text.now ≡ codes "EXPUNGE " ++ (decimal uid ++ crlf) → IfOk result (λ found. found ≡ Some (commands.Expunge uid)) }
    ensures search { (from : ℕ) (id first : List ℕ) → IsNonzero32 from → IsText id → text.now ≡ codes "SEARCH UID " ++ first
        → first ∷ later.now ≡ number from ⌢ (words ":* HEADER Message-ID " ⌢ (astring_parts id ⌢ line crlf)) → IfOk result (λ found. found ≡ Some (commands.Search from id)) }
    ensures store { (uid since : ℕ) (add : Bool) (flags : List (List ℕ)) (first : List ℕ) → IsNonzero32 uid → IsModSeq since → IsFlagSet flags → text.now ≡ codes "STORE " ++ first
        → first ∷ [] ≡ number uid ⌢ (words " (UNCHANGEDSINCE " ⌢ (number since ⌢ (words ") " ⌢ (sign add ⌢ (words "FLAGS (" ⌢ (line (list_text flags) ⌢ (words ")" ⌢ line crlf)))))))
        → IfOk result (λ found. found ≡ Some (commands.Store uid since add flags)) }
{
    match byte_at(text, 0) {
        b'F' => fetch(alloc, behind(text, 6)),
        b'M' => shift(alloc, behind(text, 5)),
        b'C' => copy(alloc, behind(text, 5)),
        b'E' => Ok(expunge(behind(text, 8))),
        _ => search_or_store(alloc, text, later),
    }
}

// A SEARCH or a STORE.
fn search_or_store(
    alloc: Global,
    text: &[u8],
    later: &[Bytes],
) -> Result<Option<Command>, AllocError>
    ensures search { (from : ℕ) (id first : List ℕ) → IsNonzero32 from → IsText id → text.now ≡ codes "SEARCH UID " ++ first
        → first ∷ later.now ≡ number from ⌢ (words ":* HEADER Message-ID " ⌢ (astring_parts id ⌢ line crlf)) → IfOk result (λ found. found ≡ Some (commands.Search from id)) }
    ensures store { (uid since : ℕ) (add : Bool) (flags : List (List ℕ)) (first : List ℕ) → IsNonzero32 uid → IsModSeq since → IsFlagSet flags → text.now ≡ codes "STORE " ++ first
        → first ∷ [] ≡ number uid ⌢ (words " (UNCHANGEDSINCE " ⌢ (number since ⌢ (words ") " ⌢ (sign add ⌢ (words "FLAGS (" ⌢ (line (list_text flags) ⌢ (words ")" ⌢ line crlf)))))))
        → IfOk result (λ found. found ≡ Some (commands.Store uid since add flags)) }
{
    if byte_at(text, 1) == b'E' {
        return search(alloc, behind(text, 11), later);
    }
    store(alloc, behind(text, 6))
}

fn logged_in(alloc: Global, text: &[u8], later: &[Bytes]) -> Result<Option<Command>, AllocError>
    ensures { (account : Credentials) → IsHeldAccount account
        → text.now ∷ later.now ≡ astring_parts account.user ⌢ (words " " ⌢ (astring_parts account.password ⌢ line crlf)) → IfOk result (λ found. found ≡ Some (commands.Login account)) }
{
    match login(alloc, text, later)? {
        Some(account) => Ok(Some(Command::Login { account })),
        None => Ok(None),
    }
}

fn plain(alloc: Global, later: &[Bytes]) -> Result<Option<Command>, AllocError>
    ensures { (account : Credentials) → IsHeldAccount account → later.now ≡ (response_of account ++ crlf) ∷ [] → IfOk result (λ found. found ≡ Some (commands.Plain account)) }
{
    match responded(alloc, later)? {
        Some(account) => Ok(Some(Command::Plain { account })),
        None => Ok(None),
    }
}

fn select(alloc: Global, text: &[u8]) -> Result<Option<Command>, AllocError>
    ensures { (name : List ℕ) (since : Option Mark) → IsBoxName name → IsHeldMark since
        → text.now ∷ [] ≡ astring_parts name ⌢ (mark_parts since ⌢ line crlf) → IfOk result (λ found. found ≡ Some (commands.Select name since)) }
{
    match name(alloc, text)? {
        Some((name, rest)) => Ok(Some(Command::Select {
            name,
            since: mark_of(rest),
        })),
        None => Ok(None),
    }
}

// The mark behind a mailbox's name.
fn mark_of(text: &[u8]) -> Option<Mark>
    ensures none { text.now ≡ crlf → result ≡ None }
    ensures some { (validity modseq : ℕ) → IsNonzero32 validity → IsModSeq modseq
        → text.now ≡ codes " (QRESYNC (" ++ (decimal validity ++ 32 ∷ (decimal modseq ++ 41 ∷ 41 ∷ crlf)) → result ≡ Some (record { validity = validity; modseq = modseq }) }
{
    if byte_at(text, 0) == b'\r' {
        return None;
    }
    let (validity, rest) = until(behind(text, 11), b' ');
    let (modseq, _) = until(rest, b')');
    Some(Mark {
        validity: validity_of(validity)?,
        modseq: modseq_of(modseq)?,
    })
}

// UIDs, and what is asked of them.
fn fetch(alloc: Global, text: &[u8]) -> Result<Option<Command>, AllocError>
    ensures all { text.now ≡ codes "1:*" ++ (codes " (UID FLAGS MODSEQ)" ++ crlf) → IfOk result (λ found. found ≡ Some commands.FetchAll) }
    ensures row { (uid : ℕ) → IsNonzero32 uid → text.now ≡ decimal uid ++ (codes " (UID FLAGS MODSEQ)" ++ crlf) → IfOk result (λ found. found ≡ Some (commands.FetchRow uid)) }
    ensures ids { (uids : List UidRange) → IsCanonical uids → text.now ≡ set_text uids ++ (codes " (UID BODY.PEEK[HEADER.FIELDS (MESSAGE-ID)])" ++ crlf)
        → IfOk result (λ found. found ≡ Some (commands.FetchIds uids)) }
    ensures text { (uid : ℕ) → IsNonzero32 uid → text.now ≡ decimal uid ++ (codes " (UID BODY.PEEK[])" ++ crlf) → IfOk result (λ found. found ≡ Some (commands.FetchText uid)) }
{
    let (uids, items) = until(text, b' ');
    if byte_at(items, 5) == b'F' {
        return Ok(fetch_rows(uids));
    }
    if byte_at(items, 15) == b']' {
        return Ok(fetch_text(uids));
    }
    fetch_ids(alloc, uids)
}

// The whole text of one message.
fn fetch_text(text: &[u8]) -> Option<Command>
    ensures { (uid : ℕ) → IsNonzero32 uid → text.now ≡ decimal uid → result ≡ Some (commands.FetchText uid) }
{
    match uid_of(text) {
        Some(uid) => Some(Command::FetchText { uid }),
        None => None,
    }
}

fn fetch_ids(alloc: Global, text: &[u8]) -> Result<Option<Command>, AllocError>
    ensures { (uids : List UidRange) → IsCanonical uids → text.now ≡ set_text uids → IfOk result (λ found. found ≡ Some (commands.FetchIds uids)) }
{
    match uids_of(alloc, text)? {
        Some(uids) => Ok(Some(Command::FetchIds { uids })),
        None => Ok(None),
    }
}

// The row of one message, or those of all.
fn fetch_rows(text: &[u8]) -> Option<Command>
    ensures all { text.now ≡ codes "1:*" → result ≡ Some commands.FetchAll }
    ensures row { (uid : ℕ) → IsNonzero32 uid → text.now ≡ decimal uid → result ≡ Some (commands.FetchRow uid) }
{
    let (low, _) = until(text, b':');
    if low.len() < text.len() {
        return Some(Command::FetchAll);
    }
    match uid_of(low) {
        Some(uid) => Some(Command::FetchRow { uid }),
        None => None,
    }
}

fn search(alloc: Global, text: &[u8], later: &[Bytes]) -> Result<Option<Command>, AllocError>
    ensures { (from : ℕ) (id : List ℕ) → IsNonzero32 from → IsText id
        → text.now ∷ later.now ≡ number from ⌢ (words ":* HEADER Message-ID " ⌢ (astring_parts id ⌢ line crlf)) → IfOk result (λ found. found ≡ Some (commands.Search from id)) }
{
    let (from, rest) = until(text, b':');
    let Some(from) = uid_of(from) else {
        return Ok(None);
    };
    match argument_at(alloc, behind(rest, 20), later)? {
        Some(id) => Ok(Some(Command::Search {
            from,
            id: Bytes::of(id.text),
        })),
        None => Ok(None),
    }
}

fn store(alloc: Global, text: &[u8]) -> Result<Option<Command>, AllocError>
    ensures { (uid since : ℕ) (add : Bool) (flags : List (List ℕ)) → IsNonzero32 uid → IsModSeq since → IsFlagSet flags
        → text.now ∷ [] ≡ number uid ⌢ (words " (UNCHANGEDSINCE " ⌢ (number since ⌢ (words ") " ⌢ (sign add ⌢ (words "FLAGS (" ⌢ (line (list_text flags) ⌢ (words ")" ⌢ line crlf)))))))
        → IfOk result (λ found. found ≡ Some (commands.Store uid since add flags)) }
{
    let (uid, rest) = until(text, b' ');
    let Some(uid) = uid_of(uid) else {
        return Ok(None);
    };
    let (since, rest) = until(behind(rest, 16), b')');
    let Some(since) = modseq_of(since) else {
        return Ok(None);
    };
    let add = byte_at(rest, 1) == b'+';
    let (flags, _) = until(behind(rest, 9), b')');
    match flags_of(alloc, flags)? {
        Some(flags) => Ok(Some(Command::Store {
            uid,
            since,
            add,
            flags,
        })),
        None => Ok(None),
    }
}

// A UID, and behind a space a mailbox's name.
fn placed(alloc: Global, text: &[u8]) -> Result<Option<(Uid, BoxName)>, AllocError>
    ensures { (uid : ℕ) (to : List ℕ) → IsNonzero32 uid → IsBoxName to
        → text.now ∷ [] ≡ number uid ⌢ (words " " ⌢ (astring_parts to ⌢ line crlf)) → IfOk result (λ found. MatchOption found ⊥ (λ p. (p.0 ≡ uid) × (p.1 ≡ to))) }
{
    let (uid, rest) = until(text, b' ');
    let Some(uid) = uid_of(uid) else {
        return Ok(None);
    };
    match name(alloc, rest)? {
        Some((to, _)) => Ok(Some((uid, to))),
        None => Ok(None),
    }
}

fn shift(alloc: Global, text: &[u8]) -> Result<Option<Command>, AllocError>
    ensures { (uid : ℕ) (to : List ℕ) → IsNonzero32 uid → IsBoxName to
        → text.now ∷ [] ≡ number uid ⌢ (words " " ⌢ (astring_parts to ⌢ line crlf)) → IfOk result (λ found. found ≡ Some (commands.Shift uid to)) }
{
    match placed(alloc, text)? {
        Some((uid, to)) => Ok(Some(Command::Shift { uid, to })),
        None => Ok(None),
    }
}

fn copy(alloc: Global, text: &[u8]) -> Result<Option<Command>, AllocError>
    ensures { (uid : ℕ) (to : List ℕ) → IsNonzero32 uid → IsBoxName to
        → text.now ∷ [] ≡ number uid ⌢ (words " " ⌢ (astring_parts to ⌢ line crlf)) → IfOk result (λ found. found ≡ Some (commands.Copy uid to)) }
{
    match placed(alloc, text)? {
        Some((uid, to)) => Ok(Some(Command::Copy { uid, to })),
        None => Ok(None),
    }
}

fn expunge(text: &[u8]) -> Option<Command>
    ensures { (uid : ℕ) → IsNonzero32 uid → text.now ≡ decimal uid ++ crlf → result ≡ Some (commands.Expunge uid) }
{
    let (uid, _) = until(text, b'\r');
    match uid_of(uid) {
        Some(uid) => Some(Command::Expunge { uid }),
        None => None,
    }
}

// The text of the message is a literal.
fn append(alloc: Global, text: &[u8], later: &[Bytes]) -> Result<Option<Command>, AllocError>
    ensures { (to : List ℕ) (flags : List (List ℕ)) (octets : List ℕ) (end : List ℕ) (behind : List (List ℕ)) → IsBoxName to → IsFlagSet flags → IsText octets
        → text.now ∷ [] ≡ astring_parts to ⌢ (words " (" ⌢ (line (list_text flags) ⌢ (words ") " ⌢ line (123 ∷ (decimal (length octets) ++ 125 ∷ end)))))
        → later.now ≡ (octets ++ crlf) ∷ [] → IfOk result (λ found. found ≡ Some (commands.Append to flags octets)) }
{
    let Some((to, rest)) = name(alloc, text)? else {
        return Ok(None);
    };
    let (flags, rest) = until(behind(rest, 2), b')');
    let Some(flags) = flags_of(alloc, flags)? else {
        return Ok(None);
    };
    match literal(alloc, behind(rest, 1), later)? {
        Some(literal) => Ok(Some(Command::Append {
            to,
            flags,
            text: Bytes::of(literal.text),
        })),
        None => Ok(None),
    }
}
