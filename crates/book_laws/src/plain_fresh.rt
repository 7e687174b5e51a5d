//! Whether each cache of a book knows its mailbox up to its mark: the plain way, which looks at each message and each row.

ghost use Rattle.std.specs.Prelude.{◌≡◌, IfOk};
ghost use Rattle.std.specs.Bool.{Decides};
ghost use Rattle.std.specs.List.{list_all};
ghost use Rattle.std.specs.Option.{option_copied};
ghost use Rattle.flag_set.specs.FlagKey.{recent};
ghost use Rattle.imap_model.specs.ToldRows.{told_flags};
ghost use Rattle.imap_model.specs.WellFormed.{IsWellFormed};
ghost use Rattle.action_queue.specs.Book.{cache_of, meaning};
ghost use Rattle.book_laws.specs.Fresh.{Fresh};
ghost use Rattle.book_laws.specs.PlainFresh as plain;
ghost use Rattle.book_laws.specs.PlainOpen.{holds_in};

use crate::plain_boxes::{box_in, gone_in, message_in};
use action_queue::{Book, Known};
use flag_set::{FlagKey, FlagSet};
use imap_model::{Mailbox, Message, Server};
use mail_base::{BoxName, ModSeq};
use mailbox_cache::{Cache, Row};
use std::alloc::{AllocError, Global};
use uid_sets::Uid;

/// Whether each cache of the book is of its mailbox's UIDVALIDITY and knows the mailbox up to its mark: a message that
/// didn't change above it has its row, and a row's message that isn't there went above it. Fails for want of memory
/// alone.
pub fn caches_fresh(alloc: Global, book: &Book, server: &Server) -> Result<bool, AllocError>
    requires { IsWellFormed server.now.boxes }
    ensures { IfOk result (λ answer. Decides answer (Fresh (meaning book.now) server.now.boxes)) }
{
    all_fresh(alloc, book, server)
}

// Whether each cache of the book knows its mailbox.
fn all_fresh(alloc: Global, book: &Book, server: &Server) -> Result<bool, AllocError>
    ensures { IfOk result (λ answer. answer ≡ plain.fresh_holds (meaning book.now) server.now.boxes) }
{
    are_fresh(alloc, book, book.boxes.as_slice(), server.boxes.as_slice())
}

// Whether that is so of each of these mailboxes of a book.
fn are_fresh(
    alloc: Global,
    book: &Book,
    known: &[Known],
    boxes: &[Mailbox],
) -> Result<bool, AllocError>
    ensures { IfOk result (λ answer. answer ≡ plain.fresh_among (meaning book.now) boxes.now known.now) }
{
    let mut rest = known;
    while let Some((one, behind)) = rest.split_first() {
        if !is_fresh_for(alloc, boxes, &one.name, book.known(&one.name))? {
            return Ok(false);
        }
        rest = behind;
    }
    Ok(true)
}

// Whether that is so of what a name has.
fn is_fresh_for(
    alloc: Global,
    boxes: &[Mailbox],
    name: &BoxName,
    kept: Option<&Known>,
) -> Result<bool, AllocError>
    ensures { IfOk result (λ answer. answer ≡ plain.fresh_for name.now boxes.now (cache_of (option_copied kept.entry))) }
{
    let Some(known) = kept else {
        return Ok(true);
    };
    match &known.cache {
        None => Ok(true),
        Some(cache) => is_fresh_in(alloc, cache, box_in(boxes, name)),
    }
}

// Whether the cache is of the mailbox's UIDVALIDITY, and knows it.
fn is_fresh_in(alloc: Global, cache: &Cache, found: Option<&Mailbox>) -> Result<bool, AllocError>
    ensures { IfOk result (λ answer. answer ≡ holds_in (plain.is_fresh cache.now) cache.now.validity (option_copied found.entry)) }
{
    match found {
        None => Ok(false),
        Some(mailbox) => {
            if cache.validity.number() > mailbox.validity.number() {
                return Ok(false);
            }
            if mailbox.validity.number() != cache.validity.number() {
                return Ok(true);
            }
            is_fresh(alloc, cache, mailbox)
        }
    }
}

// Whether the cache knows the mailbox up to its mark.
fn is_fresh(alloc: Global, cache: &Cache, mailbox: &Mailbox) -> Result<bool, AllocError>
    ensures { IfOk result (λ answer. answer ≡ plain.is_fresh cache.now mailbox.now) }
{
    if cache.highest.number() > mailbox.highest.number() {
        return Ok(false);
    }
    if !knows_all(alloc, cache, mailbox.messages.as_slice())? {
        return Ok(false);
    }
    Ok(accounts_for_all(cache, mailbox))
}

// Whether that is so of each row.
fn accounts_for_all(cache: &Cache, mailbox: &Mailbox) -> bool
    ensures { result ≡ list_all (plain.accounts_for cache.now mailbox.now) cache.now.rows }
{
    let mut rest = cache.rows.as_slice();
    while let Some((row, behind)) = rest.split_first() {
        if !accounts_for(cache, mailbox, row.0) {
            return false;
        }
        rest = behind;
    }
    true
}

// Whether the message of a row's UID is there, or went above the mark.
fn accounts_for(cache: &Cache, mailbox: &Mailbox, uid: Uid) -> bool
    ensures { result ≡ plain.accounts_for_uid cache.now mailbox.now uid }
{
    message_in(mailbox.messages.as_slice(), uid).is_some()
        || went_above(cache.highest, gone_in(mailbox.gone.as_slice(), uid))
}

// Whether a UID went above the mark.
fn went_above(mark: ModSeq, went: Option<ModSeq>) -> bool
    ensures { result ≡ plain.went_above mark went }
{
    match went {
        None => false,
        Some(went) => mark.number() < went.number(),
    }
}

// Whether that is so of each message.
fn knows_all(alloc: Global, cache: &Cache, messages: &[Message]) -> Result<bool, AllocError>
    ensures { IfOk result (λ answer. answer ≡ list_all (plain.knows_message cache.now) messages.now) }
{
    let mut rest = messages;
    while let Some((message, behind)) = rest.split_first() {
        if !knows_message(alloc, cache, message)? {
            return Ok(false);
        }
        rest = behind;
    }
    Ok(true)
}

// Whether a message that didn't change above the mark has its row.
fn knows_message(alloc: Global, cache: &Cache, message: &Message) -> Result<bool, AllocError>
    ensures { IfOk result (λ answer. answer ≡ plain.knows_message cache.now message.now) }
{
    if message.modseq.number() > cache.highest.number() {
        return Ok(true);
    }
    let flags = told_of(alloc, &message.flags)?;
    Ok(is_row(&flags, message.modseq, cache.rows.get(message.uid)))
}

// The flags without it.
fn told_of(alloc: Global, flags: &FlagSet) -> Result<FlagSet, AllocError>
    ensures { IfOk result (λ left. left ≡ told_flags flags.now) }
{
    let mut session = FlagSet::none(alloc);
    session.add(recent_key(alloc)?)?;
    let left = flags.without(&session)?;
    Ok(left)
}

// The flag that belongs to a session and to no message.
fn recent_key(alloc: Global) -> Result<FlagKey, AllocError>
    ensures { IfOk result (λ key. key ≡ recent) }
{
    FlagKey::new(alloc, b"\\Recent").map_err(|_| AllocError)
}

// Whether the row is that of a message with these flags and this mod-sequence.
fn is_row(flags: &FlagSet, modseq: ModSeq, row: Option<&Row>) -> bool
    ensures { result ≡ plain.is_row (record { flags = flags.now; modseq = modseq }) (option_copied row.entry) }
{
    match row {
        None => false,
        Some(row) => row.flags == *flags && row.modseq.number() == modseq.number(),
    }
}
