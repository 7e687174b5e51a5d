//! Whether a book's pending intent says what is so of its mailbox: the plain way.

ghost use Rattle.std.specs.Prelude.{◌≡◌, IfOk};
ghost use Rattle.std.specs.Bool.{Decides};
ghost use Rattle.std.specs.Option.{option_copied};
ghost use Rattle.action_queue.specs.Book.{meaning};
ghost use Rattle.append_probe.specs.Marked.{IsIdentifier};
ghost use Rattle.append_probe.specs.Question.{append_id};
ghost use Rattle.book_laws.specs.Open as spec;
ghost use Rattle.book_laws.specs.PlainOpen as plain;
ghost use Rattle.book_laws.specs.Sound.{IsSound};

use crate::plain_boxes::{box_in, message_in};
use crate::plain_ids::marked_from;
use crate::plain_once::{deeds_of, gives};
use action_queue::{Action, Book, Intent, Queued};
use imap_model::{Deed, Mailbox, Message, Server};
use mail_base::{BoxName, ModSeq, Validity};
use std::alloc::{AllocError, Global};
use uid_sets::Uid;

/// Whether the pending intent, if there is one, says what is so of its mailbox, with the deeds of its action. Fails for
/// want of memory alone.
pub fn intent_open(alloc: Global, book: &Book, server: &Server) -> Result<bool, AllocError>
    requires { IsSound (meaning book.now) }
    ensures { IfOk result (λ answer. Decides answer (spec.Open (meaning book.now) server.now)) }
{
    pending_holds(alloc, book, server)
}

// Whether the pending intent, if there is one, says what is so.
fn pending_holds(alloc: Global, book: &Book, server: &Server) -> Result<bool, AllocError>
    requires { plain.HasGoodId (meaning book.now) }
    ensures { IfOk result (λ answer. answer ≡ plain.open_holds (meaning book.now) server.now) }
{
    let Some(intent) = &book.pending else {
        return Ok(true);
    };
    let Some(queued) = book.queue.due() else {
        return Ok(true);
    };
    due_holds(alloc, book, queued, intent, server)
}

// Whether an intent of the action that is due says what is so.
fn due_holds(
    alloc: Global,
    book: &Book,
    queued: &Queued,
    intent: &Intent,
    server: &Server,
) -> Result<bool, AllocError>
    requires { plain.NeedsId queued.now.action intent.now }
    ensures { IfOk result (λ answer. answer ≡ plain.open_at (meaning book.now) server.now intent.now queued.now) }
{
    let due = book.queue.settled() as u32 + 1;
    let mine = deeds_of(alloc, server.history.as_slice(), due)?;
    holds_in(
        alloc,
        &queued.action,
        mine.as_slice(),
        intent,
        server.boxes.as_slice(),
    )
}

// Whether the intent of an action with these deeds says what is so.
fn holds_in(
    alloc: Global,
    action: &Action,
    mine: &[Deed],
    intent: &Intent,
    boxes: &[Mailbox],
) -> Result<bool, AllocError>
    requires { plain.NeedsId action.now intent.now }
    ensures { IfOk result (λ answer. answer ≡ plain.holds_at action.now mine.now intent.now boxes.now) }
{
    let Some(mailbox) = box_in(boxes, name_of(intent)) else {
        return Ok(false);
    };
    let validity = validity_of(intent);
    if validity.number() > mailbox.validity.number() {
        return Ok(false);
    }
    if mailbox.validity.number() != validity.number() {
        return Ok(true);
    }
    intent_holds(alloc, action, mine, intent, mailbox)
}

// The UIDVALIDITY that it names.
fn validity_of(intent: &Intent) -> Validity
    ensures { result ≡ spec.intent_validity intent.now }
{
    match intent {
        Intent::Store { validity, .. }
        | Intent::Shift { validity, .. }
        | Intent::Put { validity, .. } => *validity,
    }
}

// The mailbox that an intent speaks of.
fn name_of(intent: &Intent) -> &BoxName
    ensures { result.now ≡ spec.intent_name intent.now }
{
    match intent {
        Intent::Store { name, .. } => name,
        Intent::Shift { from, .. } => from,
        Intent::Put { to, .. } => to,
    }
}

// Whether an intent of an action with these deeds says what is so of a mailbox.
fn intent_holds(
    alloc: Global,
    action: &Action,
    mine: &[Deed],
    intent: &Intent,
    mailbox: &Mailbox,
) -> Result<bool, AllocError>
    requires { plain.NeedsId action.now intent.now }
    ensures { IfOk result (λ answer. answer ≡ plain.intent_holds action.now mine.now intent.now mailbox.now) }
{
    match intent {
        Intent::Store { uid, modseq, .. } => Ok(store_holds(*uid, *modseq, mine, mailbox)),
        Intent::Shift { uid, .. } => Ok(shift_holds(*uid, mine, mailbox)),
        Intent::Put {
            validity,
            uidnext,
            ..
        } => put_holds(alloc, append_id(action), *uidnext, *validity, mine, mailbox),
    }
}

// The identifier of an append.
fn append_id(action: &Action) -> &[u8]
    ensures { result.now ≡ append_id action.now }
{
    match action {
        Action::Flag { .. } | Action::Move { .. } => &[],
        Action::Append { id, .. } => id.as_slice(),
    }
}

// Whether the intent of an append of this identifier says what is so.
fn put_holds(
    alloc: Global,
    id: &[u8],
    uidnext: Uid,
    validity: Validity,
    mine: &[Deed],
    mailbox: &Mailbox,
) -> Result<bool, AllocError>
    requires { IsIdentifier id.now }
    ensures { IfOk result (λ answer. answer ≡ plain.put_holds id.now uidnext validity mine.now mailbox.now) }
{
    if uidnext.number() > mailbox.uidnext.number() {
        return Ok(false);
    }
    let uids = marked_from(alloc, uidnext, id, mailbox.messages.as_slice())?;
    Ok(gave(uids.as_slice(), mine) && all_received(validity, mine))
}

// Whether the deeds put messages under this UIDVALIDITY.
fn all_received(validity: Validity, mine: &[Deed]) -> bool
    ensures { result ≡ plain.all_received validity mine.now }
{
    let mut rest = mine;
    while let Some((deed, behind)) = rest.split_first() {
        if deed.received.number() != validity.number() {
            return false;
        }
        rest = behind;
    }
    true
}

// Whether the deeds gave these UIDs.
fn gave(uids: &[Uid], mine: &[Deed]) -> bool
    ensures { result ≡ plain.gave uids.now mine.now }
{
    let mut left = uids;
    let mut rest = mine;
    while let Some((deed, behind)) = rest.split_first() {
        let Some((uid, others)) = left.split_first() else {
            return false;
        };
        if !gives(*uid, &deed.change) {
            return false;
        }
        left = others;
        rest = behind;
    }
    left.is_empty()
}

// Whether a move's intent says what is so.
fn shift_holds(uid: Uid, mine: &[Deed], mailbox: &Mailbox) -> bool
    ensures { result ≡ plain.shift_holds uid mine.now mailbox.now }
{
    uid.number() < mailbox.uidnext.number()
        && (mine.is_empty() || is_absent(message_in(mailbox.messages.as_slice(), uid)))
}

// Whether the message isn't there.
fn is_absent(found: Option<&Message>) -> bool
    ensures { result ≡ plain.not_there (option_copied found.entry) }
{
    match found {
        None => true,
        Some(_) => false,
    }
}

// Whether a store's intent says what is so.
fn store_holds(uid: Uid, modseq: ModSeq, mine: &[Deed], mailbox: &Mailbox) -> bool
    ensures { result ≡ plain.store_holds uid modseq mine.now mailbox.now }
{
    modseq.number() <= mailbox.highest.number()
        && uid.number() < mailbox.uidnext.number()
        && (mine.is_empty() || row_above(modseq, message_in(mailbox.messages.as_slice(), uid)))
}

// Whether the message isn't there, or has a mod-sequence above this one.
fn row_above(modseq: ModSeq, found: Option<&Message>) -> bool
    ensures { result ≡ plain.row_above modseq (option_copied found.entry) }
{
    match found {
        None => true,
        Some(message) => modseq.number() < message.modseq.number(),
    }
}
