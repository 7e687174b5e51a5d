//! Whether each action took effect as often as a book says: the plain way, which looks at each deed and at each action.

ghost use Rattle.std.specs.Prelude.{◌≡◌, ◌<◌, IfOk};
ghost use Rattle.std.specs.Bool.{Decides};
ghost use Rattle.std.specs.List.{list_all};
ghost use Rattle.std.specs.Option.{option_copied};
ghost use Rattle.imap_model.specs.Ours.{is_number, is_ours, ours};
ghost use Rattle.imap_model.specs.declared.deed.Deed.{Deed};
ghost use Rattle.action_queue.specs.Book.{meaning};
ghost use Rattle.action_queue.specs.Targets.{is_at};
ghost use Rattle.action_queue.specs.declared.action.Action.TheVariants as actions;
ghost use Rattle.book_laws.specs.Once.{is_unsure, new_uid};
ghost use Rattle.book_laws.specs.PlainOnce as plain;
ghost use Rattle.book_laws.specs.Table.{OnceByAction, intent_of};

use action_queue::{Action, Book, Found, Intent, Kind, Outcome, Place, Queued, Target};
use flag_set::FlagSet;
use imap_model::{Author, Change, Deed, Server};
use mail_base::{BoxName, Bytes, List, Validity};
use std::alloc::{AllocError, Global};
use uid_sets::Uid;

/// Whether each deed of this client is by an action of the book, and each action has as many as the book says: none
/// before its intent, at most one from there on, and as its outcome says once it is settled. It looks at each deed once
/// for each action. Fails for want of memory alone.
pub fn counts_right(alloc: Global, book: &Book, server: &Server) -> Result<bool, AllocError>
    ensures { IfOk result (λ answer. Decides answer (OnceByAction (meaning book.now) server.now.history)) }
{
    counted(alloc, book, server)
}

// Whether each deed is owned, and each action has as many as the book says.
fn counted(alloc: Global, book: &Book, server: &Server) -> Result<bool, AllocError>
    ensures { IfOk result (λ answer. answer ≡ plain.once_holds (meaning book.now) server.now.history) }
{
    let history = server.history.as_slice();
    if !all_owned(book, history) {
        return Ok(false);
    }
    rows_fit(alloc, book, history)
}

// Whether each action has.
fn rows_fit(alloc: Global, book: &Book, history: &[Deed]) -> Result<bool, AllocError>
    ensures { IfOk result (λ answer. answer ≡ plain.rows_fit (meaning book.now) history.now 0 (meaning book.now).queue) }
{
    let most = book.queue.len();
    let mut place = 0;
    let mut rest = book.queue.as_slice();
    while let Some((queued, behind)) = rest.split_first() {
        if !place_fits(alloc, book, history, place, queued)? {
            return Ok(false);
        }
        place += 1;
        rest = behind;
    }
    Ok(true)
}

// Whether the action in this place has as many deeds as the book says.
fn place_fits(
    alloc: Global,
    book: &Book,
    history: &[Deed],
    place: u32,
    queued: &Queued,
) -> Result<bool, AllocError>
    requires { place < 1000000 }
    ensures { IfOk result (λ answer. answer ≡ plain.place_fits (meaning book.now) history.now place queued.now) }
{
    let mine = deeds_of(alloc, history, place + 1)?;
    let intent = intent_at(book, place as usize);
    Ok(row_fits(intent, &queued.outcome, mine.as_slice()))
}

// The pending intent, where it is that of the action in this place.
fn intent_at(book: &Book, place: usize) -> Option<&Intent>
    ensures { option_copied result ≡ intent_of (meaning book.now) place }
{
    if place == book.queue.settled() {
        book.pending.as_ref()
    } else {
        None
    }
}

// Whether an action with this intent and this outcome has so many deeds.
fn row_fits(intent: Option<&Intent>, outcome: &Option<Outcome>, mine: &[Deed]) -> bool
    ensures { result ≡ plain.row_fits (option_copied intent.entry) outcome.now mine.now }
{
    match outcome {
        Some(outcome) => fits(outcome, mine),
        None => match intent {
            None => mine.is_empty(),
            Some(_) => mine.len() <= 1,
        },
    }
}

// Whether an action's deeds fit its outcome.
fn fits(outcome: &Outcome, mine: &[Deed]) -> bool
    ensures { result ≡ plain.fits outcome.now mine.now }
{
    match outcome {
        Outcome::Done { place } => is_one(place, mine),
        Outcome::Conflict(kind) => {
            if leaves_open(*kind) {
                mine.len() <= 1
            } else {
                mine.is_empty()
            }
        }
    }
}

// Whether the kind leaves open whether the action took effect.
fn leaves_open(kind: Kind) -> bool
    ensures { result ≡ is_unsure kind }
{
    match kind {
        Kind::FoundSo
        | Kind::StoreUnsure { .. }
        | Kind::SourceGone
        | Kind::GoneAfterLoss
        | Kind::Ambiguous { .. }
        | Kind::ResetAfterLoss { .. } => true,
        Kind::MessageGone
        | Kind::AlreadySo
        | Kind::FlagsChanged { .. }
        | Kind::RefusedNo
        | Kind::RefusedBad
        | Kind::NotPermanent
        | Kind::TargetUnknown { .. }
        | Kind::ValidityChanged { .. } => false,
    }
}

// Whether there is one deed, with this place.
fn is_one(place: &Option<Place>, mine: &[Deed]) -> bool
    ensures { result ≡ plain.is_one place.now mine.now }
{
    match mine.split_first() {
        None => false,
        Some((deed, others)) => others.is_empty() && is_place(place, deed),
    }
}

// Whether the place is where the deed put the message.
fn is_place(place: &Option<Place>, deed: &Deed) -> bool
    ensures { result ≡ plain.is_place place.now deed.now }
{
    match place {
        None => true,
        Some(place) => {
            place.validity.number() == deed.received.number() && gives(place.uid, &deed.change)
        }
    }
}

// Whether the change gives a message this UID.
pub(crate) fn gives(uid: Uid, change: &Change) -> bool
    ensures { result ≡ is_number uid (new_uid change.now) }
{
    match change {
        Change::Add { uid: new, .. } | Change::Shift { new, .. } => new.number() == uid.number(),
        Change::SetFlags { .. } | Change::Drop { .. } | Change::Reset { .. } => false,
    }
}

// The deeds of the action of this number.
pub(crate) fn deeds_of(
    alloc: Global,
    history: &[Deed],
    number: u32,
) -> Result<List<Deed>, AllocError>
    ensures { IfOk result (λ mine. mine ≡ ours number history.now) }
{
    let mut mine = List::new(alloc);
    let mut rest = history;
    while let Some((deed, behind)) = rest.split_first() {
        if is_mine(number, deed.author) {
            mine.push(deed.copy()?)?;
        }
        rest = behind;
    }
    Ok(mine)
}

// Whether the change is that of the action of this number.
fn is_mine(number: u32, author: Author) -> bool
    ensures { result ≡ is_ours number author }
{
    match author {
        Author::Other => false,
        Author::Ours(tag) => match tag.action() {
            None => false,
            Some(other) => other == number,
        },
    }
}

// Whether that is so of each deed.
fn all_owned(book: &Book, history: &[Deed]) -> bool
    ensures { result ≡ list_all (λ (d : Deed). plain.is_owned (meaning book.now).queue d d.author) history.now }
{
    history.iter().all(|deed| is_owned(book, deed))
}

// Whether the deed is another's, or what an action of the queue wants.
fn is_owned(book: &Book, deed: &Deed) -> bool
    ensures { result ≡ plain.is_owned (meaning book.now).queue deed.now deed.now.author }
{
    match deed.author {
        Author::Other => true,
        Author::Ours(tag) => is_of_number(book, deed, tag.action()),
    }
}

// Whether the deed is what the action of a tag's number wants.
fn is_of_number(book: &Book, deed: &Deed, number: Option<u32>) -> bool
    ensures { result ≡ plain.is_of_number (meaning book.now).queue deed.now number }
{
    match number {
        None | Some(0) => false,
        Some(number) => match book.queue.as_slice().get(number as usize - 1) {
            None => false,
            Some(queued) => is_wanted(book, &queued.action, deed),
        },
    }
}

// Whether the deed is what an action wants.
fn is_wanted(book: &Book, action: &Action, deed: &Deed) -> bool
    ensures { result ≡ plain.is_wanted (meaning book.now).queue action.now deed.now.name deed.now.validity deed.now.change }
{
    match action {
        Action::Flag { target, add, flags } => is_flagged(book, target, *add, flags, deed),
        Action::Move { target, to } => is_moved(book, target, to, deed),
        Action::Append {
            to,
            flags,
            text,
            ..
        } => is_added(to, flags, text, deed),
    }
}

// Whether the deed is what an append to this mailbox wants.
fn is_added(to: &BoxName, flags: &FlagSet, text: &Bytes, deed: &Deed) -> bool
    ensures { result ≡ plain.is_added to.now flags.now text.now deed.now.name deed.now.change }
{
    match &deed.change {
        Change::Add {
            flags: others,
            text: content,
            ..
        } => { deed.name == *to && *others == *flags && content.as_slice() == text.as_slice() }
        Change::SetFlags { .. }
        | Change::Drop { .. }
        | Change::Shift { .. }
        | Change::Reset { .. } => false,
    }
}

// Whether the deed is what a move wants.
fn is_moved(book: &Book, target: &Target, to: &BoxName, deed: &Deed) -> bool
    ensures { result ≡ plain.is_wanted (meaning book.now).queue (actions.Move target.now to.now) deed.now.name deed.now.validity deed.now.change }
{
    match &deed.change {
        Change::Shift { uid, to: other, .. } => {
            is_found_at(&book.resolved(target), &deed.name, deed.validity, *uid) && *other == *to
        }
        Change::Add { .. } | Change::SetFlags { .. } | Change::Drop { .. } | Change::Reset { .. } =>
            false,
    }
}

// Whether the deed is what a flag action wants.
fn is_flagged(book: &Book, target: &Target, add: bool, asked: &FlagSet, deed: &Deed) -> bool
    ensures { result ≡ plain.is_wanted (meaning book.now).queue (actions.Flag target.now add asked.now) deed.now.name
        deed.now.validity deed.now.change }
{
    match &deed.change {
        Change::SetFlags { uid, flags } => {
            is_found_at(&book.resolved(target), &deed.name, deed.validity, *uid)
                && is_asked(add, asked, flags)
        }
        Change::Add { .. } | Change::Drop { .. } | Change::Shift { .. } | Change::Reset { .. } =>
            false,
    }
}

// Whether the flags hold all of the asked ones, or none of them.
fn is_asked(add: bool, asked: &FlagSet, flags: &FlagSet) -> bool
    ensures { result ≡ plain.is_asked add asked.now flags.now }
{
    if add {
        flags.holds_all(asked)
    } else {
        flags.holds_none(asked)
    }
}

// Whether a target resolved to this message of this mailbox.
fn is_found_at(found: &Found, at: &BoxName, under: Validity, number: Uid) -> bool
    ensures { result ≡ is_at found.now at.now under number }
{
    match found {
        Found::Real {
            name,
            validity,
            uid,
        } => *name == *at && validity.number() == under.number() && uid.number() == number.number(),
        Found::NotYet { .. } | Found::Never { .. } => false,
    }
}
