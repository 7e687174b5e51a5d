//! The queue, as it is printed.

ghost use Rattle.std.specs.Prelude.{◌≡◌, ◌++◌, IfOk, OnOk};
ghost use Rattle.action_queue.specs.Book.{meaning};
ghost use Rattle.conflict_report.specs.QueueLines.{action_text, change_text, ident_text, is_begun, line_unless, queue_line, name_text, queue_text, state_text, target_text};
ghost use Rattle.std.specs.Option.{option_copied};

use crate::writing::{put_keys, put_number};
use action_queue::{Action, Book, Queued, Target};
use dummy_ids::box_of;
use flag_set::FlagSet;
use mail_base::{ActionId, BoxName, Bytes};
use std::alloc::{AllocError, Global};

/// The queue, a line for each unsettled action in order: `n waiting`, or `n begun` where an intent is pending for it, and then
/// ` flag BOX ID + KEY ..` (or `-`), ` move BOX ID TO` or ` append TO MESSAGE-ID`. BOX and ID are as the target names them, also
/// where a dummy has its UID by now; BOX of a dummy is the mailbox that its action names, and empty where no
/// action makes it, which no book has that takes lawful events alone. Fails for want of memory alone.
pub fn queue_text(alloc: Global, book: &Book) -> Result<Bytes, AllocError>
    ensures { IfOk result (λ text. text ≡ queue_text (meaning book.now)) }
{
    // A queue has at most a million actions, so each place has a number.
    let _most = book.queue.len();
    let mut text = Vec::new(alloc);
    for (at, queued) in book.queue.as_slice().iter().enumerate() {
        if let Some(id) = ActionId::new(at as u32 + 1) {
            put_unless(&mut text, book, id, queued)?;
        }
    }
    Ok(Bytes::of(text))
}

// Adds the line of an action, unless it is settled.
fn put_unless(
    text: &mut Vec<u8>,
    book: &Book,
    id: ActionId,
    queued: &Queued,
) -> Result<(), AllocError>
    ensures { OnOk result (text.new.items ≡ text.old.items ++ line_unless (meaning book.now) id queued.now.action queued.now.outcome) }
{
    if queued.outcome.is_some() {
        return Ok(());
    }
    put_line(text, book, id, &queued.action)
}

// Adds the line of an unsettled action.
fn put_line(
    text: &mut Vec<u8>,
    book: &Book,
    id: ActionId,
    action: &Action,
) -> Result<(), AllocError>
    ensures { OnOk result (text.new.items ≡ text.old.items ++ queue_line (meaning book.now) id action.now) }
{
    put_number(text, u64::from(id.number()))?;
    text.extend_from_slice(state_text(book, id))?;
    put_action(text, book, action)?;
    text.push(b'\n')?;
    Ok(())
}

/// The state of an unsettled action: ` waiting`, or ` begun` where its command may have been sent.
pub fn state_text(book: &Book, id: ActionId) -> &'static [u8]
    ensures { result.now ≡ state_text (is_begun (meaning book.now) id) }
{
    if is_begun(book, id) {
        b" begun"
    } else {
        b" waiting"
    }
}

// Whether the action is the one that is due, and an intent is pending for it.
fn is_begun(book: &Book, id: ActionId) -> bool
    ensures { result ≡ is_begun (meaning book.now) id }
{
    book.pending.is_some() && id.number() as usize == book.queue.settled() + 1
}

/// Adds what an action asks for, behind a space: ` flag BOX ID + KEY ..` (or `-`), ` move BOX ID TO` or ` append TO MESSAGE-ID`.
/// Fails for want of memory alone.
#[tactic(auto, unfolding(crate::specs::QueueLines::action_text))]
pub fn put_action(text: &mut Vec<u8>, book: &Book, action: &Action) -> Result<(), AllocError>
    ensures { OnOk result (text.new.items ≡ text.old.items ++ action_text book.now.queue.items action.now) }
{
    match action {
        Action::Flag { target, add, flags } => {
            text.extend_from_slice(b" flag")?;
            put_target(text, book, target)?;
            put_change(text, *add, flags)
        }
        Action::Move { target, to } => {
            text.extend_from_slice(b" move")?;
            put_target(text, book, target)?;
            text.push(b' ')?;
            text.extend_from_slice(to.as_bytes())
        }
        Action::Append { to, id, .. } => {
            text.extend_from_slice(b" append ")?;
            text.extend_from_slice(to.as_bytes())?;
            text.push(b' ')?;
            text.extend_from_slice(id.as_slice())
        }
    }
}

// Adds a target's mailbox and message.
#[tactic(auto, unfolding(crate::specs::QueueLines::target_text))]
fn put_target(text: &mut Vec<u8>, book: &Book, target: &Target) -> Result<(), AllocError>
    ensures { OnOk result (text.new.items ≡ text.old.items ++ target_text book.now.queue.items target.now) }
{
    text.push(b' ')?;
    put_name(text, box_of(book, target))?;
    text.push(b' ')?;
    put_ident(text, target)
}

// Adds the name of a mailbox, where there is one.
fn put_name(text: &mut Vec<u8>, name: Option<&BoxName>) -> Result<(), AllocError>
    ensures { OnOk result (text.new.items ≡ text.old.items ++ name_text (option_copied name.entry)) }
{
    match name {
        Some(name) => text.extend_from_slice(name.as_bytes()),
        None => Ok(()),
    }
}

// Adds a message, as the target names it.
fn put_ident(text: &mut Vec<u8>, target: &Target) -> Result<(), AllocError>
    ensures { OnOk result (text.new.items ≡ text.old.items ++ ident_text target.now) }
{
    match target {
        Target::Real { uid, .. } => put_number(text, u64::from(uid.number())),
        Target::Dummy(id) => {
            text.push(b'd')?;
            put_number(text, u64::from(id.number()))
        }
    }
}

// Adds the flags that are to be added or taken away.
#[tactic(auto, unfolding(crate::specs::QueueLines::change_text))]
fn put_change(text: &mut Vec<u8>, add: bool, flags: &FlagSet) -> Result<(), AllocError>
    ensures { OnOk result (text.new.items ≡ text.old.items ++ change_text add flags.now) }
{
    text.extend_from_slice(if add { b" +" } else { b" -" })?;
    put_keys(text, flags.keys())
}
