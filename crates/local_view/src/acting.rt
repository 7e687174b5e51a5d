//! What each unsettled action changes of what the user sees.

ghost use Rattle.std.specs.Prelude.{◌≡◌, ℕ, OnOk, IfOk};
ghost use Rattle.action_queue.specs.Book.{meaning};
ghost use Rattle.action_queue.specs.Targets.{resolved};
ghost use Rattle.local_view.specs.Messages.{message_of};
ghost use Rattle.local_view.specs.Sights.{Sights, acted, acted_unless, cached, flagged_at, moved_at, seen, turned};
ghost use Rattle.local_view.specs.Touching.{seen_so_far, AreSame};

use crate::message::message_of;
use crate::touched::Touched;
use action_queue::{Action, Book, Queued, Target};
use flag_set::FlagSet;
use mail_base::ActionId;
use std::alloc::{AllocError, Global};

/// What the unsettled actions touched and made, one after another. Fails for want of memory alone.
pub(crate) fn touched_by(alloc: Global, book: &Book) -> Result<Touched, AllocError>
    ensures { IfOk result (λ touched. AreSame (seen_so_far book.now.boxes touched) (seen (meaning book.now))) }
{
    // A queue has at most 1,000,000 actions, as its length tells, so each number fits.
    let _count = book.queue.len();
    let mut touched = Touched::new(alloc);
    for (at, queued) in book.queue.as_slice().iter().enumerate() {
        let Some(id) = ActionId::new(at as u32 + 1) else {
            continue;
        };
        act_unless(book, &mut touched, id, queued)?;
    }
    Ok(touched)
}

// An action has its effect, unless it is settled.
fn act_unless(
    book: &Book,
    touched: &mut Touched,
    id: ActionId,
    queued: &Queued,
) -> Result<(), AllocError>
    ensures { OnOk result (AreSame (seen_so_far book.now.boxes touched.new)
        (acted_unless (meaning book.now) id queued.now.action queued.now.outcome (seen_so_far book.now.boxes touched.old))) }
{
    match queued.outcome {
        Some(_) => Ok(()),
        None => act(book, touched, id, &queued.action),
    }
}

// An action has its effect.
fn act(book: &Book, touched: &mut Touched, id: ActionId, action: &Action) -> Result<(), AllocError>
    ensures { OnOk result (AreSame (seen_so_far book.now.boxes touched.new)
        (acted (meaning book.now) id action.now (seen_so_far book.now.boxes touched.old))) }
{
    match action {
        Action::Flag { target, add, flags } => turn(book, touched, target, *add, flags),
        Action::Move { target, .. } => shift(book, touched, id, target),
        Action::Append { flags, .. } => {
            let flags = flags.copy()?;
            touched.make(id, flags)
        }
    }
}

// Where the message is there, its flags become those with, or without, the asked ones.
fn turn(
    book: &Book,
    touched: &mut Touched,
    target: &Target,
    add: bool,
    asked: &FlagSet,
) -> Result<(), AllocError>
    ensures { OnOk result (AreSame (seen_so_far book.now.boxes touched.new)
        (flagged_at add asked.now (message_of book.now.boxes (resolved book.now.queue.items target.now)) (seen_so_far book.now.boxes touched.old))) }
{
    let boxes = book.boxes.as_slice();
    let Some(message) = message_of(book, target) else {
        return Ok(());
    };
    let Some(flags) = touched.flags(boxes, &message) else {
        return Ok(());
    };
    let flags = turned(flags, add, asked)?;
    touched.turn(boxes, &message, flags)
}

// The flags with, or without, the asked ones.
fn turned(flags: &FlagSet, add: bool, asked: &FlagSet) -> Result<FlagSet, AllocError>
    ensures { IfOk result (λ set. set ≡ turned add asked.now flags.now) }
{
    if add {
        flags.with(asked)
    } else {
        flags.without(asked)
    }
}

// Where the message is there, it is taken away, and the one that the action makes is there with its flags.
fn shift(
    book: &Book,
    touched: &mut Touched,
    id: ActionId,
    target: &Target,
) -> Result<(), AllocError>
    ensures { OnOk result (AreSame (seen_so_far book.now.boxes touched.new)
        (moved_at id (message_of book.now.boxes (resolved book.now.queue.items target.now)) (seen_so_far book.now.boxes touched.old))) }
{
    let boxes = book.boxes.as_slice();
    let Some(message) = message_of(book, target) else {
        return Ok(());
    };
    let Some(flags) = touched.flags(boxes, &message) else {
        return Ok(());
    };
    let flags = flags.copy()?;
    touched.take(boxes, &message)?;
    touched.make(id, flags)
}
