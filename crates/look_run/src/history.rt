//! The history: each action with how it stands.

ghost use Rattle.std.specs.Prelude.{◌≡◌, ◌++◌, IfOk, OnOk};
ghost use Rattle.action_queue.specs.Book.{meaning};
ghost use Rattle.look_run.specs.HistoryText.{conflict_text, end_text, history_line, history_text, place_text};

use action_queue::{Book, Kind, Outcome, Place, Queued};
use conflict_report::{effect_text, kind_text, put_action, put_number, put_numbers, state_text};
use mail_base::{ActionId, Bytes};
use mail_top::Show;
use std::alloc::{AllocError, Global};

/// The text of the history.
#[derive(Clone, Copy)]
pub struct History;

impl Show for History {
    ghost use Rattle.std.specs.Prelude.{◌≡◌};
    ghost use Rattle.look_run.specs.HistoryText.{history_text};

    type Shown = Bytes;

    ghost fits = { λ history book text. text ≡ history_text book };

    fn shown(&self, alloc: Global, book: &Book) -> Result<Bytes, AllocError> {
        history_text(alloc, book)
    }
}

/// The history, a line for each action in order: its number, how it stands, and what it asks for, as `queue` prints it. It stands
/// as `waiting` or `begun`; as `done`, with UIDVALIDITY and UID of the message that it made, where it made one; or as `nothing` or
/// `unsure` with the conflict's name and numbers, as `report` prints them. Fails for want of memory alone.
pub fn history_text(alloc: Global, book: &Book) -> Result<Bytes, AllocError>
    ensures { IfOk result (λ text. text ≡ history_text (meaning book.now)) }
{
    // A queue has at most a million actions, so each place has a number.
    let _most = book.queue.len();
    let mut text = Vec::new(alloc);
    for (at, queued) in book.queue.as_slice().iter().enumerate() {
        if let Some(id) = ActionId::new(at as u32 + 1) {
            put_line(&mut text, book, id, queued)?;
        }
    }
    Ok(Bytes::of(text))
}

// Adds the line of an action.
fn put_line(
    text: &mut Vec<u8>,
    book: &Book,
    id: ActionId,
    queued: &Queued,
) -> Result<(), AllocError>
    ensures { OnOk result (text.new.items ≡ text.old.items ++ history_line (meaning book.now) id queued.now) }
{
    put_number(text, u64::from(id.number()))?;
    put_end(text, book, id, &queued.outcome)?;
    put_action(text, book, &queued.action)?;
    text.push(b'\n')?;
    Ok(())
}

// Adds how an action stands.
fn put_end(
    text: &mut Vec<u8>,
    book: &Book,
    id: ActionId,
    outcome: &Option<Outcome>,
) -> Result<(), AllocError>
    ensures { OnOk result (text.new.items ≡ text.old.items ++ end_text (meaning book.now) id outcome.now) }
{
    match outcome {
        None => text.extend_from_slice(state_text(book, id)),
        Some(Outcome::Done { place }) => {
            text.extend_from_slice(b" done")?;
            put_place(text, place)
        }
        Some(Outcome::Conflict(kind)) => put_conflict(text, kind),
    }
}

// Adds UIDVALIDITY and UID of the message that an action made, where it made one.
fn put_place(text: &mut Vec<u8>, place: &Option<Place>) -> Result<(), AllocError>
    ensures { OnOk result (text.new.items ≡ text.old.items ++ place_text place.now) }
{
    match place {
        None => Ok(()),
        Some(place) => {
            text.push(b' ')?;
            put_number(text, u64::from(place.validity.number()))?;
            text.push(b' ')?;
            put_number(text, u64::from(place.uid.number()))
        }
    }
}

// Adds the conflict that an action ended as.
fn put_conflict(text: &mut Vec<u8>, kind: &Kind) -> Result<(), AllocError>
    ensures { OnOk result (text.new.items ≡ text.old.items ++ conflict_text kind.now) }
{
    text.extend_from_slice(effect_text(kind))?;
    text.extend_from_slice(kind_text(kind))?;
    put_numbers(text, kind)
}
