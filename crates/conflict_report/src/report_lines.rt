//! The actions that ended as conflicts, as they are printed.

ghost use Rattle.std.specs.Prelude.{◌≡◌, ◌++◌, IfOk, OnOk};
ghost use Rattle.action_queue.specs.Book.{meaning};
ghost use Rattle.conflict_report.specs.ReportLines.{effect_text, line_of, kind_text, number_text, numbers_text, report_line, report_text};

use crate::writing::put_number;
use action_queue::{Book, Kind, Outcome};
use mail_base::{ActionId, Bytes};
use std::alloc::{AllocError, Global};

/// The report, a line for each action that ended as a conflict, in order: `n nothing KIND NUMBERS` where the conflict says that it
/// had no effect, and `n unsure KIND NUMBERS` where it had its one effect or none. KIND is the conflict's name, as `message-gone`,
/// and NUMBERS are its own, each behind a space: `flags-changed M`, `target-unknown K`, `store-unsure M F`, `ambiguous U V`,
/// `validity-changed O N`, `reset-after-loss O N`, and none behind the others. Fails for want of memory alone.
pub fn report(alloc: Global, book: &Book) -> Result<Bytes, AllocError>
    ensures { IfOk result (λ text. text ≡ report_text (meaning book.now)) }
{
    // A queue has at most a million actions, so each place has a number.
    let _most = book.queue.len();
    let mut text = Vec::new(alloc);
    for (at, queued) in book.queue.as_slice().iter().enumerate() {
        if let Some(id) = ActionId::new(at as u32 + 1) {
            put_outcome(&mut text, id, &queued.outcome)?;
        }
    }
    Ok(Bytes::of(text))
}

// Adds the line of an action, where it ended as a conflict.
fn put_outcome(
    text: &mut Vec<u8>,
    id: ActionId,
    outcome: &Option<Outcome>,
) -> Result<(), AllocError>
    ensures { OnOk result (text.new.items ≡ text.old.items ++ line_of id outcome.now) }
{
    match outcome {
        Some(Outcome::Conflict(kind)) => put_conflict(text, id, kind),
        Some(Outcome::Done { .. }) | None => Ok(()),
    }
}

// Adds the line of a conflict.
fn put_conflict(text: &mut Vec<u8>, id: ActionId, kind: &Kind) -> Result<(), AllocError>
    ensures { OnOk result (text.new.items ≡ text.old.items ++ report_line id kind.now) }
{
    put_number(text, u64::from(id.number()))?;
    text.extend_from_slice(effect_text(kind))?;
    text.extend_from_slice(kind_text(kind))?;
    put_numbers(text, kind)?;
    text.push(b'\n')?;
    Ok(())
}

/// Whether a conflict says that its action had no effect: ` nothing`, or ` unsure` where it had its one effect or none.
pub fn effect_text(kind: &Kind) -> &'static [u8]
    ensures { result.now ≡ effect_text kind.now }
{
    match kind {
        Kind::MessageGone
        | Kind::AlreadySo
        | Kind::FlagsChanged { .. }
        | Kind::RefusedNo
        | Kind::RefusedBad
        | Kind::NotPermanent
        | Kind::TargetUnknown { .. }
        | Kind::ValidityChanged { .. } => b" nothing",
        Kind::FoundSo
        | Kind::StoreUnsure { .. }
        | Kind::SourceGone
        | Kind::GoneAfterLoss
        | Kind::Ambiguous { .. }
        | Kind::ResetAfterLoss { .. } => b" unsure",
    }
}

/// A conflict's name, behind a space.
pub fn kind_text(kind: &Kind) -> &'static [u8]
    ensures { result.now ≡ kind_text kind.now }
{
    match kind {
        Kind::MessageGone => b" message-gone",
        Kind::AlreadySo => b" already-so",
        Kind::FlagsChanged { .. } => b" flags-changed",
        Kind::RefusedNo => b" refused-no",
        Kind::RefusedBad => b" refused-bad",
        Kind::NotPermanent => b" not-permanent",
        Kind::TargetUnknown { .. } => b" target-unknown",
        Kind::FoundSo => b" found-so",
        Kind::StoreUnsure { .. } => b" store-unsure",
        Kind::SourceGone => b" source-gone",
        Kind::GoneAfterLoss => b" gone-after-loss",
        Kind::Ambiguous { .. } => b" ambiguous",
        Kind::ValidityChanged { .. } => b" validity-changed",
        Kind::ResetAfterLoss { .. } => b" reset-after-loss",
    }
}

/// Adds a conflict's numbers, each behind a space. Fails for want of memory alone.
pub fn put_numbers(text: &mut Vec<u8>, kind: &Kind) -> Result<(), AllocError>
    ensures { OnOk result (text.new.items ≡ text.old.items ++ numbers_text kind.now) }
{
    match kind {
        Kind::FlagsChanged { m } => put_behind(text, m.number()),
        Kind::TargetUnknown { k } => put_behind(text, u64::from(k.number())),
        Kind::StoreUnsure { m, f } => put_two(text, m.number(), f.number()),
        Kind::Ambiguous { u, v } => put_two(text, u64::from(u.number()), u64::from(v.number())),
        Kind::ValidityChanged { o, n } => {
            put_two(text, u64::from(o.number()), u64::from(n.number()))
        }
        Kind::ResetAfterLoss { o, n } => {
            put_two(text, u64::from(o.number()), u64::from(n.number()))
        }
        Kind::MessageGone
        | Kind::AlreadySo
        | Kind::RefusedNo
        | Kind::RefusedBad
        | Kind::NotPermanent
        | Kind::FoundSo
        | Kind::SourceGone
        | Kind::GoneAfterLoss => Ok(()),
    }
}

// Adds two numbers, each behind a space.
fn put_two(text: &mut Vec<u8>, one: u64, other: u64) -> Result<(), AllocError>
    ensures { OnOk result (text.new.items ≡ text.old.items ++ number_text one ++ number_text other) }
{
    put_behind(text, one)?;
    put_behind(text, other)
}

// Adds a number behind a space.
fn put_behind(text: &mut Vec<u8>, number: u64) -> Result<(), AllocError>
    ensures { OnOk result (text.new.items ≡ text.old.items ++ number_text number) }
{
    text.push(b' ')?;
    put_number(text, number)
}
