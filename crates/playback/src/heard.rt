//! What is kept of the reply to the question or the command that is due.

ghost use Rattle.action_queue.specs.Book.{meaning};
ghost use Rattle.action_queue.specs.Queues.{due_action};
ghost use Rattle.playback.specs.Replying.{HearsFound, IsHeard, IsHeardFault, found_row, found_uids, is_barred, is_so};
ghost use Rattle.playback.specs.Replying.{read_meant, read_row, read_sent};
ghost use Rattle.book_laws.specs.Sound.{IsSound};
ghost use Rattle.playback.specs.Taken.{Takes, TakesDue, TakesIds, TakesStep, TakesVerdict, taken, with_kept};
ghost use Rattle.std.specs.Option.{option_copied};
ghost use Rattle.std.specs.Prelude.{IfErr, IfOk, ◌≡◌};

use crate::reply_effects::{appended, moved, stored};
use crate::reply_rows::last_fetch;
use crate::{Finding, Player, Step, Unheard};
use action_queue::{Action, Book, Intent};
use append_probe::{Verdict, candidates, verdict_of};
use flag_set::FlagSet;
use imap_model::{Fetched, Item, Replies};
use mail_base::ModSeq;
use std::alloc::Global;
use uid_sets::{Uid, UidSet};

/// What is kept of the reply, or nothing where neither a question nor a command is due.
pub(crate) fn heard_of(
    player: &Player,
    book: &Book,
    replies: &Replies,
    permits: bool,
) -> Result<Option<Finding>, Unheard>
    ensures value { IfOk result (λ kept. IsSound (meaning book.now)
        → IsHeard player.now (meaning book.now) permits replies.now (with_kept player.now kept)) }
    ensures fault { IfErr result (IsHeardFault player.now (meaning book.now) permits replies.now) }
{
    heard_due(player, book, replies, permits)
}

// What is kept of the reply, by the action that is due.
fn heard_due(
    player: &Player,
    book: &Book,
    replies: &Replies,
    permits: bool,
) -> Result<Option<Finding>, Unheard>
    ensures { TakesDue player.now (meaning book.now) (due_action (meaning book.now).queue) permits replies.now result }
{
    match book.queue.due() {
        None => Ok(None),
        Some(queued) => {
            heard_step(
                player,
                player.step(book),
                &queued.action,
                &book.pending,
                replies,
                permits,
            )
        }
    }
}

// What is kept of the reply to this step.
fn heard_step(
    player: &Player,
    step: Step,
    action: &Action,
    pending: &Option<Intent>,
    replies: &Replies,
    permits: bool,
) -> Result<Option<Finding>, Unheard>
    ensures { TakesStep step player.now action.now pending.now permits replies.now result }
{
    match step {
        Step::AskRow(uid) => {
            let fetched = last_fetch(uid, replies.untagged.as_slice());
            taken(read_row(is_barred(permits, action, pending), action, fetched))
        }
        Step::Search(uidnext) => read_found(player.alloc, uidnext, replies),
        Step::AskIds => read_ids(player, action, replies),
        Step::Send => taken(read_meant(player.resumed, action, pending, replies)),
        Step::Learn | Step::Select { .. } | Step::Intend(_) | Step::Settle(_) | Step::Finished =>
            Ok(None),
    }
}

// What was found, or what the reply lacks.
fn taken(found: Result<Finding, Item>) -> Result<Option<Finding>, Unheard>
    ensures { result ≡ taken found }
{
    match found {
        Ok(finding) => Ok(Some(finding)),
        Err(item) => Err(Unheard::Lacks { item }),
    }
}

// The mailbox doesn't keep the flags that a flag action asks for, and this counts: only before an intent is recorded.
fn is_barred(permits: bool, action: &Action, pending: &Option<Intent>) -> bool
    ensures { result ≡ is_barred permits action.now pending.now }
{
    match action {
        Action::Flag { .. } => !permits && pending.is_none(),
        Action::Move { .. } | Action::Append { .. } => false,
    }
}

// The reply to the question for a row.
fn read_row(barred: bool, action: &Action, fetched: Option<&Fetched>) -> Result<Finding, Item>
    ensures { result ≡ read_row barred action.now (option_copied fetched.entry) }
{
    let Some(fetched) = fetched else {
        return Ok(Finding::NoRow);
    };
    let Some(flags) = &fetched.flags else {
        return Err(Item::Flags);
    };
    let Some(modseq) = fetched.modseq else {
        return Err(Item::ModSeq);
    };
    Ok(found_row(barred, action, modseq, flags))
}

// The row that was told.
fn found_row(barred: bool, action: &Action, modseq: ModSeq, flags: &FlagSet) -> Finding
    ensures { result ≡ found_row barred action.now modseq flags.now }
{
    let so = is_so(action, flags);
    if barred && !so {
        return Finding::Barred;
    }
    Finding::Row { modseq, so }
}

// Whether the flags are as a flag action asks.
fn is_so(action: &Action, set: &FlagSet) -> bool
    ensures { result ≡ is_so action.now set.now }
{
    match action {
        Action::Flag { add, flags, .. } => {
            if *add {
                set.holds_all(flags)
            } else {
                set.holds_none(flags)
            }
        }
        Action::Move { .. } | Action::Append { .. } => false,
    }
}

// The reply to the search for an append's Message-ID.
fn read_found(alloc: Global, uidnext: Uid, replies: &Replies) -> Result<Option<Finding>, Unheard>
    ensures { Takes (HearsFound uidnext replies.now) result }
{
    let uids = candidates(alloc, uidnext, replies)?;
    Ok(Some(found_uids(uids)))
}

// What a search found.
fn found_uids(uids: UidSet) -> Finding
    ensures { result ≡ found_uids uids }
{
    if uids.is_empty() {
        Finding::Probed(Verdict::NotThere)
    } else {
        Finding::Candidates(uids)
    }
}

// The reply to the question for the candidates' Message-ID fields.
fn read_ids(player: &Player, action: &Action, replies: &Replies) -> Result<Option<Finding>, Unheard>
    ensures { TakesIds player.now.told action.now replies.now result }
{
    let Finding::Candidates(uids) = &player.told else {
        return Ok(None);
    };
    match action {
        Action::Flag { .. } | Action::Move { .. } => Ok(None),
        Action::Append { id, .. } => read_verdict(player.alloc, uids, replies, id.as_slice()),
    }
}

// Which of the candidates have the Message-ID.
fn read_verdict(
    alloc: Global,
    uids: &UidSet,
    replies: &Replies,
    id: &[u8],
) -> Result<Option<Finding>, Unheard>
    ensures { TakesVerdict uids.now id.now replies.now result }
{
    let verdict = verdict_of(alloc, uids, replies, id)?;
    Ok(Some(Finding::Probed(verdict)))
}

// The reply to the command that the pending intent and its action give.
fn read_meant(
    resumed: bool,
    action: &Action,
    pending: &Option<Intent>,
    replies: &Replies,
) -> Result<Finding, Item>
    ensures { result ≡ read_meant resumed action.now pending.now replies.now }
{
    match pending {
        None => Ok(Finding::Nothing),
        Some(intent) => read_sent(resumed, action, intent, replies),
    }
}

// The reply to the command of this intent.
fn read_sent(
    resumed: bool,
    action: &Action,
    intent: &Intent,
    replies: &Replies,
) -> Result<Finding, Item>
    ensures { result ≡ read_sent resumed action.now intent.now replies.now }
{
    match action {
        Action::Flag { .. } => match intent {
            Intent::Store { uid, modseq, .. } => Ok(stored(*uid, *modseq, resumed, replies)),
            Intent::Shift { .. } | Intent::Put { .. } => Ok(Finding::Nothing),
        },
        Action::Move { .. } => match intent {
            Intent::Shift { uid, .. } => moved(*uid, resumed, replies),
            Intent::Store { .. } | Intent::Put { .. } => Ok(Finding::Nothing),
        },
        Action::Append { .. } => match intent {
            Intent::Put { .. } => appended(replies),
            Intent::Store { .. } | Intent::Shift { .. } => Ok(Finding::Nothing),
        },
    }
}
