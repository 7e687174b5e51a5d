//! What the step that is due needs: the commands and the events, which take memory.

ghost use Rattle.action_queue.specs.Book.{meaning};
ghost use Rattle.action_queue.specs.Queues.{due_action};
ghost use Rattle.playback.specs.Needs.{NeedsNoMemory, again, again_as, due_id, need_end, need_ids, need_learn, need_of};
ghost use Rattle.playback.specs.Needs.{need_search, need_send, send_of};
ghost use Rattle.std.specs.Prelude.{IfOk, Ok, ◌≡◌};

use crate::{Finding, Need, Player, Step};
use action_queue::{Action, Book, Event, Intent, Kind, Outcome};
use append_probe::question_for;
use imap_model::Command;
use mail_base::ActionId;
use std::alloc::{AllocError, Global};
use uid_sets::Uid;

impl Player {
    // What is needed next.
    pub(crate) fn need(&self, book: &Book) -> Result<Need, AllocError>
        ensures value { IfOk result (λ need. need ≡ need_of self.now (meaning book.now)) }
        ensures at_hand { NeedsNoMemory (need_of self.now (meaning book.now)) → result ≡ Ok (need_of self.now (meaning book.now)) }
    {
        match self.step(book) {
            Step::Learn => self.need_learn(),
            Step::Select { name, under: _ } => Ok(Need::Select(name)),
            Step::AskRow(uid) => Ok(Need::Ask(Command::FetchRow { uid })),
            Step::Search(uidnext) => need_search(self.alloc, book, uidnext),
            Step::AskIds => self.need_ids(),
            Step::Intend(intent) => Ok(Need::Commit(Event::Intend {
                id: due_id(book),
                intent,
            })),
            Step::Settle(outcome) => {
                let tries = again(book.tries_due(), &outcome);
                Ok(need_end(due_id(book), outcome, tries))
            }
            Step::Send => need_send(book),
            Step::Finished => Ok(Need::Finished),
        }
    }

    // What was told of a mailbox is recorded.
    fn need_learn(&self) -> Result<Need, AllocError>
        ensures value { IfOk result (λ need. need ≡ need_learn self.now.learns) }
        ensures at_hand { NeedsNoMemory (need_learn self.now.learns) → result ≡ Ok (need_learn self.now.learns) }
    {
        let Some(told) = &self.learns else {
            return Ok(Need::Finished);
        };
        let delta = told.delta.copy(self.alloc)?;
        Ok(Need::Commit(Event::Learn {
            name: told.name.copy(),
            delta,
        }))
    }

    // The candidates' Message-ID fields are asked for.
    fn need_ids(&self) -> Result<Need, AllocError>
        ensures value { IfOk result (λ need. need ≡ need_ids self.now.told) }
        ensures at_hand { NeedsNoMemory (need_ids self.now.told) → result ≡ Ok (need_ids self.now.told) }
    {
        match &self.told {
            Finding::Candidates(uids) => {
                let uids = uids.copy()?;
                Ok(Need::Ask(Command::FetchIds { uids }))
            }
            Finding::Nothing
            | Finding::NoRow
            | Finding::Row { .. }
            | Finding::Barred
            | Finding::Ended(_)
            | Finding::Next { .. }
            | Finding::Probed(_) => Ok(Need::Finished),
        }
    }
}

// The action ends, or its try is taken back.
fn need_end(id: ActionId, outcome: Outcome, again: Option<u8>) -> Need
    ensures { result ≡ need_end id outcome again }
{
    match again {
        None => Need::Settle(id, outcome),
        Some(tries) => Need::Withdraw(id, tries),
    }
}

// How many tries are taken back then, where a try ended so behind this many.
fn again(tries: u8, outcome: &Outcome) -> Option<u8>
    ensures { result ≡ again tries outcome.now }
{
    match outcome {
        Outcome::Done { .. } => None,
        Outcome::Conflict(kind) => again_as(tries, kind),
    }
}

fn again_as(tries: u8, kind: &Kind) -> Option<u8>
    ensures { result ≡ again_as tries kind.now }
{
    match kind {
        Kind::FlagsChanged { .. } => { if tries < 2 { Some(tries + 1) } else { None } }
        Kind::MessageGone
        | Kind::AlreadySo
        | Kind::RefusedNo
        | Kind::RefusedBad
        | Kind::NotPermanent
        | Kind::TargetUnknown { .. }
        | Kind::FoundSo
        | Kind::StoreUnsure { .. }
        | Kind::SourceGone
        | Kind::GoneAfterLoss
        | Kind::Ambiguous { .. }
        | Kind::ValidityChanged { .. }
        | Kind::ResetAfterLoss { .. } => None,
    }
}

// The number of the action that is due.
fn due_id(book: &Book) -> ActionId
    ensures { result ≡ due_id (meaning book.now) }
{
    ActionId::new(book.queue.settled() as u32 + 1).unwrap()
}

// The append's message is searched for.
fn need_search(alloc: Global, book: &Book, uidnext: Uid) -> Result<Need, AllocError>
    ensures value { IfOk result (λ need. need ≡ need_search uidnext (due_action (meaning book.now).queue)) }
    ensures at_hand { NeedsNoMemory (need_search uidnext (due_action (meaning book.now).queue))
        → result ≡ Ok (need_search uidnext (due_action (meaning book.now).queue)) }
{
    let Some(queued) = book.queue.due() else {
        return Ok(Need::Finished);
    };
    match &queued.action {
        Action::Flag { .. } | Action::Move { .. } => Ok(Need::Finished),
        Action::Append { id, .. } => {
            let command = question_for(alloc, uidnext, id)?;
            Ok(Need::Ask(command))
        }
    }
}

// The command of the pending intent is sent.
fn need_send(book: &Book) -> Result<Need, AllocError>
    ensures value { IfOk result (λ need.
        need ≡ need_send (due_id (meaning book.now)) (due_action (meaning book.now).queue) (meaning book.now).pending) }
    ensures at_hand { NeedsNoMemory (need_send (due_id (meaning book.now)) (due_action (meaning book.now).queue) (meaning book.now).pending)
        → result ≡ Ok (need_send (due_id (meaning book.now)) (due_action (meaning book.now).queue) (meaning book.now).pending) }
{
    let Some(queued) = book.queue.due() else {
        return Ok(Need::Finished);
    };
    match &book.pending {
        None => Ok(Need::Finished),
        Some(intent) => send_of(due_id(book), &queued.action, intent),
    }
}

// The command that an intent and its action give.
fn send_of(id: ActionId, action: &Action, intent: &Intent) -> Result<Need, AllocError>
    ensures value { IfOk result (λ need. need ≡ send_of id action.now intent.now) }
    ensures at_hand { NeedsNoMemory (send_of id action.now intent.now) → result ≡ Ok (send_of id action.now intent.now) }
{
    match action {
        Action::Flag { add, flags, .. } => match intent {
            Intent::Store { uid, modseq, .. } => {
                let flags = flags.copy()?;
                Ok(Need::Send(
                    id,
                    Command::Store {
                        uid: *uid,
                        since: *modseq,
                        add: *add,
                        flags,
                    },
                ))
            }
            Intent::Shift { .. } | Intent::Put { .. } => Ok(Need::Finished),
        },
        Action::Move { .. } => match intent {
            Intent::Shift { uid, to, .. } => Ok(Need::Send(
                id,
                Command::Shift {
                    uid: *uid,
                    to: to.copy(),
                },
            )),
            Intent::Store { .. } | Intent::Put { .. } => Ok(Need::Finished),
        },
        Action::Append { flags, text, .. } => match intent {
            Intent::Put { to, .. } => {
                let flags = flags.copy()?;
                let text = text.copy()?;
                Ok(Need::Send(
                    id,
                    Command::Append {
                        to: to.copy(),
                        flags,
                        text,
                    },
                ))
            }
            Intent::Store { .. } | Intent::Shift { .. } => Ok(Need::Finished),
        },
    }
}
