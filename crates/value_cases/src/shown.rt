//! What a book holds, as words: its actions, the first one without an outcome, the intent that is
//! pending, and what is known of mailboxes; and what a message is there.

use action_queue::{Book, Found, Intent, Known, Queued};
use cases::{
    Answer, WordFault, put_action, put_intent, put_modseq, put_name, put_outcome, put_place,
};

/// Adds what a copy of a book holds.
pub fn put_copy(answer: &mut Answer, book: &Book) -> Result<(), WordFault> {
    let copy = book.copy()?;
    let told = put_book(answer, &copy);
    drop(copy);
    told
}

/// Adds what a book holds.
pub fn put_book(answer: &mut Answer, book: &Book) -> Result<(), WordFault> {
    put_queue(answer, book.queue.as_slice())?;
    put_due(answer, book)?;
    put_pending(answer, &book.pending)?;
    for known in book.boxes.as_slice() {
        put_known(answer, known)?;
    }
    Ok(())
}

fn put_queue(answer: &mut Answer, queue: &[Queued]) -> Result<(), WordFault> {
    for queued in queue {
        put_queued(answer, queued)?;
    }
    Ok(())
}

// `move INBOX 5 42 Archive ; -> done 9 7 ;`, or `flag INBOX 5 42 + \Seen ; waits ;`.
fn put_queued(answer: &mut Answer, queued: &Queued) -> Result<(), WordFault> {
    put_action(answer, &queued.action)?;
    answer.word(";")?;
    put_tries(answer, queued.tries)?;
    match &queued.outcome {
        Some(outcome) => {
            answer.word("->")?;
            put_outcome(answer, outcome)?;
        }
        None => answer.word("waits")?,
    }
    answer.word(";")
}

fn put_tries(answer: &mut Answer, tries: u8) -> Result<(), WordFault> {
    if tries == 0 {
        return Ok(());
    }
    answer.word("tries")?;
    answer.number(u64::from(tries))
}

fn put_due(answer: &mut Answer, book: &Book) -> Result<(), WordFault> {
    answer.word("due")?;
    match book.first_unsettled() {
        Some(id) => answer.number(u64::from(id.number())),
        None => answer.word("none"),
    }
}

fn put_pending(answer: &mut Answer, pending: &Option<Intent>) -> Result<(), WordFault> {
    match pending {
        Some(intent) => {
            answer.word("; pending")?;
            put_intent(answer, intent)
        }
        None => Ok(()),
    }
}

// The highest mod-sequence and the count of rows of a mailbox with a cache.
fn put_known(answer: &mut Answer, known: &Known) -> Result<(), WordFault> {
    match &known.cache {
        Some(cache) => {
            answer.word(";")?;
            put_name(answer, &known.name)?;
            answer.word("up to")?;
            put_modseq(answer, cache.highest)?;
            answer.at("rows", cache.rows.len())
        }
        None => Ok(()),
    }
}

/// Adds what a message is.
pub fn put_found(answer: &mut Answer, found: &Found) -> Result<(), WordFault> {
    match found {
        Found::Real {
            name,
            validity,
            uid,
        } => {
            put_name(answer, name)?;
            put_place(answer, *validity, *uid)
        }
        Found::NotYet { by } => {
            answer.word("not yet by")?;
            answer.number(u64::from(by.number()))
        }
        Found::Never { by } => {
            answer.word("never by")?;
            answer.number(u64::from(by.number()))
        }
    }
}
