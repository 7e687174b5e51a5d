//! What the user sees of a book: the rows of a mailbox, and the texts of the queue and of the
//! conflicts.

use crate::compared::put_compared;
use crate::plain_view::plain_view;
use action_queue::Book;
use cases::{Answer, Input, WordFault, name, put_flags, put_modseq, put_uid};
use local_view::{Ident, Seen, view};
use mail_base::Bytes;
use std::alloc::{AllocError, Global};

/// Adds the rows of the next mailbox, which the plain program tells too.
pub fn put_view(book: &Book, input: &mut Input, answer: &mut Answer) -> Result<(), WordFault> {
    let (alloc, name) = (input.alloc, name(input)?);
    let came = told(alloc, &view(alloc, book, &name)?)?;
    let plain = told(alloc, &plain_view(alloc, book, &name)?)?;
    put_compared(answer, &came, "but the plain program tells", &plain)
}

/// Adds the text of the queue or of the report.
pub fn put_text(answer: &mut Answer, made: Result<Bytes, AllocError>) -> Result<(), WordFault> {
    answer.text(made?.as_slice())
}

fn told(alloc: Global, rows: &[Seen]) -> Result<Answer, WordFault> {
    let mut told = Answer::new(alloc);
    put_rows(&mut told, rows)?;
    Ok(told)
}

// The rows, or `none`.
fn put_rows(answer: &mut Answer, rows: &[Seen]) -> Result<(), WordFault> {
    if rows.is_empty() {
        return answer.word("none");
    }
    for row in rows {
        put_row(answer, row)?;
    }
    Ok(())
}

// `; 40 700 \Seen`, or `; d1 - \Seen`.
fn put_row(answer: &mut Answer, row: &Seen) -> Result<(), WordFault> {
    answer.word(";")?;
    match &row.id {
        Ident::Real(uid) => put_uid(answer, *uid)?,
        Ident::Dummy(id) => answer.marked("d", id.number())?,
    }
    match &row.modseq {
        Some(modseq) => put_modseq(answer, *modseq)?,
        None => answer.word("-")?,
    }
    put_flags(answer, &row.flags)
}
