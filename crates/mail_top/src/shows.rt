//! The texts that show a book: its queue, its conflicts, and the rows of a mailbox.

use crate::Show;
use crate::printed::rows_of;
use action_queue::Book;
use local_view::view;
use mail_base::{BoxName, Bytes};
use std::alloc::{AllocError, Global};

/// The text of the queue: a line for each unsettled action.
#[derive(Clone, Copy)]
pub struct Queue;

impl Show for Queue {
    ghost use Rattle.std.specs.Prelude.{◌≡◌};
    ghost use Rattle.conflict_report.specs.QueueLines.{queue_text};

    type Shown = Bytes;

    ghost fits = { λ queue book text. text ≡ queue_text book };

    fn shown(&self, alloc: Global, book: &Book) -> Result<Bytes, AllocError> {
        conflict_report::queue_text(alloc, book)
    }
}

/// The text of the report: a line for each action that ended as a conflict.
#[derive(Clone, Copy)]
pub struct Report;

impl Show for Report {
    ghost use Rattle.std.specs.Prelude.{◌≡◌};
    ghost use Rattle.conflict_report.specs.ReportLines.{report_text};

    type Shown = Bytes;

    ghost fits = { λ report book text. text ≡ report_text book };

    fn shown(&self, alloc: Global, book: &Book) -> Result<Bytes, AllocError> {
        conflict_report::report(alloc, book)
    }
}

/// The text of the rows of a mailbox's view, where the mailbox is one of the book's.
#[derive(Clone, Copy)]
pub struct Rows<'a> {
    /// The mailbox.
    pub name: &'a BoxName,
}

impl Show for Rows<'_> {
    ghost use Rattle.mail_top.specs.Showing.{ShowsRows};

    type Shown = Option<Bytes>;

    ghost fits = { λ rows book text. ShowsRows rows.name.now book text };

    fn shown(&self, alloc: Global, book: &Book) -> Result<Option<Bytes>, AllocError> {
        if book.known(self.name).is_none() {
            return Ok(None);
        }
        let rows = view(alloc, book, self.name)?;
        let text = rows_of(alloc, &rows)?;
        Ok(Some(text))
    }
}
