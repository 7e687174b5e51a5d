//! The letter that an action puts into a mailbox.

ghost use Rattle.std.specs.Prelude.{◌<◌, IfOk};
ghost use Rattle.action_queue.specs.Book.{meaning};
ghost use Rattle.look_run.specs.LetterText.{IsLetter};

use crate::LookReason;
use action_queue::{Action, Book};
use mail_base::Bytes;
use mail_top::Show;
use std::alloc::{AllocError, Global};

/// The letter of an action.
#[derive(Clone, Copy)]
pub struct Letter {
    /// The action's number, from 1.
    pub number: u32,
    ghost from_one: { 0 < number },
}

impl Show for Letter {
    ghost use Rattle.look_run.specs.LetterText.{IsLetter};

    type Shown = Result<Bytes, LookReason>;

    ghost fits = { λ letter book answer. IsLetter book letter.number answer };

    fn shown(&self, _alloc: Global, book: &Book) -> Result<Result<Bytes, LookReason>, AllocError> {
        letter_of(book, self.number)
    }
}

/// The letter of the action of this number, from 1, byte for byte as it was accepted, or the reason why there is none. Fails for want of memory alone.
pub fn letter_of(book: &Book, number: u32) -> Result<Result<Bytes, LookReason>, AllocError>
    requires { 0 < number }
    ensures { IfOk result (IsLetter (meaning book.now) number) }
{
    let at = number as usize - 1;
    let Some(queued) = book.queue.as_slice().get(at) else {
        return Ok(Err(LookReason::NoAction));
    };
    match &queued.action {
        Action::Append { text, .. } => {
            let copy = text.copy()?;
            Ok(Ok(copy))
        }
        Action::Flag { .. } | Action::Move { .. } => Ok(Err(LookReason::NoLetter)),
    }
}
