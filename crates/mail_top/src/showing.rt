//! The book is shown: the journal is opened, and something is made of its book alone.

ghost use Rattle.std.specs.Prelude.{◌≡◌, ◌≤◌, IsErrOf};
ghost use Rattle.world_traits.specs.Calls.{Rose};
ghost use Rattle.mail_top.specs.Course.{course_of};
ghost use Rattle.mail_top.specs.Showing.{EndsShowing, IsOfReading, OnlyReads};
ghost use Rattle.mail_top.specs.declared.refusal.Refusal.{Refusal};
ghost use Rattle.mail_top.specs.declared.refusal.Refusal.TheVariants as refusals;

use crate::Refusal;
use action_queue::Book;
use std::alloc::{AllocError, Global};
use store_core::Store;
use world_traits::{Clocked, Disk};

/// What shows a book: it makes something of the book alone, as a text.
pub trait Show {
    ghost use Rattle.std.specs.Prelude.{IfOk};
    ghost use Rattle.action_queue.specs.Book.{Meaning, meaning};

    /// What is made of the book.
    type Shown: Drop;

    /// That this shows the book.
    ghost fits: { Self → Meaning → Self.Shown → Type 0 };

    /// Makes what shows the book, or memory is wanting.
    fn shown(&self, alloc: Global, book: &Book) -> Result<Self::Shown, AllocError>
        ensures { IfOk result (fits self.now (meaning book.now)) };
}

/// Opens the journal, and makes what shows its book.
///
/// The files are synced and read, and nothing is written: where a stop could have left either of two books, the syncs leave
/// the one that is read.
pub fn show_book<D: Disk, S: Show>(
    alloc: Global,
    disk: &mut D,
    show: &S,
) -> Result<S::Shown, Refusal>
    // What became of it, as its answer says it; and what a stop leaves meanwhile.
    ensures ends { D.tells_files →
        EndsShowing (S.fits show.now) (course_of D.Clocked D.seen disk.old disk.new) result }
    ensures reads { D.tells_files → OnlyReads (D.clock disk.old) (D.clock disk.new) }

    // Each refusal is one of a journal that is read, and has its cause. The link stays.
    ensures only { (refusal : Refusal) → IsErrOf result refusal → IsOfReading refusal }
    ensures cause { IsErrOf result refusals.Disk → Rose (D.disk_faults disk.old) (D.disk_faults disk.new) }
    ensures unfailed { (IsErrOf result refusals.Disk → ⊥) → D.disk_faults disk.new ≡ D.disk_faults disk.old }
    ensures count { D.disk_faults disk.old ≤ D.disk_faults disk.new }
    ensures link { D.link disk.new ≡ D.link disk.old }
{
    let store = Store::open(alloc, disk)?;
    let shown = show.shown(alloc, store.book())?;
    Ok(shown)
}
