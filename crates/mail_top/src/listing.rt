//! The rows of a mailbox are shown as the user sees them.

ghost use Rattle.std.specs.Prelude.{◌≡◌, ◌≤◌, IsErrOf};
ghost use Rattle.world_traits.specs.Calls.{Rose};
ghost use Rattle.mail_top.specs.Course.{course_of};
ghost use Rattle.mail_top.specs.Ending.{EndsRows};
ghost use Rattle.mail_top.specs.Showing.{OnlyReads};
ghost use Rattle.mail_top.specs.Telling.{status_of, text_of};
ghost use Rattle.mail_top.specs.declared.refusal.Refusal.TheVariants as refusals;

use crate::shows::Rows;
use crate::{Reason, Refusal, show_book};
use mail_base::{BoxName, Bytes};
use std::alloc::Global;
use world_traits::{Clocked, Disk};

/// The text of the rows of a mailbox's view.
///
/// The files are synced and read, and nothing is written: where a stop could have left either of two books, the syncs leave
/// the one that is read.
pub fn list<D: Disk>(alloc: Global, disk: &mut D, name: &BoxName) -> Result<Bytes, Refusal>
    // What became of it, as its status says it; and what a stop leaves meanwhile.
    ensures ends { D.tells_files → EndsRows name.now (course_of D.Clocked D.seen disk.old disk.new)
        (status_of result) (text_of (λ text. text) result) }
    ensures reads { D.tells_files → OnlyReads (D.clock disk.old) (D.clock disk.new) }

    ensures cause { IsErrOf result refusals.Disk → Rose (D.disk_faults disk.old) (D.disk_faults disk.new) }
    ensures unfailed { (IsErrOf result refusals.Disk → ⊥) → D.disk_faults disk.new ≡ D.disk_faults disk.old }
    ensures never { IsErrOf result refusals.Already → ⊥ }
    ensures unread { IsErrOf result refusals.Input → ⊥ }
    ensures count { D.disk_faults disk.old ≤ D.disk_faults disk.new }
    ensures link { D.link disk.new ≡ D.link disk.old }
{
    let shown = show_book(alloc, disk, &Rows { name })?;
    let Some(text) = shown else {
        return Err(Refusal::from(Reason::NoMailbox));
    };
    Ok(text)
}
