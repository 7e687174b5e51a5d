//! The key of a message is looked for in the book.

ghost use Rattle.std.specs.Prelude.{◌≡◌, ◌≤◌, IfOk, IsErrOf};
ghost use Rattle.world_traits.specs.Calls.{Rose};
ghost use Rattle.mail_top.specs.Course.{course_of};
ghost use Rattle.mail_top.specs.Showing.{OnlyReads};
ghost use Rattle.mail_top.specs.declared.refusal.Refusal.TheVariants as refusals;
ghost use Rattle.body_cache.specs.Finding.{ComesOfFinding, Finds, NotFound};
ghost use Rattle.body_cache.specs.declared.refused.ReadFault.{ReadFault as AnyFault};
ghost use Rattle.body_cache.specs.declared.refused.ReadFault.TheVariants as faults;

use crate::{Key, KeyOf, ReadFault};
use mail_base::BoxName;
use mail_top::show_book;
use std::alloc::Global;
use uid_sets::Uid;
use world_traits::{Clocked, Disk};

/// Opens the journal, and finds the key of a message in its book. Nothing is written.
pub(crate) fn find<D: Disk>(
    alloc: Global,
    disk: &mut D,
    name: &BoxName,
    uid: Uid,
) -> Result<Key, ReadFault>
    ensures finds { D.tells_files
        → IfOk result (Finds name.now uid (course_of D.Clocked D.seen disk.old disk.new)) }
    ensures why { D.tells_files → (fault : AnyFault) → IsErrOf result fault
        → NotFound name.now uid (course_of D.Clocked D.seen disk.old disk.new) fault }
    ensures reads { D.tells_files → OnlyReads (D.clock disk.old) (D.clock disk.new) }
    ensures only { (fault : AnyFault) → IsErrOf result fault → ComesOfFinding fault }
    ensures cause { IsErrOf result (faults.Refused refusals.Disk)
        → Rose (D.disk_faults disk.old) (D.disk_faults disk.new) }
    ensures unfailed { (IsErrOf result (faults.Refused refusals.Disk) → ⊥)
        → D.disk_faults disk.new ≡ D.disk_faults disk.old }
    ensures count { D.disk_faults disk.old ≤ D.disk_faults disk.new }
    ensures link { D.link disk.new ≡ D.link disk.old }
{
    let shown = show_book(alloc, disk, &KeyOf { name, uid })?;
    let key = shown?;
    Ok(key)
}
