//! A journal of an older version is taken over: its book is told anew in the version that is written, before something is added to it.

ghost use Rattle.std.specs.Prelude.{◌≡◌, IfErr, IsErr, IsErrOf, IsTrue, OnOk, false};
ghost use Rattle.journal_core.specs.Blames.{BlamesWhere};
ghost use Rattle.journal_core.specs.Sides.{version_written};
ghost use Rattle.store_core.specs.Holding.{IsAsLeft};
ghost use Rattle.store_core.specs.Mail.{mail};
ghost use Rattle.store_core.specs.Moments.{TellsAnew};
ghost use Rattle.mail_top.specs.Takeover.{IsNotTaken, taken_over};
ghost use Rattle.mail_top.specs.declared.refusal.Refusal.TheVariants as refusals;

use crate::Refusal;
use journal_core::WRITTEN;
use std::alloc::Global;
use store_core::Store;
use world_traits::{Clocked, Disk};

/// Tells the book anew on the journal's other side, where the journal is of another version than the one that is written.
///
/// A stop leaves the book all the same. `Generation` where no generation is to come; `Full` where the book has no room on a side;
/// `Memory`: then all is as before. After `Disk` the store isn't used again.
pub(crate) fn take_over<D: Disk>(
    alloc: Global,
    disk: &mut D,
    store: &mut Store,
) -> Result<(), Refusal>
    requires sound { IsTrue store.old.journal.failed → ⊥ }
    requires still { D.tells_files →
        IsAsLeft mail store.old (D.clock disk.old).now (D.seen disk.old) }
    ensures moments { D.tells_files →
        TellsAnew store.old.book (D.clock disk.old) (D.clock disk.new) }
    ensures done { D.tells_files →
        OnOk result (IsAsLeft mail store.new (D.clock disk.new).now (D.seen disk.new)) }
    ensures value { OnOk result (store.new ≡ taken_over store.old) }
    ensures sound_still { OnOk result (store.new.journal.failed ≡ false) }
    ensures written { OnOk result (store.new.journal.version ≡ version_written) }

    // Where it is of the version that is written nothing is done; else why it isn't taken over.
    ensures same { store.old.journal.version ≡ version_written
        → (store.new ≡ store.old) × (disk.new ≡ disk.old) × OnOk result (Unit {0}) }
    ensures why { IfErr result (IsNotTaken store.old) }
    ensures stays { store.new.book ≡ store.old.book }
    ensures kept { IsErr result → (IsErrOf result refusals.Disk → ⊥) →
        (store.new ≡ store.old) × (disk.new ≡ disk.old) }
    ensures blames { BlamesWhere D.Clocked disk.old disk.new (IsErrOf result refusals.Disk) }
{
    if store.version() == WRITTEN {
        return Ok(());
    }
    if store.generation() == u32::MAX {
        return Err(Refusal::Generation);
    }
    store.turn(alloc, disk)?;
    Ok(())
}
