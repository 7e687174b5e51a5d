//! The book of a journal is told anew on its other side, again and again.

ghost use Rattle.std.specs.Prelude.{◌≡◌, false, OnOk};
ghost use Rattle.store_core.specs.Mail.{mail};
ghost use Rattle.store_core.specs.Holding.{IsAsLeft};
ghost use Rattle.mail_bench.specs.Settled.{HoldTheSame};

use mail_base::Status;
use std::alloc::Global;
use store_core::{Store, StoreFault};
use world_traits::{Clocked, Disk};

/// Opens the store of a disk, and tells its book anew so often. Gives the bytes that the book takes so.
pub(crate) fn tell_anew<D: Disk>(alloc: Global, disk: &mut D, times: u32) -> Result<u64, StoreFault>
    ensures same { D.tells_files → OnOk result (HoldTheSame (D.seen disk.old) (D.seen disk.new)) }
{
    let mut store = Store::open(alloc, disk)?;
    turn_often(alloc, &mut store, disk, times)?;
    Ok(store.restated_size())
}

// Tells the book of a store anew so often, or as often as there are generations to come.
fn turn_often<D: Disk>(
    alloc: Global,
    store: &mut Store,
    disk: &mut D,
    times: u32,
) -> Result<(), StoreFault>
    requires sound { store.old.journal.failed ≡ false }
    requires still { D.tells_files → IsAsLeft mail store.old (D.clock disk.old).now (D.seen disk.old) }
    ensures value { OnOk result (store.new.book ≡ store.old.book) }
    ensures done { D.tells_files → OnOk result (IsAsLeft mail store.new (D.clock disk.new).now (D.seen disk.new)) }
{
    for _ in 0..times {
        turn(alloc, store, disk)?;
    }
    Ok(())
}

// Tells the book of a store anew, unless its generation is the last one.
fn turn<D: Disk>(alloc: Global, store: &mut Store, disk: &mut D) -> Result<(), StoreFault>
    requires sound { store.old.journal.failed ≡ false }
    requires still { D.tells_files → IsAsLeft mail store.old (D.clock disk.old).now (D.seen disk.old) }
    ensures value { store.new.book ≡ store.old.book }
    ensures sound_still { OnOk result (store.new.journal.failed ≡ false) }
    ensures done { D.tells_files → OnOk result (IsAsLeft mail store.new (D.clock disk.new).now (D.seen disk.new)) }
{
    if store.generation() == u32::MAX {
        return Ok(());
    }
    store.turn(alloc, disk)
}

/// What a store that isn't opened, or not told anew, ends with.
pub(crate) fn status_of(fault: StoreFault) -> Status {
    match fault {
        StoreFault::Memory => Status::Memory,
        StoreFault::Disk => Status::Disk,
        _ => Status::Journal,
    }
}
