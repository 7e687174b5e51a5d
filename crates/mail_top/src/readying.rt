//! A journal is made ready for playback: it is opened, and told anew where it grew long.

ghost use Rattle.std.specs.Prelude.{◌≡◌, ◌↔◌, ◌*◌, ◌≤◌, IfOk, IsErrOf, IsTrue, OnOk, false};
ghost use Rattle.journal_core.specs.Blames.{BlamesWhere};
ghost use Rattle.journal_core.specs.Sides.{version_written};
ghost use Rattle.store_core.specs.Fold.{IsFold};
ghost use Rattle.store_core.specs.Holding.{IsAsLeft};
ghost use Rattle.store_core.specs.Mail.{mail};
ghost use Rattle.mail_top.specs.declared.refusal.Refusal.{Refusal};
ghost use Rattle.mail_top.specs.declared.refusal.Refusal.TheVariants as refusals;
ghost use Rattle.mail_top.specs.Course.{course_of};
ghost use Rattle.mail_top.specs.Readying.{IsLongFor, IsOpened, IsUnready, NoTurnDue, Readies};

use crate::Refusal;
use crate::takeover::take_over;
use journal_core::MAX_SIDE;
use std::alloc::Global;
use store_core::Store;
use world_traits::{Clocked, Disk};

// A journal up to this place isn't told anew, in bytes.
const SHORT: u64 = 4096;

/// Opens the journal, and tells its book anew on the other side where that is due: where it is of an older version than the one that
/// is written; or where it ends past 4,096 bytes, a generation is to come, and told anew it takes at most half of them.
///
/// A stop leaves the book all the same. Beside the book memory is taken for what is told anew, before the first write. Fails as
/// `Store::open` does, as `take_over` does, and where the disk fails or memory is wanting for what is told anew.
pub fn made_ready<D: Disk>(alloc: Global, disk: &mut D) -> Result<Store, Refusal>
    ensures moments { D.tells_files → Readies (D.clock disk.old) (D.clock disk.new) (D.seen disk.old) }
    ensures opened { D.tells_files → IfOk result (λ store. IsOpened (D.clock disk.old).now (D.seen disk.old) store) }
    ensures still { D.tells_files → IfOk result (λ store.
        IsAsLeft mail store (D.clock disk.new).now (D.seen disk.new)) }
    ensures none_due { D.tells_files → OnOk result (NoTurnDue (D.clock disk.new).now) }
    ensures sound { IfOk result (λ store. store.journal.failed ≡ false) }
    ensures written { IfOk result (λ store. store.journal.version ≡ version_written) }
    ensures fold { IfOk result (λ store. IsFold store.book) }
    ensures unready { D.tells_files → (refusal : Refusal) → IsErrOf result refusal →
        IsUnready (course_of D.Clocked D.seen disk.old disk.new) refusal }
    ensures blames { BlamesWhere D.Clocked disk.old disk.new (IsErrOf result refusals.Disk) }
    ensures never { IsErrOf result refusals.Input → ⊥ }
{
    let mut store = Store::open(alloc, disk)?;
    take_over(alloc, disk, &mut store)?;
    if !is_turn_due(&store) {
        return Ok(store);
    }
    store.turn(alloc, disk)?;
    Ok(store)
}

// Whether the book is to be told anew for its length. Its size is counted last, since that walks the book.
fn is_turn_due(store: &Store) -> bool
    ensures { IsTrue result ↔ IsLongFor store.now }
{
    let end = store.end();
    if end <= SHORT {
        return false;
    }
    let generation = store.generation();
    if generation == u32::MAX {
        return false;
    }
    let size = store.restated_size();
    if size > MAX_SIDE {
        return false;
    }
    is_half(size, end)
}

// Whether this is at most half of that.
fn is_half(size: u64, end: u64) -> bool
    ensures { IsTrue result ↔ (2 * size ≤ end) }
{
    size <= end / 2
}
