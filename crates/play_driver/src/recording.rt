//! An event that playback needs is recorded.

ghost use Rattle.std.specs.Prelude.{◌≡◌, Some, IsErr, IsErrOf, IsTrue, None, OnOk, false, is_some, true};
ghost use Rattle.action_queue.specs.Writable.{IsWritable};
ghost use Rattle.journal_core.specs.OneSide.{EachOneSide};
ghost use Rattle.journal_core.specs.Sides.{version_written};
ghost use Rattle.playback.specs.Allowed.{Records};
ghost use Rattle.playback.specs.Left.{left};
ghost use Rattle.playback.specs.Needs.{need_of};
ghost use Rattle.store_core.specs.Holding.{IsAsLeft};
ghost use Rattle.store_core.specs.Mail.{mail, IsOld, MayCome};
ghost use Rattle.store_core.specs.Taking.{Takes};
ghost use Rattle.store_core.specs.declared.fault.CommitFault.{CommitFault};
ghost use Rattle.store_core.specs.declared.fault.CommitFault.TheVariants as commits;
ghost use Rattle.play_driver.specs.Faults.{of_commit};
ghost use Rattle.play_driver.specs.Recording.{NotRecorded, recorded};
ghost use Rattle.play_driver.specs.Accuses.{AccusesDisk};
ghost use Rattle.play_driver.specs.Sessions.{held_in};
ghost use Rattle.play_driver.specs.Turned.{MayTurn, Turned};

use crate::{PlayFault, Session};
use action_queue::Event;
use playback::Player;
use std::alloc::Global;
use store_core::{CommitFault, Store};
use world_traits::{Clocked, Disk, Link, World};

/// Records the event that the player needs: on the disk, and then in the book; and the player goes on behind it. An outcome is
/// recorded without taking memory, and that a try is taken back. Its contract is that of `turn`.
///
/// `Limit` where the journal has no room for it; `Memory`. Then nothing has changed. After `Disk` the event is on the disk or not, and
/// the store isn't used again.
pub(crate) fn record<W: World>(
    alloc: Global,
    session: Session,
    store: &mut Store,
    player: &mut Player,
    world: &mut W,
    event: Event,
) -> Result<Session, PlayFault>
    requires needed { Records (need_of player.old store.old.book) event }
    requires resting { held_in session ≡ None }
    requires ready { MayTurn W.Clocked world.old (W.seen world.old) session player.old store.old }
    ensures { Turned W.Clocked world.old world.new (W.seen world.new) session
        player.old player.new store.old store.new result }
{
    enter_event(alloc, store, world, event)?;
    player.committed(store.book());
    Ok(session)
}

/// Records what a resynchronisation told, as `record` does: it is moved out of the player, which goes on behind the record. No
/// row is copied, and no memory is taken for the event. After a fault the player isn't used again.
pub(crate) fn learn<W: World>(
    alloc: Global,
    session: Session,
    store: &mut Store,
    player: &mut Player,
    world: &mut W,
) -> Result<Session, PlayFault>
    requires waits { is_some player.old.learns ≡ true }
    requires resting { held_in session ≡ None }
    requires ready { MayTurn W.Clocked world.old (W.seen world.old) session player.old store.old }
    ensures { Turned W.Clocked world.old world.new (W.seen world.new) session
        player.old player.new store.old store.new result }
{
    let told = player.learn(store.book());
    enter_event(alloc, store, world, told)?;
    Ok(session)
}

/// Records an event, and enters it into the book. Its clauses are those of `Store::commit`.
pub(crate) fn enter_event<D: Disk>(
    alloc: Global,
    store: &mut Store,
    disk: &mut D,
    event: Event,
) -> Result<(), CommitFault>
    requires lawful { MayCome store.old.journal.version (Some store.old.book) event }
    requires writable { IsWritable event }
    requires fresh { IsOld event → ⊥ }
    requires written { store.old.journal.version ≡ version_written }
    requires sound { IsTrue store.old.journal.failed → ⊥ }
    requires left { D.tells_files
        → IsAsLeft mail store.old (D.clock disk.old).now (D.seen disk.old) }
    ensures takes { D.tells_files
        → Takes mail (Some store.old.book) event (D.clock disk.old) (D.clock disk.new) }
    ensures value { OnOk result (store.new ≡ recorded store.old event) }
    ensures left { D.tells_files
        → OnOk result (IsAsLeft mail store.new (D.clock disk.new).now (D.seen disk.new)) }
    ensures sound_still { OnOk result (store.new.journal.failed ≡ false) }
    ensures why { (fault : CommitFault) → IsErrOf result fault
        → NotRecorded event store.old (of_commit fault) }
    ensures stays { IsErr result → store.new.book ≡ store.old.book }
    ensures kept { IsErr result → (IsErrOf result commits.Disk → ⊥)
        → (store.new ≡ store.old) × (disk.new ≡ disk.old) }
    ensures each_one_side { D.tells_files → EachOneSide (D.clock disk.old) (D.clock disk.new) }
    ensures accuses { AccusesDisk D.Clocked disk.old disk.new (IsErrOf result commits.Disk) }
{
    match event {
        Event::Settle { id, outcome } => store.settle(disk, id, outcome),
        Event::Withdraw { id, tries } => store.withdraw(disk, id, tries),
        event => store.commit(alloc, disk, event),
    }
}
