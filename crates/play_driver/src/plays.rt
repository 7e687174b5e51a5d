//! A run: the book's actions are played back, and each of its caches becomes the server's.

ghost use Rattle.std.specs.Prelude.{◌≡◌, ◌↔◌, ◌<◌, ◌+◌, ◌*◌, IfOk, IsErrOf, IsTrue, OnOk, Some};
ghost use Rattle.action_queue.specs.Queues.{AllSettled};
ghost use Rattle.journal_core.specs.Sides.{version_written};
ghost use Rattle.book_laws.specs.Kept.{Kept};
ghost use Rattle.play_driver.specs.Running.{turns_left};
ghost use Rattle.playback.specs.declared.need.Need.TheVariants as needs;
ghost use Rattle.store_core.specs.Fold.{IsFold};
ghost use Rattle.store_core.specs.Holding.{IsAsLeft};
ghost use Rattle.store_core.specs.Mail.{mail};
ghost use Rattle.play_driver.specs.Counted.{played_since};
ghost use Rattle.play_driver.specs.Faults.{ComesAnyway};
ghost use Rattle.play_driver.specs.Grounds.{AreBoxes};
ghost use Rattle.play_driver.specs.Joining.{AllFair, IsKept};
ghost use Rattle.play_driver.specs.Played.{played};
ghost use Rattle.play_driver.specs.Playing.{EndsEarly, Plays};
ghost use Rattle.play_driver.specs.Progress.{box_names};
ghost use Rattle.play_driver.specs.Serving.{AllServing};
ghost use Rattle.play_driver.specs.Sessions.{count_of, held_in};
ghost use Rattle.play_driver.specs.Settled.{AreSyncedBehind};
ghost use Rattle.play_driver.specs.declared.fault.PlayFault.{PlayFault};
ghost use Rattle.play_driver.specs.declared.fault.PlayFault.TheVariants as faults;
ghost use Rattle.play_driver.specs.declared.fault.Why.{Why};
ghost use Rattle.play_driver.specs.Accuses.{Accuses};
ghost use Rattle.play_driver.specs.GoesOn.{GoesOn, RunGoesOn, SyncsOn};
ghost use Rattle.play_driver.specs.Reasons.{Reasons, RunReasons};
ghost use Rattle.play_driver.specs.Rests.{Rests, Stored};
ghost use Rattle.play_driver.specs.Surely.{EndSurely};
ghost use Rattle.play_driver.specs.TakesTurn.{Excuses, RunsOn};

use crate::counting::played_since;
use crate::entering::enter;
use crate::turning::{next_need, turn};
use crate::{PlayFault, Played, Session};
use mail_base::Account;
use playback::{Need, Player};
use std::alloc::Global;
use store_core::Store;
use world_traits::{Clocked, Disk, Link, World};

/// Plays the book's actions back, and makes each of its caches the server's: makes one connection, logs in, enables QRESYNC, settles
/// the actions in their order, resynchronises each mailbox in the book's order once all are settled, and leaves. The first fault ends
/// the run; what was recorded before it stands, and a later run goes on from there. The connection is left as it ended: who made the
/// world closes it. Answers how many actions it settled, and how many of them as conflicts.
///
/// `Link` where the link failed; `Refused` where the server said BYE, or NO or BAD to a question: its line; `BadReply` where what
/// came is no reply, lacks what the server owes, or tells a lower HIGHESTMODSEQ than the cache has, or a lower UIDVALIDITY than the
/// cache, or an action's message or intent (RFC 9051, section 2.3.1.1); `Lacking` where the server lacks a thing that this client
/// needs; `Limit` where a limit is passed; `Disk` where the disk failed: then what was to be recorded last is there or not, and the
/// store isn't used again; `Memory`. To record an outcome, or that a try is taken back, takes no memory.
pub fn play<W: World>(
    alloc: Global,
    store: &mut Store,
    account: &Account,
    world: &mut W,
) -> Result<Played, PlayFault>
    requires fold { IsFold store.old.book }
    requires written { store.old.journal.version ≡ version_written }
    requires sound { IsTrue store.old.journal.failed → ⊥ }
    requires left { W.tells_files
        → IsAsLeft mail store.old (W.clock world.old).now (W.seen world.old) }

    // At every moment a stop leaves the book that was, or one further on: no action is forgotten, nor how one ended. Where the book is
    // kept at entry, up to each moment to which others were fair each one is kept and joined to the one before it by one step, so that no
    // action takes effect twice. Where they were fair all the time, each intent and each conflict that is recorded has its reason, and no
    // action ends as unsure but the one whose intent was pending.
    ensures goes_on { RunGoesOn W.Clocked world.old world.new store.old.book }
    ensures reasons { RunReasons W.Clocked world.old world.new
        store.old.book store.new.book result }
    ensures surely { W.tells_server → IsKept mail Kept (W.clock world.old).now
        → AllFair mail played (W.clock world.old) (W.clock world.new)
        → EndSurely store.old.book store.new.book }
    ensures stored { Stored W.Clocked world.new (W.seen world.new) store.old.book store.new result }

    // After Ok each action has an outcome, and each mailbox of the book has a cache that is the server's as it answered for its rows last
    // in this run, behind the last outcome.
    ensures settled { OnOk result (AllSettled store.new.book.queue) }
    ensures synced { W.tells_server → IsKept mail Kept (W.clock world.old).now
        → AllFair mail played (W.clock world.old) (W.clock world.new)
        → OnOk result (AreSyncedBehind (W.clock world.old) (W.clock world.new) store.new.book) }
    ensures played { IfOk result (λ p. p ≡ played_since store.old.book store.new.book) }

    // What was sent and received, over one connection, and what was recorded of it, by few enough SELECTs; or why it ended early. Where a
    // call of the disk or of the link failed, it ends by that fault.
    ensures plays { W.tells_files
        → OnOk result (Plays account.now store.old store.new (W.link world.new)) }
    ensures why { W.tells_files → (fault : PlayFault) → IsErrOf result fault
        → EndsEarly account.now store.old store.new (W.link world.old) (W.link world.new) fault }
    ensures accuses { Accuses W.Clocked world.old world.new result }
    ensures faultless { W.tells_server → IsKept mail Kept (W.clock world.old).now
        → AllFair mail played (W.clock world.old) (W.clock world.new)
        → (why : Why) → IsErrOf result (faults.BadReply why) → ⊥ }

    // A server that serves it, and has each mailbox of the book, ends no run: what else ends one is want of memory, the disk, the link, or a
    // limit.
    ensures complete { W.tells_server → IsKept mail Kept (W.clock world.old).now
        → AllFair mail played (W.clock world.old) (W.clock world.new)
        → AllServing (W.clock world.old) (W.clock world.new)
        → AreBoxes (box_names store.old.book) (W.clock world.old).now.outside.server
        → (fault : PlayFault) → IsErrOf result fault → ComesAnyway fault }
{
    let settled = store.book().queue.settled();
    let ready = enter(alloc, world, account)?;
    let mut player = Player::begin(alloc, store.book());
    let last = play_on(alloc, Session::Ready(ready), store, &mut player, world)?;
    last.leave(world)?;
    Ok(played_since(store.book(), settled))
}

// Takes turns until nothing is needed. Its clauses are those of `turn`, from the first turn to the last.
fn play_on<W: World>(
    alloc: Global,
    session: Session,
    store: &mut Store,
    player: &mut Player,
    world: &mut W,
) -> Result<Session, PlayFault>
    requires fold { IsFold store.old.book }
    requires rests { Rests W.Clocked world.old player.old store.old.book session }
    requires room { count_of session
        + 2 * turns_left (held_in session) player.old store.old.book + 3 < 4294967295 }
    requires written { store.old.journal.version ≡ version_written }
    requires sound { IsTrue store.old.journal.failed → ⊥ }
    requires left { W.tells_files
        → IsAsLeft mail store.old (W.clock world.old).now (W.seen world.old) }
    ensures goes_on { GoesOn W.Clocked world.old world.new session player.old player.new
        store.old.book store.new.book result }
    ensures synced { SyncsOn W.Clocked world.old world.new session player.old player.new
        store.old.book store.new.book result }
    ensures reasons { Reasons W.Clocked
        (AllFair mail played (W.clock world.old) (W.clock world.new))
        world.old world.new session player.old store.old.book store.new.book result }
    ensures runs { RunsOn W.Clocked world.old world.new session player.old player.new
        store.old store.new result }
    ensures excuses { Excuses W.Clocked world.old world.new session player.old
        store.old.book result }
    ensures accuses { Accuses W.Clocked world.old world.new result }
    ensures rests { IfOk result (Rests W.Clocked world.new player.new store.new.book) }
    ensures stored { Stored W.Clocked world.new (W.seen world.new) store.old.book store.new result }
{
    let mut at = session;
    loop {
        let need = next_need(player, store.book())?;
        if is_finished(&need) {
            return Ok(at);
        }
        at = turn(alloc, at, store, player, world, need)?;
    }
}

// Whether nothing is needed.
fn is_finished(need: &Option<Need>) -> bool
    ensures { IsTrue result ↔ (need.now ≡ Some needs.Finished) }
{
    matches!(need, Some(Need::Finished))
}
