//! The actions are played back, and each cache becomes the server's.

ghost use Rattle.std.specs.Prelude.{◌≡◌, ⊤};
ghost use Rattle.mail_base.specs.declared.status.Status.TheVariants as status;
ghost use Rattle.mail_top.specs.BesideServer.{BesideServer};
ghost use Rattle.mail_top.specs.Causing.{HasCauses};
ghost use Rattle.mail_top.specs.Course.{course_of};
ghost use Rattle.mail_top.specs.Ending.{EndsPlay};
ghost use Rattle.mail_top.specs.Going.{GoesBy};
ghost use Rattle.mail_top.specs.Resting.{KeepsOneSide};
ghost use Rattle.mail_top.specs.Telling.{status_of_play, text_of_play};
ghost use Rattle.mail_top.specs.Words.{Play};

use crate::Unfinished;
use crate::readying::made_ready;
use mail_base::Account;
use play_driver::{Played, play as play_run};
use std::alloc::Global;
use world_traits::{Clocked, Disk, Link, World};

/// Plays the book's actions back, and makes each of its caches the server's.
///
/// The files are synced and read; where they hold no book they stay as they are, and the link isn't called. Before it is, the book
/// is told anew on the journal's other side where that is of an older version, or where its records grew long. The connection is
/// left as it ended.
pub fn play<W: World>(alloc: Global, account: &Account, world: &mut W) -> Result<Played, Unfinished>
    // What became of it, as its status says it.
    ensures ends { W.tells_files → EndsPlay account.now (course_of W.Clocked W.seen world.old world.new)
        (status_of_play result) (text_of_play result) }

    // At every moment a stop leaves what one at entry could have left, or the book that was read, or one further on; and no step
    // loses an action that all images hold, nor its outcome.
    ensures goes { W.tells_files → GoesBy Play (course_of W.Clocked W.seen world.old world.new) }
    ensures sides { W.tells_files → KeepsOneSide (W.clock world.old) (W.clock world.new) }

    // What holds of the book beside the server, and why it blames the disk or the link.
    ensures server { BesideServer W.Clocked W.seen ⊤ world.old world.new (status_of_play result)
        (text_of_play result) }
    ensures causes { HasCauses W.Clocked world.old world.new (status_of_play result) }
    ensures unread { status_of_play result ≡ status.Input → ⊥ }
{
    let mut store = made_ready(alloc, world)?;
    let played = play_run(alloc, &mut store, account, world)?;
    Ok(played)
}
