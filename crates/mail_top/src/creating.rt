//! A journal is set up for some mailboxes.

ghost use Rattle.std.specs.Prelude.{◌≡◌, ◌≤◌, map, string_bytes, IsErrOf};
ghost use Rattle.world_traits.specs.Calls.{Rose};
ghost use Rattle.world_traits.specs.Links.{Any};
ghost use Rattle.world_traits.specs.Moments.{Narrows, OneSideAtRest, Since};
ghost use Rattle.mail_base.specs.Lines.{ready};
ghost use Rattle.journal_core.specs.Creating.{IsTaken};
ghost use Rattle.journal_core.specs.OneSide.{EachOneSide};
ghost use Rattle.store_core.specs.Mail.{mail};
ghost use Rattle.store_core.specs.Steps.{Books};
ghost use Rattle.store_core.specs.Taking.{HasBooks};
ghost use Rattle.mail_top.specs.Ending.{EndsInit};
ghost use Rattle.mail_top.specs.Telling.{status_of, text_of};
ghost use Rattle.mail_top.specs.Leaving.{KeepsStep, MayBeLeft, RequestStep};
ghost use Rattle.mail_top.specs.Names.{name_of, WriteNames};
ghost use Rattle.mail_top.specs.Words.{Init};
ghost use Rattle.mail_top.specs.declared.refusal.Refusal.TheVariants as refusals;

use crate::{Refusal, names_in};
use std::alloc::Global;
use store_core::Store;
use world_traits::{Clocked, Disk};

/// Sets up a journal for the mailboxes that the texts name.
///
/// Both files are synced first; where a side has a wrong header or a journal is there, they stay as they are. Memory is
/// taken before the first write.
pub fn init<D: Disk>(alloc: Global, disk: &mut D, texts: &[String]) -> Result<(), Refusal>
    requires { WriteNames (map string_bytes texts.now) }

    // What became of it, as its status says it.
    ensures ends { D.tells_files → EndsInit (map name_of (map string_bytes texts.now))
        (record {
          old = D.clock disk.old;
          new = D.clock disk.new;
          seen = D.seen disk.old;
          seen_after = D.seen disk.new;
          link = D.link disk.old;
          link_after = D.link disk.new;
        })
        (status_of result) (text_of (λ _. ready) result) }

    // At every moment a stop leaves what one at entry could have left, or no journal, or the book of the names; and no step
    // loses an action that all images hold.
    ensures keeps { D.tells_files → Since (MayBeLeft (Init (map name_of (map string_bytes texts.now))) (D.clock disk.old).now (D.seen disk.old))
        (KeepsStep (Init (map name_of (map string_bytes texts.now)))) (D.clock disk.old) (D.clock disk.new) }
    ensures books { D.tells_files → OneSideAtRest (D.clock disk.old).now →
        (books : Books mail) → HasBooks mail books (D.clock disk.old).now →
        Since Any (RequestStep (Init (map name_of (map string_bytes texts.now)))) (D.clock disk.old) (D.clock disk.new) }

    // A journal that is there isn't written, also where the disk fails.
    ensures taken { D.tells_files → IsTaken (D.seen disk.old) → Narrows (D.clock disk.old) (D.clock disk.new) }

    ensures one_side { D.tells_files → OneSideAtRest (D.clock disk.old).now → OneSideAtRest (D.clock disk.new).now }
    ensures each_one_side { D.tells_files → OneSideAtRest (D.clock disk.old).now →
        EachOneSide (D.clock disk.old) (D.clock disk.new) }
    ensures link { D.link disk.new ≡ D.link disk.old }
    ensures count { D.disk_faults disk.old ≤ D.disk_faults disk.new }
    ensures cause { IsErrOf result refusals.Disk → Rose (D.disk_faults disk.old) (D.disk_faults disk.new) }
    ensures unfailed { (IsErrOf result refusals.Disk → ⊥) → D.disk_faults disk.new ≡ D.disk_faults disk.old }
    ensures unread { IsErrOf result refusals.Input → ⊥ }
{
    let names = names_in(alloc, texts)?;
    let _store = Store::init(alloc, disk, names)?;
    Ok(())
}
