//! An action is accepted: the journal is opened, and the action's event is recorded behind the others.

ghost use Rattle.std.specs.Prelude.{◌≡◌, ◌⊎◌, ◌≤◌, ℕ, List, [], IsErrOf, OnOk};
ghost use Rattle.world_traits.specs.Calls.{Rose};
ghost use Rattle.journal_core.specs.Blames.{BlamesWhere};
ghost use Rattle.mail_base.specs.Lines.{accepted};
ghost use Rattle.mail_top.specs.Going.{GoesAction};
ghost use Rattle.mail_top.specs.Reading.{AwaitsOn, IsAppendAsked, IsInput, IsReadOut, TakesFront};
ghost use Rattle.mail_top.specs.Resting.{KeepsOneSide};
ghost use Rattle.mail_top.specs.Telling.{status_of, text_of};
ghost use Rattle.mail_top.specs.Words.{HasFewFlags, wanted_of};
ghost use Rattle.mail_top.specs.declared.refusal.Refusal.TheVariants as refusals;

use crate::takeover::take_over;
use crate::weighing::{next_id, weighed};
use crate::{AskedAction, Refusal};
use action_queue::Event;
use std::alloc::Global;
use store_core::Store;
use world_traits::{Clocked, Disk, Source};

/// Accepts an action: its record is on the disk before its number is told.
///
/// The files are synced and read; where they hold no book, or one that speaks against the action or has no room for it, they
/// stay as they are; but a journal of an older version is taken over where no reason speaks against the action, also where a limit
/// then does. The input is read for an append alone, and only where no reason speaks against it that the book can tell.
/// Memory is taken before the first write. After `Disk` the record may be there, or not.
pub fn accept<D: Disk, I: Source>(
    alloc: Global,
    disk: &mut D,
    input: &mut I,
    asked: &AskedAction<'_>,
) -> Result<u32, Refusal>
    requires { HasFewFlags (wanted_of asked.now []) }

    // What became of it, as its status says it; what a stop leaves at every moment; and how the books go on. What an append puts
    // into a mailbox is what its input gives.
    ensures goes { D.tells_files → (given : List ℕ) × IsInput I.tells (I.rest input.old) given × GoesAction (wanted_of asked.now given)
        (record {
          old = D.clock disk.old;
          new = D.clock disk.new;
          seen = D.seen disk.old;
          seen_after = D.seen disk.new;
          link = D.link disk.old;
          link_after = D.link disk.new;
        })
        (status_of result) (text_of accepted result) }

    ensures sides { D.tells_files → KeepsOneSide (D.clock disk.old) (D.clock disk.new) }

    // How the input is read.
    ensures read { D.tells_files → (input.new ≡ input.old) ⊎ AwaitsOn (wanted_of asked.now []) (D.seen disk.old) }
    ensures awaits { (input.new ≡ input.old) ⊎ IsAppendAsked asked.now }
    ensures taken { I.tells → TakesFront (I.rest input.old) (I.rest input.new) }
    ensures whole { I.tells → IsAppendAsked asked.now → OnOk result (I.rest input.new ≡ []) }
    ensures out { I.tells → (IsErrOf result refusals.Input → ⊥) → (IsErrOf result refusals.Memory → ⊥) → (input.new ≡ input.old) ⊎ IsReadOut (I.rest input.old) (I.rest input.new) }

    // Whom it blames.
    ensures blames { BlamesWhere D.Clocked disk.old disk.new (IsErrOf result refusals.Disk) }
    ensures source_count { I.source_faults input.old ≤ I.source_faults input.new }
    ensures input_cause { IsErrOf result refusals.Input → Rose (I.source_faults input.old) (I.source_faults input.new) }
    ensures never { IsErrOf result refusals.Already → ⊥ }
{
    let mut store = Store::open(alloc, disk)?;
    let action = weighed(alloc, store.book(), input, asked)?;
    take_over(alloc, disk, &mut store)?;
    let book = store.book();
    let id = next_id(&book.queue)?;
    store.commit(alloc, disk, Event::Accept { id, action })?;
    Ok(id.number())
}
