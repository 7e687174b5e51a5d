//! What became of the actions in a world.

ghost use Rattle.std.specs.Prelude.{◌≡◌, IfOk, OnOk, Some};
ghost use Rattle.action_queue.specs.Book.{Meaning};
ghost use Rattle.store_core.specs.Mail.{mail};
ghost use Rattle.store_core.specs.Steps.{Firm};
ghost use Rattle.store_core.specs.Taking.{HasBooks};
ghost use Rattle.world_traits.specs.Moments.{MayLeave};
ghost use Rattle.world_mem.specs.Image.{bytes_of};
ghost use Rattle.world_mem.specs.Worlds.{run_in};
ghost use Rattle.mail_drill.specs.Counted.{settled_in, twice_in, missing_in};
ghost use Rattle.mail_drill.specs.Standing.{now_of};
ghost use Rattle.mail_drill.specs.declared.tally.Counts.{Counts as AnyCounts};

use crate::counting::counts_of;
use crate::quiet_world::QuietWorld;
use crate::tally::Counts;
use mail_base::Bytes;
use std::alloc::{AllocError, Global};
use store_core::{Store, StoreFault};
use world_mem::{Files, ImageFault};
use world_traits::MemDisk;

/// What became of the actions of the book that is on the world's files, by the history of its server; and nothing only where they hold no
/// book.
pub fn counts_in(alloc: Global, world: &QuietWorld) -> Result<Option<Counts>, AllocError>
    ensures { (b : Meaning) → HasBooks mail (Firm (Some b)) (now_of world.now) → IfOk result (λ told. (counts : AnyCounts) × (told ≡ Some counts)
        × (counts.settled ≡ settled_in b.queue)
        × (counts.twice ≡ twice_in b.queue (run_in world.now.world).state.server.history)
        × (counts.missing ≡ missing_in b.queue (run_in world.now.world).state.server.history)) }
{
    let files = last_image(world)?;
    let Files { left, right } = files;
    let left = vec_of(alloc, left)?;
    let right = vec_of(alloc, right)?;
    let mut disk = MemDisk::new(left, right);
    let store = match Store::open(alloc, &mut disk) {
        Ok(store) => store,
        Err(fault) => return without_store(fault),
    };
    let history = world.server().history.as_slice();
    Ok(Some(counts_of(&store.book().queue, history)))
}

// What is counted where no store is opened over a disk in memory, which fails for want of it alone.
fn without_store(fault: StoreFault) -> Result<Option<Counts>, AllocError>
    ensures { OnOk result ((fault ≡ StoreFault.Memory → ⊥) × (fault ≡ StoreFault.Disk → ⊥)) }
{
    match fault {
        StoreFault::Memory | StoreFault::Disk => Err(AllocError),
        StoreFault::Already | StoreFault::Full { .. } | StoreFault::NotAJournal { .. } => Ok(None),
    }
}

/// The bytes in a `Vec` of their own.
pub fn vec_of(alloc: Global, bytes: Bytes) -> Result<Vec<u8>, AllocError>
    ensures { IfOk result (λ content. content.items ≡ bytes) }
{
    bytes.as_slice().to_vec(alloc)
}

// What a stop now would leave of the files, with all that was written.
fn last_image(world: &QuietWorld) -> Result<Files, AllocError>
    ensures { IfOk result (λ files. MayLeave (now_of world.now) (bytes_of files)) }
{
    match world.images_at(world.moments().saturating_sub(1), 1) {
        Ok(files) => Ok(files),
        Err(ImageFault::Memory) => Err(AllocError),
        Err(ImageFault::NoMoment { .. }) => unreachable!(),
    }
}
