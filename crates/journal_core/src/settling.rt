//! Both files are synced before they are read, so that what is read is what a later stop leaves.

ghost use Rattle.std.specs.Prelude.{◌≡◌, ◌≤◌, OnErr, OnOk};
ghost use Rattle.journal_core.specs.Blames.{Blames};
ghost use Rattle.world_traits.specs.Moments.{Rests};
ghost use Rattle.journal_core.specs.Settling.{Syncs};

use world_traits::{Clocked, Disk, DiskFailed, Side};

/// Syncs both files. After Ok all that is read is on the disk. Each image of each moment was one
/// before.
pub fn settle_both<D: Disk>(disk: &mut D) -> Result<(), DiskFailed>
    ensures syncs { D.tells_files → Syncs (D.clock disk.old) (D.clock disk.new) (D.seen disk.old) }
    ensures rests { D.tells_files → OnOk result (Rests (D.clock disk.new).now (D.seen disk.new)) }
    ensures seen { D.tells_files → OnOk result (D.seen disk.new ≡ D.seen disk.old) }
    ensures blames { Blames D.Clocked disk.old disk.new result }
{
    disk.sync(Side::Left)?;
    disk.sync(Side::Right)
}
