//! Bytes are put behind a closed gate, and count once it is open.

ghost use Rattle.std.specs.Prelude.{◌≡◌, ◌≤◌, ◌+◌, ◌^◌, length, OnErr, OnOk};
ghost use Rattle.journal_core.specs.Blames.{Blames};
ghost use Rattle.journal_core.specs.Gates.{OpensGate};
ghost use Rattle.journal_core.specs.OneSide.{IsAside};

use world_traits::{Clocked, Disk, DiskFailed, Side};

/// The byte of an open gate. Every other byte is a closed one.
pub const OPEN: u8 = 1;

/// The byte of a gate that is written closed.
pub const CLOSED: u8 = 0;

/// Writes bytes behind the closed gate at the place, and then opens the gate.
///
/// The bytes are durable before the gate opens, so a stop leaves them whole or not counted.
pub fn write_gated<D: Disk>(
    disk: &mut D,
    side: Side,
    place: u64,
    fresh: &[u8],
) -> Result<(), DiskFailed>
    requires room { place + 1 + length fresh.now ≤ 2 ^ 32 }
    ensures told { D.tells_files → OpensGate side place fresh.now (D.clock disk.old)
        (D.clock disk.new) (D.seen disk.old) (D.seen disk.new) result }
    ensures aside { D.tells_files → IsAside side (D.clock disk.old) (D.clock disk.new) }
    ensures blames { Blames D.Clocked disk.old disk.new result }
{
    disk.write_at(side, place + 1, fresh)?;
    disk.sync(side)?;
    disk.write_at(side, place, &[OPEN])?;
    disk.sync(side)
}
