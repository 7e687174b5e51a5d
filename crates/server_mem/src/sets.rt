//! Sets of the UIDs in a list.

ghost use Rattle.std.specs.Prelude.{◌≡◌, ◌↔◌, ◌⊎◌, ◌<◌, ◌^◌, ℕ, IfOk, OnOk};
ghost use Rattle.uid_sets.specs.UidSet.{Member, IsCanonical};
ghost use Rattle.imap_model.specs.UidLists.{set_of};

use std::alloc::{AllocError, Global};
use uid_sets::{Uid, UidSet};

// Adds a UID, which is a nonzero number of 32 bits.
fn put(set: &mut UidSet, uid: Uid) -> Result<(), AllocError>
    ensures canonical { IsCanonical set.new }
    ensures members { OnOk result ((v : ℕ) → Member set.new v ↔ (Member set.old v ⊎ (v ≡ uid))) }
    ensures number { (0 < uid) × (uid < 2 ^ 32) }
{
    set.add(uid)
}

/// The set of the UIDs.
pub fn set_of(alloc: Global, uids: &[Uid]) -> Result<UidSet, AllocError>
    ensures { IfOk result (λ set. set ≡ set_of uids.now) }
{
    let mut set = UidSet::none(alloc);
    for uid in uids {
        put(&mut set, *uid)?;
    }
    Ok(set)
}
