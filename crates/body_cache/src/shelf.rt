//! Where texts are kept.

use crate::Key;

/// The shelf failed.
#[derive(Clone, Copy, Debug, PartialEq, Eq)]
pub struct ShelfFailed;

/// Why an entry isn't told.
#[derive(Clone, Copy, Debug, PartialEq, Eq)]
pub enum GetFault {
    /// Memory is wanting.
    Memory,
    /// The shelf failed.
    Failed,
}

/// Keeps the texts of messages, one under a key. Losing it loses no mail: what it holds can be fetched again.
///
/// A shelf counts the calls that fail. Where it tells, contracts see its texts.
pub trait Shelf {
    ghost use Rattle.std.specs.Prelude.{◌≡◌, ◌≤◌, ℕ, List, option_map, OnOk, IfOk, IsErr, IsErrOf};
    ghost use Rattle.world_traits.specs.Calls.{Rose};
    ghost use Rattle.body_cache.specs.Shelf.{IsPut, KeepsOthers, text_at};
    ghost use Rattle.body_cache.specs.declared.key.KeptText.{KeptText};
    ghost use Rattle.body_cache.specs.declared.shelf.GetFault.TheVariants as gets;

    /// Whether contracts see the texts.
    ghost tells: { Type 0 };

    /// The texts.
    ghost texts: { Self → List KeptText };

    /// How many calls failed, to 2^64 - 1.
    ghost shelf_faults: { Self → ℕ };

    /// Puts a text under a key, in place of the one that is there. After a fault that entry is unknown; the others stay.
    fn put(&mut self, key: &Key, text: &[u8]) -> Result<(), ShelfFailed>
        ensures put { tells → OnOk result (IsPut key.now text.now (texts self.old) (texts self.new)) }
        ensures others { tells → KeepsOthers key.now (texts self.old) (texts self.new) }
        ensures cause { IsErr result → Rose (shelf_faults self.old) (shelf_faults self.new) }
        ensures unfailed { OnOk result (shelf_faults self.new ≡ shelf_faults self.old) }
        ensures count { shelf_faults self.old ≤ shelf_faults self.new };

    /// The text under a key. `None` exactly where there is none.
    fn get(&mut self, key: &Key) -> Result<Option<Vec<u8>>, GetFault>
        ensures text { tells → IfOk result (λ found. option_map (λ text. text.items) found ≡ text_at key.now (texts self.old)) }
        ensures kept { tells → texts self.new ≡ texts self.old }
        ensures cause { IsErrOf result gets.Failed → Rose (shelf_faults self.old) (shelf_faults self.new) }
        ensures unfailed { (IsErrOf result gets.Failed → ⊥) → shelf_faults self.new ≡ shelf_faults self.old }
        ensures count { shelf_faults self.old ≤ shelf_faults self.new };
}
