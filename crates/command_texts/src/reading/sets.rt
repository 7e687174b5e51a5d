//! Sets of UIDs (RFC 9051, section 9, sequence-set).

ghost use Rattle.std.specs.Prelude.{◌≡◌, List, Some, IfOk, IsErr};
ghost use Rattle.uid_sets.specs.Spelling.{set_text};
ghost use Rattle.uid_sets.specs.UidSet.{IsCanonical};
ghost use Rattle.uid_sets.specs.declared.set_fault.SetFault.TheVariants.{Memory};
ghost use Rattle.uid_sets.specs.declared.uid.UidRange.{UidRange};

use std::alloc::{AllocError, Global};
use uid_sets::{SetFault, UidSet};

/// The set that the text is. One without bytes is the empty set.
pub fn uids_of(alloc: Global, text: &[u8]) -> Result<Option<UidSet>, AllocError>
    ensures { (uids : List UidRange) → IsCanonical uids → text.now ≡ set_text uids → IfOk result (λ found. found ≡ Some uids) }
{
    if text.is_empty() {
        return Ok(Some(UidSet::none(alloc)));
    }
    match UidSet::read(alloc, text) {
        Ok(uids) => Ok(Some(uids)),
        Err(fault) => refused(fault),
    }
}

// A text with a fault is no set. Want of memory says nothing of the text.
fn refused(fault: SetFault) -> Result<Option<UidSet>, AllocError>
    ensures { fault ≡ Memory → IsErr result }
{
    match fault {
        SetFault::Memory => Err(AllocError),
        SetFault::Empty
        | SetFault::Zero { .. }
        | SetFault::BadNumber { .. }
        | SetFault::BadByte { .. } => Ok(None),
    }
}
