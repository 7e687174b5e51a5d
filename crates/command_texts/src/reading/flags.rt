//! Lists of flags (RFC 9051, section 9, flag-list), of any number.

ghost use Rattle.std.specs.Prelude.{◌≡◌, List, ℕ, Some, IfOk, IsErr};
ghost use Rattle.flag_set.specs.Flag.{spelling};
ghost use Rattle.flag_set.specs.FlagKey.{IsKey};
ghost use Rattle.flag_set.specs.FlagSet.{IsFlagSet};
ghost use Rattle.flag_set.specs.declared.flag_fault.FlagFault.TheVariants.{Memory};
ghost use Rattle.flag_set.specs.FlagText.{list_text};

use crate::reading::cuts::until;
use flag_set::{FlagFault, FlagKey, FlagSet};
use std::alloc::{AllocError, Global};

// The key of the flag that the text is.
fn key_of(alloc: Global, text: &[u8]) -> Result<Option<FlagKey>, AllocError>
    ensures { (key : List ℕ) → IsKey key → text.now ≡ spelling key → IfOk result (λ found. found ≡ Some key) }
{
    match FlagKey::new(alloc, text) {
        Ok(key) => Ok(Some(key)),
        Err(fault) => refused(fault),
    }
}

// A text with a fault is no flag. Want of memory says nothing of the text.
fn refused(fault: FlagFault) -> Result<Option<FlagKey>, AllocError>
    ensures { fault ≡ Memory → IsErr result }
{
    match fault {
        FlagFault::Memory => Err(AllocError),
        FlagFault::TooLong { .. } | FlagFault::TooMany { .. } | FlagFault::BadFlag { .. } => Ok(
            None,
        ),
    }
}

/// The set of the flags in a text, which has one space between two of them.
pub fn flags_of(alloc: Global, text: &[u8]) -> Result<Option<FlagSet>, AllocError>
    ensures { (keys : List (List ℕ)) → IsFlagSet keys → text.now ≡ list_text keys → IfOk result (λ found. found ≡ Some keys) }
{
    let mut set = FlagSet::none(alloc);
    let mut left = text;
    while !left.is_empty() {
        let (flag, behind) = until(left, b' ');
        let Some(key) = key_of(alloc, flag)? else {
            return Ok(None);
        };
        set.add(key)?;
        left = behind;
    }
    Ok(Some(set))
}
