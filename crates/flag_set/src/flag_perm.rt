//! Lists of flags as servers tell them, whether they are well formed and which flags can be changed for good (RFC 9051,
//! section 9, flag-list and flag-perm).

ghost use Rattle.std.specs.Prelude.{◌≡◌, ◌≤◌, ◌⊎◌, ◌||◌, length, None, Some, IfErr, IfOk, OnOk};
ghost use Rattle.std.specs.List.{list_all, list_any};
ghost use Rattle.flag_set.specs.Flag.{is_flag};
ghost use Rattle.flag_set.specs.FlagList.{first_fault_of, flags_alone, flags_of, is_any, set_of};

use crate::flag_fault::{FlagFault, MAX_FLAGS};
use crate::flag_key::{FlagKey, is_flag};
use crate::flag_list::first_flag;
use crate::flag_set::FlagSet;
use std::alloc::Global;

/// Reads the flags that can be changed for good (RFC 9051, section 9, flag-perm), as `read_list` does, and whether
/// `\*` stands among them, where it may stand anywhere and more than once.
pub fn read_permanent(alloc: Global, text: &[u8]) -> Result<(FlagSet, bool), FlagFault>
    ensures value { IfOk result (λ read. read.0 ≡ set_of (flags_alone (flags_of text.now))) }
    ensures any { IfOk result (λ read. read.1 ≡ list_any is_any (flags_of text.now)) }
    ensures few { IfOk result (λ read. length read.0 ≤ MAX_FLAGS) }
    ensures accepted { OnOk result (first_fault_of (flags_alone (flags_of text.now)) ≡ None) }
    ensures refused { IfErr result (λ fault.
        (first_fault_of (flags_alone (flags_of text.now)) ≡ Some fault) ⊎ (fault ≡ FlagFault.Memory)) }
{
    let mut set = FlagSet::none(alloc);
    let mut any = false;
    let mut left = if text.is_empty() { None } else { Some(text) };
    while let Some(list) = left {
        let (flag, later) = first_flag(list);
        left = later;
        if is_any(flag) {
            any = true;
            continue;
        }
        set.keep(FlagKey::new(alloc, flag)?)?;
    }
    Ok((set, any))
}

/// Whether a text is flags with one or more spaces between them, whatever their number and their length.
pub fn is_flag_list(text: &[u8]) -> bool
    ensures { result ≡ list_all is_flag (flags_of text.now) }
{
    let mut left = if text.is_empty() { None } else { Some(text) };
    while let Some(list) = left {
        let (flag, later) = first_flag(list);
        if !is_flag(flag) {
            return false;
        }
        left = later;
    }
    true
}

/// The same where `\*` may stand among them.
pub fn is_permanent_list(text: &[u8]) -> bool
    ensures { result ≡ list_all (λ flag. is_any flag || is_flag flag) (flags_of text.now) }
{
    let mut left = if text.is_empty() { None } else { Some(text) };
    while let Some(list) = left {
        let (flag, later) = first_flag(list);
        if !(is_any(flag) || is_flag(flag)) {
            return false;
        }
        left = later;
    }
    true
}

// Whether the text is `\*`.
fn is_any(flag: &[u8]) -> bool
    ensures { result ≡ is_any flag.now }
{
    flag == b"\\*".as_slice()
}
