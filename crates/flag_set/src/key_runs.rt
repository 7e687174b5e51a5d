//! Runs of keys that rise by their bytes, from which sets of flags are made (RFC 9051, section 2.3.2).

ghost use Rattle.std.specs.Prelude.{◌≡◌, [], not, filter, IfOk, IfNone, IfSome};
ghost use Rattle.flag_set.specs.FlagSet.{IsRising, has, union};
ghost use Rattle.flag_set.specs.KeyRuns.{IsFirst, IsLower};
ghost use Rattle.flag_set.specs.FlagText.{list_text};

use crate::flag_key::FlagKey;
use crate::flag_set::FlagSet;
use std::alloc::{AllocError, Global};
use std::cmp::Ordering;

pub(crate) fn copied(alloc: Global, keys: &[FlagKey]) -> Result<Vec<FlagKey>, AllocError>
    ensures { IfOk result (λ copies. copies.items ≡ keys.now) }
{
    let mut copies = Vec::with_capacity(alloc, keys.len())?;
    for key in keys {
        copies.push(key.copy()?)?;
    }
    Ok(copies)
}

pub(crate) fn lacking(
    alloc: Global,
    keys: &[FlagKey],
    others: &FlagSet,
) -> Result<Vec<FlagKey>, AllocError>
    ensures { IfOk result (λ rest. rest.items ≡ filter (λ key. not (has others.now key)) keys.now) }
{
    let mut rest = Vec::new(alloc);
    for key in keys {
        if !others.holds(key) {
            rest.push(key.copy()?)?;
        }
    }
    Ok(rest)
}

pub(crate) fn merged(
    alloc: Global,
    mut left: &[FlagKey],
    mut right: &[FlagKey],
) -> Result<Vec<FlagKey>, AllocError>
    requires left_rises { IsRising left.now }
    requires right_rises { IsRising right.now }
    ensures { IfOk result (λ keys. keys.items ≡ union left.entry.now right.entry.now) }
{
    let mut keys = Vec::new(alloc);
    while let Some(first) = first_of(left, right) {
        keys.push(first.key.copy()?)?;
        left = left.split_at(first.lefts).1;
        right = right.split_at(first.rights).1;
    }
    Ok(keys)
}

pub(crate) fn joined(alloc: Global, keys: &[FlagKey]) -> Result<Vec<u8>, AllocError>
    ensures { IfOk result (λ text. text.items ≡ list_text keys.now) }
{
    let mut text = Vec::new(alloc);
    for (at, key) in keys.iter().enumerate() {
        if at > 0 {
            text.push(b' ')?;
        }
        text.extend_from_slice(key.spelling())?;
    }
    Ok(text)
}

// The lower of two runs' first keys, and how many keys of each run it stands for.
#[derive(Clone, Copy)]
struct First<'a> {
    key: &'a FlagKey,
    lefts: usize,
    rights: usize,
}

fn first_of<'a>(left: &'a [FlagKey], right: &'a [FlagKey]) -> Option<First<'a>>
    requires left_rises { IsRising left.now }
    requires right_rises { IsRising right.now }
    ensures ended { IfNone result (union left.now right.now ≡ []) }
    ensures first { IfSome result (λ first. IsFirst left.now right.now first.key.now first.lefts first.rights) }
{
    match (left.first(), right.first()) {
        (None, None) => None,
        (Some(key), None) => Some(First {
            key,
            lefts: 1,
            rights: 0,
        }),
        (None, Some(key)) => Some(First {
            key,
            lefts: 0,
            rights: 1,
        }),
        (Some(key), Some(other)) => Some(lower_of(key, other)),
    }
}

fn lower_of<'a>(key: &'a FlagKey, other: &'a FlagKey) -> First<'a>
    ensures { IsLower key.now other.now result.key.now result.lefts result.rights }
{
    match key.cmp(other) {
        Ordering::Less => First {
            key,
            lefts: 1,
            rights: 0,
        },
        Ordering::Equal => First {
            key,
            lefts: 1,
            rights: 1,
        },
        Ordering::Greater => First {
            key: other,
            lefts: 0,
            rights: 1,
        },
    }
}
