//! Writes the fields of a record's body at the end of bytes. Numbers stand high byte first.

ghost use Rattle.std.specs.Prelude.{◌≡◌, ◌≤◌, ◌<◌, ◌^◌, ◌++◌, OnOk, length};
ghost use Rattle.std.specs.Int.{w16, w32, w64, to_be_bytes};
ghost use Rattle.std.specs.List.{flat_map, AllByRecursion};
ghost use Rattle.flag_set.specs.FlagSet.{IsFlagSet};
ghost use Rattle.mail_base.specs.BoxName.{IsBoxName};
ghost use Rattle.action_queue.specs.Writable.{HaveFewFlags};
ghost use Rattle.record_codec.specs.Fields.{counted, flag_field, target_field, range_field, row_field};
ghost use Rattle.record_codec.specs.Spelling.{IsKeptTarget, IsKeptRow};

use action_queue::Target;
use flag_set::{FlagKey, FlagSet};
use mail_base::BoxName;
use mailbox_cache::Row;
use std::alloc::AllocError;
use uid_sets::{Uid, UidRange};

/// The byte of a closed gate.
pub(crate) const CLOSED: u8 = 0;

/// A number of two bytes.
pub(crate) fn put_u16(out: &mut Vec<u8>, number: u16) -> Result<(), AllocError>
    ensures { OnOk result (out.new.items ≡ out.old.items ++ to_be_bytes w16 number) }
{
    out.extend_from_slice(&number.to_be_bytes())
}

/// A number of four bytes.
pub(crate) fn put_u32(out: &mut Vec<u8>, number: u32) -> Result<(), AllocError>
    ensures { OnOk result (out.new.items ≡ out.old.items ++ to_be_bytes w32 number) }
{
    out.extend_from_slice(&number.to_be_bytes())
}

/// A number of eight bytes.
pub(crate) fn put_u64(out: &mut Vec<u8>, number: u64) -> Result<(), AllocError>
    ensures { OnOk result (out.new.items ≡ out.old.items ++ to_be_bytes w64 number) }
{
    out.extend_from_slice(&number.to_be_bytes())
}

// A text behind its length in one byte.
fn put_counted(out: &mut Vec<u8>, text: &[u8]) -> Result<(), AllocError>
    requires { length text.now ≤ 255 }
    ensures { OnOk result (out.new.items ≡ out.old.items ++ counted text.now) }
{
    out.push(text.len() as u8)?;
    out.extend_from_slice(text)
}

/// A name of a mailbox.
pub(crate) fn put_name(out: &mut Vec<u8>, name: &BoxName) -> Result<(), AllocError>
    ensures wrote { OnOk result (out.new.items ≡ out.old.items ++ counted name.now) }
    ensures kept { IsBoxName name.now }
{
    put_counted(out, name.as_bytes())
}

/// Names, one behind the other.
pub(crate) fn put_names(out: &mut Vec<u8>, names: &[BoxName]) -> Result<(), AllocError>
    ensures wrote { OnOk result (out.new.items ≡ out.old.items ++ flat_map counted names.now) }
    ensures kept { OnOk result (AllByRecursion IsBoxName names.now) }
{
    for name in names {
        put_name(out, name)?;
    }
    Ok(())
}

// A flag's key.
fn put_key(out: &mut Vec<u8>, key: &FlagKey) -> Result<(), AllocError>
    ensures { OnOk result (out.new.items ≡ out.old.items ++ counted key.now) }
{
    put_counted(out, key.as_bytes())
}

// Keys, one behind the other.
fn put_keys(out: &mut Vec<u8>, keys: &[FlagKey]) -> Result<(), AllocError>
    ensures { OnOk result (out.new.items ≡ out.old.items ++ flat_map counted keys.now) }
{
    for key in keys {
        put_key(out, key)?;
    }
    Ok(())
}

/// Flags behind their count.
pub(crate) fn put_flags(out: &mut Vec<u8>, flags: &FlagSet) -> Result<(), AllocError>
    requires { length flags.now ≤ 1024 }
    ensures wrote { OnOk result (out.new.items ≡ out.old.items ++ flag_field flags.now) }
    ensures kept { OnOk result (IsFlagSet flags.now) }
{
    put_u16(out, flags.len() as u16)?;
    put_keys(out, flags.keys())
}

/// The message that an action is about.
pub(crate) fn put_target(out: &mut Vec<u8>, target: &Target) -> Result<(), AllocError>
    ensures wrote { OnOk result (out.new.items ≡ out.old.items ++ target_field target.now) }
    ensures kept { OnOk result (IsKeptTarget target.now) }
{
    match target {
        Target::Real {
            name,
            validity,
            uid,
        } => {
            out.push(b'R')?;
            put_name(out, name)?;
            put_u32(out, validity.number())?;
            put_u32(out, uid.number())
        }
        Target::Dummy(id) => {
            out.push(b'D')?;
            put_u32(out, id.number())
        }
    }
}

// A range of UIDs.
fn put_range(out: &mut Vec<u8>, range: UidRange) -> Result<(), AllocError>
    ensures { OnOk result (out.new.items ≡ out.old.items ++ range_field range) }
{
    put_u32(out, range.low)?;
    put_u32(out, range.high)
}

/// Ranges of UIDs, one behind the other.
pub(crate) fn put_ranges(out: &mut Vec<u8>, ranges: &[UidRange]) -> Result<(), AllocError>
    ensures { OnOk result (out.new.items ≡ out.old.items ++ flat_map range_field ranges.now) }
{
    for range in ranges {
        put_range(out, *range)?;
    }
    Ok(())
}

// A message's row.
#[tactic(auto, unfolding(crate::specs::Fields::row_field))]
fn put_row(out: &mut Vec<u8>, uid: Uid, row: &Row) -> Result<(), AllocError>
    requires { length row.now.flags ≤ 1024 }
    ensures wrote { OnOk result (out.new.items ≡ out.old.items ++ row_field (uid, row.now)) }
    ensures kept { OnOk result (IsKeptRow (uid, row.now)) }
{
    put_u32(out, uid.number())?;
    put_u64(out, row.modseq.number())?;
    put_flags(out, &row.flags)
}

/// Rows, one behind the other.
pub(crate) fn put_rows(out: &mut Vec<u8>, rows: &[(Uid, Row)]) -> Result<(), AllocError>
    requires { HaveFewFlags rows.now }
    ensures wrote { OnOk result (out.new.items ≡ out.old.items ++ flat_map row_field rows.now) }
    ensures kept { OnOk result (AllByRecursion IsKeptRow rows.now) }
{
    for (uid, row) in rows {
        put_row(out, *uid, row)?;
    }
    Ok(())
}
