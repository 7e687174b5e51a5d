//! Numbers and flags in a text.

ghost use Rattle.std.specs.Prelude.{◌≡◌, ◌++◌, OnOk, decimal};
ghost use Rattle.std.specs.List.{flat_map};
ghost use Rattle.conflict_report.specs.QueueLines.{spaced};

use flag_set::FlagKey;
use itoa::Buffer;
use std::alloc::AllocError;

/// Adds a number in decimal digits. Fails for want of memory alone.
pub fn put_number(text: &mut Vec<u8>, number: u64) -> Result<(), AllocError>
    ensures { OnOk result (text.new.items ≡ text.old.items ++ decimal number) }
{
    let mut buffer = Buffer::new();
    text.extend_from_slice(buffer.format(number).as_bytes())
}

/// Adds each key behind a space. Fails for want of memory alone, and then some of the keys may have been added.
pub fn put_keys(text: &mut Vec<u8>, keys: &[FlagKey]) -> Result<(), AllocError>
    ensures { OnOk result (text.new.items ≡ text.old.items ++ flat_map spaced keys.now) }
{
    for key in keys {
        put_key(text, key)?;
    }
    Ok(())
}

// Adds a key behind a space.
fn put_key(text: &mut Vec<u8>, key: &FlagKey) -> Result<(), AllocError>
    ensures { OnOk result (text.new.items ≡ text.old.items ++ spaced key.now) }
{
    text.push(b' ')?;
    text.extend_from_slice(key.as_bytes())
}
