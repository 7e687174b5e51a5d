//! Writes a set as the one sequence-set without needless bytes (RFC 9051, section 9).

ghost use Rattle.std.specs.Prelude.{◌≡◌, ◌++◌, IfOk, OnOk, decimal};
ghost use Rattle.uid_sets.specs.Spelling.{range_text, set_text};

use super::uid::UidRange;
use itoa::Buffer;
use std::alloc::{AllocError, Global};

/// The ranges in their order, with commas between.
pub fn text_of(alloc: Global, ranges: &[UidRange]) -> Result<Vec<u8>, AllocError>
    ensures { IfOk result (λ text. text.items ≡ set_text ranges.now) }
{
    let mut text = Vec::new(alloc);
    for (i, range) in ranges.iter().enumerate() {
        if i > 0 {
            text.push(b',')?;
        }
        push_range(&mut text, *range)?;
    }
    Ok(text)
}

/// Writes a range at the end of a text: one number where both ends are one.
fn push_range(text: &mut Vec<u8>, range: UidRange) -> Result<(), AllocError>
    ensures { OnOk result (text.new.items ≡ text.old.items ++ range_text range) }
{
    push_number(text, range.low)?;
    if range.low != range.high {
        text.push(b':')?;
        push_number(text, range.high)?;
    }
    Ok(())
}

/// Writes a number at the end of a text, without leading zeros.
fn push_number(text: &mut Vec<u8>, number: u32) -> Result<(), AllocError>
    ensures { OnOk result (text.new.items ≡ text.old.items ++ decimal number) }
{
    let mut digits = Buffer::new();
    text.extend_from_slice(digits.format(number).as_bytes())
}
