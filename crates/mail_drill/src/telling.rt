//! The line that a drill prints.

ghost use Rattle.std.specs.Prelude.{◌≡◌, ◌++◌, IfOk, OnOk, decimal};
ghost use Rattle.mail_drill.specs.Texts.{line_of as counts_line};

use crate::numerals::put_number;
use crate::tally::{Counts, Given};
use std::alloc::{AllocError, Global};

/// The line of a drill that came to its end.
pub fn line_of(alloc: Global, given: &Given, counts: &Counts) -> Result<Vec<u8>, AllocError>
    ensures { IfOk result (λ line. line.items ≡ counts_line (record {
      accepted = given.now.accepted;
      refused = given.now.refused;
      settled = counts.now.settled;
      twice = counts.now.twice;
      missing = counts.now.missing;
    })) }
{
    let mut line = Vec::new(alloc);
    put_count(&mut line, b"actions ", u64::from(given.accepted))?;
    put_count(&mut line, b" refused ", u64::from(given.refused))?;
    put_count(&mut line, b" settled ", counts.settled as u64)?;
    put_count(&mut line, b" twice ", counts.twice as u64)?;
    put_count(&mut line, b" missing ", counts.missing as u64)?;
    line.push(b'\n')?;
    Ok(line)
}

// Adds a word and a number.
fn put_count(line: &mut Vec<u8>, word: &[u8], number: u64) -> Result<(), AllocError>
    ensures { OnOk result (line.new.items ≡ line.old.items ++ word.now ++ decimal number) }
{
    line.extend_from_slice(word)?;
    put_number(line, number)
}
