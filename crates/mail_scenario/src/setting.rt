//! What a server, its files or a script begin with, as lines tell it.

use crate::hexadecimal::hex_bytes;
use cases::{Input, WordFault, bytes, listed_flags};
use flag_set::FlagSet;
use mail_base::Words;
use world_mem::{Files, Script};

/// `WORD ..`: what a server offers.
pub fn offers_of(input: &mut Input<'_>) -> Result<Words, WordFault> {
    let mut offers = Words::new(input.alloc);
    for _ in 0..input.len() {
        offers.push(bytes(input)?)?;
    }
    Ok(offers)
}

/// `any FLAG ..` or `only FLAG ..`: what PERMANENTFLAGS tells, and whether with `\*`.
pub fn permit_of(input: &mut Input<'_>) -> Result<(FlagSet, bool), WordFault> {
    let any = match input.word()? {
        "any" => true,
        "only" => false,
        _ => return Err(WordFault::Form),
    };
    Ok((listed_flags(input)?, any))
}

/// `LEFT RIGHT`: the two files.
pub fn files_of(input: &mut Input<'_>) -> Result<Files, WordFault> {
    let left = hex_bytes(input.alloc, input.text()?)?;
    let right = hex_bytes(input.alloc, input.text()?)?;
    Ok(Files { left, right })
}

/// `TEXT`: the next piece of the script.
pub fn piece_of(input: &mut Input<'_>) -> Result<Script, WordFault> {
    Ok(Script::Piece(input.text()?.to_vec(input.alloc)?))
}

/// `TEXT`, which comes again and again. It isn't empty: behind a script that gives nothing again
/// and again nothing would ever come.
pub fn endless_of(input: &mut Input<'_>) -> Result<Script, WordFault> {
    let text = input.text()?;
    if text.is_empty() {
        return Err(WordFault::Form);
    }
    Ok(Script::Endless(text.to_vec(input.alloc)?))
}
