//! What the server can offer (RFC 9051, section 9, capability).

ghost use Rattle.std.specs.Prelude.{◌≡◌, IfOk};
ghost use Rattle.flag_set.specs.Flag.{is_atom_byte};
ghost use Rattle.server_mem.specs.Offers.{atoms, is_atom};
ghost use Rattle.std.specs.List.{list_all};

use mail_base::{Bytes, Words};
use std::alloc::{AllocError, Global};

// Whether a byte may stand in an atom.
fn is_atom_byte(byte: u8) -> bool
    ensures { result ≡ is_atom_byte byte }
{
    matches!(byte, 33..=126) && !b"(){%*\"\\]".contains(&byte)
}

fn holds_atom_bytes_alone(word: &[u8]) -> bool
    ensures { result ≡ list_all is_atom_byte word.now }
{
    word.iter().all(|byte| is_atom_byte(*byte))
}

// Whether a word is an atom.
fn is_atom(word: &[u8]) -> bool
    ensures { result ≡ is_atom word.now }
{
    !word.is_empty() && holds_atom_bytes_alone(word)
}

/// Those of the names that are atoms: no line can tell another.
pub fn atoms(alloc: Global, names: &[Bytes]) -> Result<Words, AllocError>
    ensures value { IfOk result (λ kept. kept ≡ atoms names.now) }
{
    let mut kept = Words::new(alloc);
    for word in names {
        if is_atom(word.as_slice()) {
            kept.push(word.copy()?)?;
        }
    }
    Ok(kept)
}
