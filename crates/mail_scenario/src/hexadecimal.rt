//! Bytes as hexadecimal digits, which a word is.

ghost use Rattle.cases.specs.Written.{hex_text};
ghost use Rattle.std.specs.Prelude.{◌≡◌, IfOk};

use cases::{WordFault, put_hex};
use hex::FromHexError;
use mail_base::Bytes;
use std::alloc::Global;

/// The bytes that a word writes in hexadecimal in lower case. There are none where it is `-`.
pub fn hex_bytes(alloc: Global, word: &[u8]) -> Result<Bytes, WordFault>
    ensures { IfOk result (λ bytes. word.now ≡ hex_text bytes) }
{
    let bytes = decoded(alloc, word)?;
    let mut written = Vec::new(alloc);
    put_hex(&mut written, &bytes)?;
    if written.as_slice() == word {
        Ok(Bytes::of(bytes))
    } else {
        Err(WordFault::Form)
    }
}

// The bytes that a word may write.
fn decoded(alloc: Global, word: &[u8]) -> Result<Vec<u8>, WordFault> {
    if word == b"-".as_slice() {
        return Ok(Vec::new(alloc));
    }
    match hex::decode(alloc, word) {
        Ok(bytes) => Ok(bytes),
        Err(FromHexError::OutOfMemory) => Err(WordFault::Memory),
        Err(_) => Err(WordFault::Form),
    }
}
