//! The numbers of commands (RFC 9051, section 9, nz-number; RFC 7162, section 7, mod-sequence-value).

ghost use Rattle.std.specs.Prelude.{◌≡◌, ◌<◌, ◌^◌, ℕ, Some, decimal};
ghost use Rattle.imap_model.specs.Held.{IsNonzero32, IsModSeq};

use mail_base::{ModSeq, Validity, read_modseq, read_u32};
use std::str::from_utf8;
use uid_sets::Uid;

/// The number of 32 bits that the text is.
pub fn number_of(text: &[u8]) -> Option<u32>
    ensures { (n : ℕ) → n < 2 ^ 32 → text.now ≡ decimal n → result ≡ Some n }
{
    match read_u32(text) {
        Ok(number) => Some(number),
        Err(_) => None,
    }
}

/// The UID that the text is.
pub fn uid_of(text: &[u8]) -> Option<Uid>
    ensures { (n : ℕ) → IsNonzero32 n → text.now ≡ decimal n → result ≡ Some n }
{
    match number_of(text) {
        Some(number) => Uid::new(number),
        None => None,
    }
}

/// The UIDVALIDITY that the text is.
pub fn validity_of(text: &[u8]) -> Option<Validity>
    ensures { (n : ℕ) → IsNonzero32 n → text.now ≡ decimal n → result ≡ Some n }
{
    match number_of(text) {
        Some(number) => Validity::new(number),
        None => None,
    }
}

/// The mod-sequence that the text is.
pub fn modseq_of(text: &[u8]) -> Option<ModSeq>
    ensures { (n : ℕ) → IsModSeq n → text.now ≡ decimal n → result ≡ Some n }
{
    match read_modseq(text) {
        Ok(modseq) => Some(modseq),
        Err(_) => None,
    }
}

/// The number of octets that the text is.
pub fn octets_of(text: &[u8]) -> Option<usize>
    ensures { (n : ℕ) → n < 2 ^ 64 → text.now ≡ decimal n → result ≡ Some n }
{
    let Ok(digits) = from_utf8(text) else {
        return None;
    };
    match digits.parse() {
        Ok(octets) => Some(octets),
        Err(_) => None,
    }
}
