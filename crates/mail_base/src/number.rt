//! Numbers as the protocol writes them: decimal digits, of which the first ones may be 0 (RFC 9051, section 9).

ghost use Rattle.std.specs.Prelude.{◌≡◌, ◌≤◌, ◌<◌, ◌^◌, ◌↔◌, ◌-◌, ℕ, [], IsErrOf};
ghost use Rattle.mail_base.specs.Number.{IsNumberUpTo, StopsAtByte, StopsAtSize, Verdict};

use crate::ModSeq;
use thiserror::Error;

/// The largest mod-sequence (RFC 7162, section 7, mod-sequence-value).
const MAX_MODSEQ: u64 = 0x7FFF_FFFF_FFFF_FFFF;

/// Why a text is no number. A place is counted in bytes of the text, from 0.
#[derive(Clone, Copy, Debug, PartialEq, Eq, Drop, Error)]
pub enum NumberFault {
    /// There are no bytes.
    #[error("a number is missing")]
    Empty,
    /// The byte there is no digit, and the digits before it write a number that isn't too big.
    #[error("not a digit")]
    NotDigit { at: usize },
    /// With the digit there the number exceeds the largest one.
    #[error("the number is too big")]
    TooBig { at: usize },
    /// The number is 0, which isn't allowed here.
    #[error("the number is 0")]
    Zero,
}

// Reads the digits of a number of at most `largest`.
fn read_up_to(text: &[u8], largest: u64) -> Result<u64, NumberFault>
    requires { (9 ≤ largest) × (largest < 2 ^ 63) }
    ensures { Verdict largest text.now result }
{
    if text.is_empty() {
        return Err(NumberFault::Empty);
    }
    let mut number: u64 = 0;
    for (at, byte) in text.iter().enumerate() {
        if !byte.is_ascii_digit() {
            return Err(NumberFault::NotDigit { at });
        }
        let digit = (*byte - b'0') as u64;
        if number > (largest - digit) / 10 {
            return Err(NumberFault::TooBig { at });
        }
        number = number * 10 + digit;
    }
    Ok(number)
}

/// Reads a 32-bit number in decimal digits. Leading zeros are allowed.
///
/// Refuses no bytes, the first byte that is no digit, and the first digit that makes the number exceed 2^32 - 1,
/// whichever comes first.
pub fn read_u32(text: &[u8]) -> Result<u32, NumberFault>
    ensures value { (n : ℕ) → (result ≡ Ok n) ↔ IsNumberUpTo 4294967295 text.now n }
    ensures empty { IsErrOf result NumberFault.Empty ↔ (text.now ≡ []) }
    ensures not_digit { (at : ℕ) → IsErrOf result (NumberFault.NotDigit at) ↔ StopsAtByte 4294967295 text.now at }
    ensures too_big { (at : ℕ) → IsErrOf result (NumberFault.TooBig at) ↔ StopsAtSize 4294967295 text.now at }
    ensures not_zero { IsErrOf result NumberFault.Zero → ⊥ }
{
    match read_up_to(text, 0xFFFF_FFFF) {
        Ok(number) => Ok(number as u32),
        Err(fault) => Err(fault),
    }
}

/// Reads a mod-sequence in decimal digits (RFC 7162, section 7, mod-sequence-value). Leading zeros are allowed.
///
/// Refuses as `read_u32` does, with 2^63 - 1 as the largest number, and `Zero` exactly where the number is 0.
pub fn read_modseq(text: &[u8]) -> Result<ModSeq, NumberFault>
    ensures value { (n : ℕ) → (result ≡ Ok n) ↔ (IsNumberUpTo (2 ^ 63 - 1) text.now n × (0 < n)) }
    ensures empty { IsErrOf result NumberFault.Empty ↔ (text.now ≡ []) }
    ensures not_digit { (at : ℕ) → IsErrOf result (NumberFault.NotDigit at) ↔ StopsAtByte (2 ^ 63 - 1) text.now at }
    ensures too_big { (at : ℕ) → IsErrOf result (NumberFault.TooBig at) ↔ StopsAtSize (2 ^ 63 - 1) text.now at }
    ensures zero { IsErrOf result NumberFault.Zero ↔ IsNumberUpTo (2 ^ 63 - 1) text.now 0 }
{
    match read_up_to(text, MAX_MODSEQ) {
        Ok(number) => match ModSeq::new(number) {
            Some(modseq) => Ok(modseq),
            None => Err(NumberFault::Zero),
        },
        Err(fault) => Err(fault),
    }
}
