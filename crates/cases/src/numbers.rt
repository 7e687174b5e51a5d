//! Numbers as words: decimal, without leading zeros.

ghost use Rattle.std.specs.Prelude.{◌≡◌, ◌<◌, ◌^◌, ◌↔◌, ℕ, Some, IsTrue, IfSome, decimal};

use itoa::Buffer;
use std::str::from_utf8;

/// The number below 2^64 that a word is.
pub fn number_of(word: &[u8]) -> Option<u64>
    ensures some { IfSome result (λ n. word.now ≡ decimal n) }
    ensures value { (n : ℕ) → n < 2 ^ 64 → word.now ≡ decimal n → result ≡ Some n }
{
    let number = parsed(word)?;
    if is_decimal(word, number) {
        Some(number)
    } else {
        None
    }
}

// The number that a word may be, also with leading zeros or a sign.
fn parsed(word: &[u8]) -> Option<u64>
    ensures { (n : ℕ) → n < 2 ^ 64 → word.now ≡ decimal n → result ≡ Some n }
{
    let Ok(digits) = from_utf8(word) else {
        return None;
    };
    match digits.parse() {
        Ok(number) => Some(number),
        Err(_) => None,
    }
}

// Whether the word is this number as it is written.
fn is_decimal(word: &[u8], number: u64) -> bool
    ensures { IsTrue result ↔ (word.now ≡ decimal number) }
{
    let mut buffer = Buffer::new();
    buffer.format(number).as_bytes() == word
}
