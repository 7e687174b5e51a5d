//! What single words of a command of the user say: the name of a mailbox, a number.

ghost use Rattle.std.specs.Prelude.{◌≡◌, ◌<◌, ◌^◌, ◌↔◌, IsTrue, IsNone, IfSome, decimal};
ghost use Rattle.mail_base.specs.Arguments.{WritesBox};

use crate::{BoxName, read_u32};
use itoa::Buffer;

/// The mailbox whose name a word writes, as it is kept.
pub fn box_of(text: &str) -> Option<BoxName>
    ensures some { IfSome result (WritesBox text.now) }
    ensures none { IsNone result → (name : _) → WritesBox text.now name → ⊥ }
{
    BoxName::new(text.as_bytes()).ok()
}

/// The number that a text writes, without leading zeros.
pub fn number_of(text: &str) -> Option<u32>
    ensures some { IfSome result (λ number. text.now ≡ decimal number) }
    ensures none { IsNone result → (number : _) → number < 2 ^ 32 → text.now ≡ decimal number → ⊥ }
{
    let Ok(number) = read_u32(text.as_bytes()) else {
        return None;
    };
    if is_decimal(text, number) {
        Some(number)
    } else {
        None
    }
}

// Whether the text is this number, without leading zeros.
fn is_decimal(text: &str, number: u32) -> bool
    ensures { IsTrue result ↔ (text.now ≡ decimal number) }
{
    let mut buffer = Buffer::new();
    buffer.format(number) == text
}
