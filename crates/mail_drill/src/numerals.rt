//! Numbers in texts.

ghost use Rattle.std.specs.Prelude.{◌≡◌, ◌++◌, OnOk, decimal};
ghost use Rattle.mail_drill.specs.Texts.{message_text};

use itoa::Buffer;
use std::alloc::AllocError;

/// Adds a number, without leading zeros.
pub fn put_number(text: &mut Vec<u8>, number: u64) -> Result<(), AllocError>
    ensures { OnOk result (text.new.items ≡ text.old.items ++ decimal number) }
{
    let mut buffer = Buffer::new();
    text.extend_from_slice(buffer.format(number).as_bytes())
}

/// Adds the text of a message of no more than its Message-ID: `<`, the letter, the number and `@d>`.
#[tactic(auto, unfolding(crate::specs::Texts::message_text))]
pub fn put_message(text: &mut Vec<u8>, letter: u8, number: u32) -> Result<(), AllocError>
    ensures { OnOk result (text.new.items ≡ text.old.items ++ message_text letter number) }
{
    text.extend_from_slice(b"Message-ID: <")?;
    text.push(letter)?;
    put_number(text, u64::from(number))?;
    text.extend_from_slice(b"@d>\r\n\r\n")
}
