//! The commands of a drill.

ghost use Rattle.std.specs.Prelude.{◌≡◌, ◌<◌, IfOk, map, string_bytes};
ghost use Rattle.mail_drill.specs.Orders.{order_at, behind_order, NamesOneOf};
ghost use Rattle.mail_drill.specs.Texts.{words_of as order_words, input_of};

use crate::numerals::put_message;
use itoa::Buffer;
use std::alloc::{AllocError, Global};
use world_mem::Draws;

/// What the user asks for in one command.
#[derive(Clone, Copy, Debug, PartialEq, Eq)]
pub enum Order {
    /// The message of INBOX is to be flagged.
    Flag { uid: u32 },
    /// The message of INBOX is to be moved to Archive.
    Move { uid: u32 },
    /// A message that names the command's number is to be put into Archive.
    Append { number: u32 },
}

/// The next command, which has this number, in a drill of this size.
pub fn drawn_order(draws: &mut Draws, size: u32, number: u32) -> Order
    requires { 0 < size }
    ensures order { result ≡ order_at size number draws.old }
    ensures draws { draws.new ≡ behind_order draws.old }
    ensures named { NamesOneOf size result }
{
    let kind = draws.below(10);
    if kind >= 8 {
        return Order::Append { number };
    }
    let uid = 1 + draws.below(size);
    if kind < 6 {
        Order::Flag { uid }
    } else {
        Order::Move { uid }
    }
}

impl Order {
    /// Its words.
    pub fn words(&self, alloc: Global) -> Result<Vec<String>, AllocError>
        ensures { IfOk result (λ words. map string_bytes words.items ≡ order_words self.now) }
    {
        let mut buffer = Buffer::new();
        match self {
            Order::Flag { uid } => {
                words_of(
                    alloc,
                    &["flag", "INBOX", buffer.format(*uid), "+", "\\Flagged"],
                )
            }
            Order::Move { uid } => {
                words_of(alloc, &["move", "INBOX", buffer.format(*uid), "Archive"])
            }
            Order::Append { .. } => words_of(alloc, &["append", "Archive"]),
        }
    }

    /// What it reads.
    pub fn input(&self, alloc: Global) -> Result<Vec<u8>, AllocError>
        ensures { IfOk result (λ input. input.items ≡ input_of self.now) }
    {
        let mut input = Vec::new(alloc);
        if let Order::Append { number } = self {
            put_message(&mut input, b'a', *number)?;
        }
        Ok(input)
    }
}

/// These words.
pub fn words_of(alloc: Global, texts: &[&str]) -> Result<Vec<String>, AllocError>
    ensures { IfOk result (λ words. map string_bytes words.items ≡ map (λ text. text.now) texts.now) }
{
    let mut words = Vec::new(alloc);
    for text in texts {
        words.push(String::from_str(alloc, text)?)?;
    }
    Ok(words)
}
