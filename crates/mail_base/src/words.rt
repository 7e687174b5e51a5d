//! Words in order, as a server tells its capabilities (RFC 9051, section 7.2.2).

ghost use Rattle.std.specs.Prelude.{◌≡◌, ◌↔◌, [], ◌∷◌, ◌++◌, IsTrue, Any, map, IfOk, OnOk, OnErr};
ghost use Rattle.std.specs.Char.{to_ascii_lowercase};

use crate::Bytes;
use std::alloc::{AllocError, Global};
use std::marker::Model;

/// Words in order. Contracts see them as a list of byte lists.
#[derive(Drop)]
pub struct Words {
    content: Vec<Bytes>,
}

impl Model for Words {
    ghost use Rattle.std.specs.Prelude.{List, ℕ};

    ghost Value = { List (List ℕ) };

    ghost view = { λ words. words.content.items };
}

impl Words {
    /// No words. It takes no memory.
    pub fn new(alloc: Global) -> Words
        ensures { result ≡ [] }
    {
        Words {
            content: Vec::new(alloc),
        }
    }

    /// The words of a `Vec`, which the value then holds. It takes no memory.
    pub fn of(content: Vec<Bytes>) -> Words
        ensures { result ≡ content.items }
    {
        Words { content }
    }

    /// The words, to read them.
    pub fn as_slice(&self) -> &[Bytes]
        ensures { result.now ≡ self.now }
    {
        &self.content
    }

    /// Adds a word at the end. On want of memory nothing is added.
    pub fn push(&mut self, word: Bytes) -> Result<(), AllocError>
        ensures done { OnOk result (self.new ≡ self.old ++ word ∷ []) }
        ensures kept { OnErr result (self.new ≡ self.old) }
    {
        self.content.push(word)?;
        Ok(())
    }

    /// The same words once more, or want of memory.
    pub fn copy(&self, alloc: Global) -> Result<Words, AllocError>
        ensures { IfOk result (λ words. words ≡ self.now) }
    {
        let mut content = Vec::new(alloc);
        for word in &self.content {
            content.push(word.copy()?)?;
        }
        Ok(Words { content })
    }

    /// Whether this is one of the words. Case doesn't count in ASCII letters.
    pub fn has(&self, name: &[u8]) -> bool
        ensures { IsTrue result ↔ Any (λ word. map to_ascii_lowercase word ≡ map to_ascii_lowercase name.now) self.now }
    {
        self.content
            .iter()
            .any(|word| word.as_slice().eq_ignore_ascii_case(name))
    }
}
