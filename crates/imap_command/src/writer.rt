//! The parts of a text while it is written.
#![tactic(auto, using(imap_model::proofs::Joining::behind_last, imap_model::proofs::Joining::parts_assoc))]

ghost use Rattle.std.specs.Prelude.{◌≡◌, [], ◌∷◌, ◌++◌, IfOk, OnOk, decimal};
ghost use Rattle.flag_set.specs.FlagText.{list_text};
ghost use Rattle.imap_model.specs.Astring.{astring_parts, literal};
ghost use Rattle.imap_model.specs.CommandParts.{line, number, wait, ◌⌢◌};
ghost use Rattle.uid_sets.specs.Spelling.{set_text};

use crate::Parts;
use crate::argument::{is_bare, is_quotable, push_header, push_quoted};
use flag_set::FlagSet;
use itoa::Buffer;
use mail_base::{Bytes, List, ModSeq};
use std::alloc::{AllocError, Global};
use std::marker::Model;
use std::mem;
use uid_sets::{Uid, UidSet};

/// Parts that are whole, and the one that is being written.
#[derive(Drop)]
pub struct Writer {
    whole: List<Bytes>,
    last: Vec<u8>,
}

impl Model for Writer {
    ghost use Rattle.std.specs.Prelude.{List, ℕ, [], ◌∷◌, ◌++◌};

    ghost Value = { List (List ℕ) };

    ghost view = { λ writer. writer.whole ++ writer.last.items ∷ [] };
}

impl Writer {
    /// One part without bytes. It takes no memory.
    pub fn new(alloc: Global) -> Writer
        ensures { result ≡ [] ∷ [] }
    {
        Writer {
            whole: List::new(alloc),
            last: Vec::new(alloc),
        }
    }

    /// Writes bytes.
    pub fn put(&mut self, bytes: &[u8]) -> Result<(), AllocError>
        ensures { OnOk result (self.new ≡ self.old ⌢ line bytes.now) }
    {
        self.last.extend_from_slice(bytes)
    }

    /// Writes a number without leading zeros.
    pub fn number(&mut self, digits: u64) -> Result<(), AllocError>
        ensures { OnOk result (self.new ≡ self.old ⌢ number digits) }
    {
        let mut buffer = Buffer::new();
        self.put(buffer.format(digits).as_bytes())
    }

    /// Writes a UID.
    pub fn uid(&mut self, uid: Uid) -> Result<(), AllocError>
        ensures { OnOk result (self.new ≡ self.old ⌢ number uid) }
    {
        self.number(u64::from(uid.number()))
    }

    /// Writes a mod-sequence.
    pub fn modseq(&mut self, modseq: ModSeq) -> Result<(), AllocError>
        ensures { OnOk result (self.new ≡ self.old ⌢ number modseq) }
    {
        self.number(modseq.number())
    }

    /// Writes a set of UIDs.
    pub fn uids(&mut self, uids: &UidSet) -> Result<(), AllocError>
        ensures { OnOk result (self.new ≡ self.old ⌢ line (set_text uids.now)) }
    {
        let text = uids.text()?;
        self.put(&text)
    }

    /// Writes flags, without the parentheses round them.
    pub fn flags(&mut self, flags: &FlagSet) -> Result<(), AllocError>
        ensures { OnOk result (self.new ≡ self.old ⌢ line (list_text flags.now)) }
    {
        let text = flags.text()?;
        self.put(&text)
    }

    /// Writes a text as an argument.
    pub fn astring(&mut self, text: &[u8]) -> Result<(), AllocError>
        ensures { OnOk result (self.new ≡ self.old ⌢ astring_parts text.now) }
    {
        if is_bare(text) {
            return self.put(text);
        }
        if is_quotable(text) {
            return push_quoted(&mut self.last, text);
        }
        self.literal(text)
    }

    /// Writes a literal. Its octets are copied once, with room for the CRLF that may end the command.
    pub fn literal(&mut self, octets: &[u8]) -> Result<(), AllocError>
        ensures { OnOk result (self.new ≡ self.old ⌢ literal octets.now) }
    {
        let room = Vec::with_capacity(*self.last.allocator(), octets.len().saturating_add(2))?;
        push_header(&mut self.last, octets.len())?;
        self.wait(room)?;
        self.put(octets)
    }

    /// Ends a line, behind which the client waits. The next part goes into the room.
    pub fn wait(&mut self, room: Vec<u8>) -> Result<(), AllocError>
        requires { room.items ≡ [] }
        ensures { OnOk result (self.new ≡ self.old ⌢ wait) }
    {
        self.last.extend_from_slice(b"\r\n")?;
        let part = mem::replace(&mut self.last, room);
        self.whole.push(Bytes::of(part))
    }

    /// The parts, all of them whole.
    pub fn finish(self) -> Result<Parts, AllocError>
        ensures { IfOk result (λ parts. parts ≡ self) }
    {
        let Writer { mut whole, last } = self;
        whole.push(Bytes::of(last))?;
        Ok(Parts::of(whole))
    }
}
