//! The lines of `play`, and of why it ended early.

ghost use Rattle.std.specs.Prelude.{◌≡◌, ◌++◌, ◌≤◌, ◌<◌, ◌+◌, ◌∷◌, [], ℕ, length, decimal};
ghost use Rattle.conflict_report.specs.StatusLines.{played, shown_byte, error_refused, item_name, error_reply_at, error_reply_lacks, error_reply_modseq};
ghost use Rattle.conflict_report.specs.StatusLines.{error_lacking, error_reply_validity, limit_name, error_limit};
ghost use Rattle.imap_model.specs.declared.limit.Limit.TheVariants as limits;
ghost use Rattle.mail_base.specs.Lines.{limit_journal, numbered};

use arrayvec::ArrayVec;
use imap_model::{Item, Limit};
use itoa::Buffer;
use mail_base::{BoxName, ModSeq, Validity};
use std::marker::Model;

/// The most bytes of a line: a front of words, 200 bytes of a line that a server sent, and the LF.
const MAX_TOLD: usize = 256;

/// The most bytes that are shown of a line that a server sent (this client's profile).
const MAX_SHOWN: usize = 200;

/// A printed line with its LF. It holds no heap memory, so that what was done can be told whatever memory is left.
#[derive(Debug, Drop)]
pub struct Told {
    text: ArrayVec<u8, MAX_TOLD>,
}

impl Model for Told {
    ghost use Rattle.std.specs.Prelude.{List, ℕ};

    ghost Value = { List ℕ };

    ghost view = { λ line. line.text.items };
}

impl Told {
    /// The line's bytes.
    pub fn as_bytes(&self) -> &[u8]
        ensures { result.now ≡ self.now }
    {
        &self.text
    }

    /// `played S conflicts C`: the run came to its end, settled so many actions, and so many of them as conflicts.
    pub fn played(settled: u32, conflicts: u32) -> Told
        ensures { result ≡ played settled conflicts }
    {
        let mut line = Told::begun(b"played ");
        line.put_number(u64::from(settled));
        line.put(b" conflicts ");
        line.put_number(u64::from(conflicts));
        line.end();
        line
    }

    /// `error refused: LINE`: the server refused by this line, given without its CRLF, of which at most the first 200 bytes are
    /// shown, and `?` for each that isn't one from 32 to 126.
    pub fn error_refused(line: &[u8]) -> Told
        ensures { result ≡ error_refused line.now }
    {
        let mut text = Told::begun(b"error refused: ");
        for byte in &line[..MAX_SHOWN.min(line.len())] {
            text.put_shown(*byte);
        }
        text.end();
        text
    }

    /// `error reply AT`: the bytes that came in the connection don't go on as a reply at this place, counted from 0.
    pub fn error_reply_at(at: u64) -> Told
        ensures { result ≡ error_reply_at at }
    {
        Told::numbered(b"error reply ", at)
    }

    /// `error reply lacks ITEM`: the reply lacks this.
    pub fn error_reply_lacks(item: Item) -> Told
        ensures { result ≡ error_reply_lacks item }
    {
        Told::named(b"error reply lacks ", item_name(item))
    }

    /// `error reply modseq KEPT TOLD`: the highest mod-sequence that was told is below the kept one.
    pub fn error_reply_modseq(kept: ModSeq, told: ModSeq) -> Told
        ensures { result ≡ error_reply_modseq kept told }
    {
        let mut line = Told::begun(b"error reply modseq ");
        line.put_number(kept.number());
        line.put_spaced(told.number());
        line.end();
        line
    }

    /// `error reply validity BOX KEPT TOLD`: the UIDVALIDITY that was told of the mailbox is below that of its cache, or of an
    /// action's message or intent.
    pub fn error_reply_validity(name: &BoxName, kept: Validity, told: Validity) -> Told
        ensures { result ≡ error_reply_validity name.now kept told }
    {
        let mut line = Told::begun(b"error reply validity ");
        line.put(name.as_bytes());
        line.put_spaced(u64::from(kept.number()));
        line.put_spaced(u64::from(told.number()));
        line.end();
        line
    }

    /// `error lacking NAME`: the server lacks a thing that this client needs.
    pub fn error_lacking(item: Item) -> Told
        ensures { result ≡ error_lacking item }
    {
        Told::named(b"error lacking ", item_name(item))
    }

    /// `error limit NAME NUMBER`: a limit is passed by this number.
    pub fn error_limit(which: Limit, number: u64) -> Told
        ensures { result ≡ error_limit which number }
    {
        let mut line = Told::begun(b"error limit ");
        line.put(limit_name(which));
        line.put_spaced(number);
        line.end();
        line
    }

    // A line of a front and a number.
    fn numbered(front: &[u8], number: u64) -> Told
        requires { length front.now ≤ 32 }
        ensures { result ≡ numbered front.now number }
    {
        let mut line = Told::begun(front);
        line.put_number(number);
        line.end();
        line
    }

    // A line of a front and a name.
    fn named(front: &[u8], name: &[u8]) -> Told
        requires front { length front.now ≤ 32 }
        requires name { length name.now ≤ 128 }
        ensures { result ≡ front.now ++ name.now ++ 10 ∷ [] }
    {
        let mut line = Told::begun(front);
        line.put(name);
        line.end();
        line
    }

    // A line that begins with these bytes, and isn't ended yet.
    fn begun(front: &[u8]) -> Told
        requires { length front.now ≤ 32 }
        ensures value { result ≡ front.now }
        ensures len { length result ≡ length front.now }
    {
        let mut text = ArrayVec::new();
        let _ = text.try_extend_from_slice(front);
        Told { text }
    }

    // Adds bytes.
    fn put(&mut self, bytes: &[u8])
        requires { length self.old + length bytes.now ≤ MAX_TOLD }
        ensures value { self.new ≡ self.old ++ bytes.now }
        ensures len { length self.new ≡ length self.old + length bytes.now }
    {
        let _ = self.text.try_extend_from_slice(bytes);
    }

    // Adds a number in decimal digits.
    fn put_number(&mut self, number: u64)
        requires { length self.old + 20 ≤ MAX_TOLD }
        ensures value { self.new ≡ self.old ++ decimal number }
        ensures len { length self.new ≤ length self.old + 20 }
    {
        let mut buffer = Buffer::new();
        self.put(buffer.format(number).as_bytes());
    }

    // Adds a number in decimal digits behind a space.
    fn put_spaced(&mut self, number: u64)
        requires { length self.old + 21 ≤ MAX_TOLD }
        ensures value { self.new ≡ self.old ++ 32 ∷ decimal number }
        ensures len { length self.new ≤ length self.old + 21 }
    {
        self.put(b" ");
        self.put_number(number);
    }

    // Adds a byte of a server's line as it is printed.
    fn put_shown(&mut self, byte: u8)
        requires { length self.old < MAX_TOLD }
        ensures value { self.new ≡ self.old ++ shown_byte byte ∷ [] }
        ensures len { length self.new ≡ length self.old + 1 }
    {
        let _ = self.text.try_push(shown_byte(byte));
    }

    // Adds the LF.
    fn end(&mut self)
        requires { length self.old < MAX_TOLD }
        ensures { self.new ≡ self.old ++ 10 ∷ [] }
    {
        let _ = self.text.try_push(b'\n');
    }
}

/// The line for a journal that would be too long is the line of its limit.
pub fn a_full_journal_is_told_as_a_limit()
    ensures { (end : ℕ) → limit_journal end ≡ error_limit limits.Journal end }
{}

// A byte of a server's line as it is printed.
fn shown_byte(byte: u8) -> u8
    ensures { result ≡ shown_byte byte }
{
    if byte >= 32 && byte <= 126 {
        byte
    } else {
        b'?'
    }
}

// The name of what a server lacks.
fn item_name(item: Item) -> &'static [u8]
    ensures value { result.now ≡ item_name item }
    ensures few { length result.now ≤ 13 }
{
    match item {
        Item::Qresync => b"QRESYNC",
        Item::Uidplus => b"UIDPLUS",
        Item::Move => b"MOVE",
        Item::Login => b"LOGIN",
        Item::ModSeqs => b"MODSEQ",
        Item::Sticky => b"STICKY",
        Item::UidValidity => b"UIDVALIDITY",
        Item::UidNext => b"UIDNEXT",
        Item::HighestModSeq => b"HIGHESTMODSEQ",
        Item::CopyUid => b"COPYUID",
        Item::AppendUid => b"APPENDUID",
        Item::Flags => b"FLAGS",
        Item::ModSeq => b"MODSEQ",
        Item::Row => b"ROW",
        Item::Body => b"BODY",
    }
}

// The name of a limit.
fn limit_name(which: Limit) -> &'static [u8]
    ensures value { result.now ≡ limit_name which }
    ensures few { length result.now ≤ 10 }
{
    match which {
        Limit::Literal => b"literal",
        Limit::Line => b"line",
        Limit::Reply => b"reply",
        Limit::Rows => b"rows",
        Limit::Flags => b"flags",
        Limit::Flag => b"flag",
        Limit::Journal => b"journal",
        Limit::Actions => b"actions",
        Limit::Generation => b"generation",
    }
}
