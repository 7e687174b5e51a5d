//! The lines that the program prints.

ghost use Rattle.std.specs.Prelude.{◌≡◌, ◌++◌, ◌≤◌, ◌+◌, length, decimal, codes};
ghost use Rattle.mail_base.specs.Lines.{numbered, ready, accepted, error_words, error_disk, error_memory};
ghost use Rattle.mail_base.specs.Lines.{journal_none, journal_header, journal_generations, journal_record, journal_exists, limit_journal};

use arrayvec::ArrayVec;
use itoa::Buffer;
use std::marker::Model;

/// The most bytes of a printed line: a front of words, 200 bytes of a line that a server sent, and the LF.
const MAX_LINE: usize = 256;

/// A printed line with its LF. It holds no heap memory, so that what was done can be told whatever memory is left.
#[derive(Debug, Drop)]
pub struct Line {
    text: ArrayVec<u8, MAX_LINE>,
}

impl Model for Line {
    ghost use Rattle.std.specs.Prelude.{List, ℕ};

    ghost Value = { List ℕ };

    ghost view = { λ line. line.text.items };
}

impl Line {
    // A line of these bytes.
    fn plain(text: &[u8]) -> Line
        requires { length text.now ≤ MAX_LINE }
        ensures { result ≡ text.now }
    {
        let mut line = ArrayVec::new();
        let _ = line.try_extend_from_slice(text);
        Line { text: line }
    }

    // A line of a front and a number.
    fn numbered(front: &[u8], number: u64) -> Line
        requires { length front.now + 21 ≤ MAX_LINE }
        ensures { result ≡ numbered front.now number }
    {
        let mut buffer = Buffer::new();
        let mut line = ArrayVec::new();
        let _ = line.try_extend_from_slice(front);
        let _ = line.try_extend_from_slice(buffer.format(number).as_bytes());
        let _ = line.try_push(b'\n');
        Line { text: line }
    }

    /// The line's bytes.
    pub fn as_bytes(&self) -> &[u8]
        ensures { result.now ≡ self.now }
    {
        &self.text
    }

    /// `ready`: the journal is set up.
    pub fn ready() -> Line
        ensures { result ≡ ready }
    {
        Line::plain(b"ready\n")
    }

    /// `accepted n`: the action is on the disk, as the journal's n-th.
    pub fn accepted(number: u64) -> Line
        ensures { result ≡ accepted number }
    {
        Line::numbered(b"accepted ", number)
    }

    /// `error words`: the words are no command.
    pub fn error_words() -> Line
        ensures { result ≡ error_words }
    {
        Line::plain(b"error words\n")
    }

    /// `error disk`: the disk failed.
    pub fn error_disk() -> Line
        ensures { result ≡ error_disk }
    {
        Line::plain(b"error disk\n")
    }

    /// `error memory`: memory is wanting.
    pub fn error_memory() -> Line
        ensures { result ≡ error_memory }
    {
        Line::plain(b"error memory\n")
    }

    /// `error journal none`: there is no journal.
    pub fn journal_none() -> Line
        ensures { result ≡ journal_none }
    {
        Line::plain(b"error journal none\n")
    }

    /// `error journal header`: a file isn't a journal's, or is one of another version.
    pub fn journal_header() -> Line
        ensures { result ≡ journal_header }
    {
        Line::plain(b"error journal header\n")
    }

    /// `error journal generations`: both files are a journal's, and neither is the newer one.
    pub fn journal_generations() -> Line
        ensures { result ≡ journal_generations }
    {
        Line::plain(b"error journal generations\n")
    }

    /// `error journal exists`: a journal is set up already.
    pub fn journal_exists() -> Line
        ensures { result ≡ journal_exists }
    {
        Line::plain(b"error journal exists\n")
    }

    /// `error journal record AT`: the journal's record at this place isn't whole, or isn't one.
    pub fn journal_record(at: u64) -> Line
        ensures { result ≡ journal_record at }
    {
        Line::numbered(b"error journal record ", at)
    }

    /// `error limit journal NUMBER`: with the record the journal would end at this place, past its limit.
    pub fn limit_journal(end: u64) -> Line
        ensures { result ≡ limit_journal end }
    {
        Line::numbered(b"error limit journal ", end)
    }
}
