//! What the words of the program ask for: which stream, and how long (RFC 9051, sections 2.2 and 4.3); what is done with a
//! record, and how often; or with a journal, and how long it is; or what a resynchronisation tells, and how often; or how often
//! the book of the journal in the present folder is told anew; or of how many lines a delta is made.

ghost use Rattle.std.specs.Prelude.{◌≡◌, ◌<◌, ◌*◌, length, map, string_bytes, IfOk, IfSome, IsNone};
ghost use Rattle.mail_bench.specs.Asked.{Asks, AsksFor};
ghost use Rattle.mail_bench.specs.Cases.{piece_of, unit_of};
ghost use Rattle.mail_bench.specs.Names.{name_of_case, name_of_direction, name_of_kind, name_of_part, name_of_told};
ghost use Rattle.mail_bench.specs.Texts.{long_line, repeated_text, short_line};

use crate::commits::Told;
use crate::records::Direction;
use crate::replies::{Keeper, Kind};
use crate::stores::Part;
use mail_base::read_u32;
use std::alloc::{AllocError, Global};

/// Which stream is pushed.
#[derive(Clone, Copy, Debug, PartialEq, Eq)]
pub enum Case {
    /// Short lines, in pieces of 64 KiB.
    Lines,
    /// Lines with a literal of 1,000,000 octets each, in pieces of 64 KiB.
    Literals,
    /// Short lines, byte by byte.
    Bytes,
}

impl Case {
    /// The word that names the case.
    pub fn name(&self) -> &'static str
        ensures text { result.now ≡ name_of_case self.now }
    {
        match *self {
            Case::Lines => "lines",
            Case::Literals => "literals",
            Case::Bytes => "bytes",
        }
    }

    /// How many bytes are pushed at once.
    pub fn piece(&self) -> usize
        ensures value { result ≡ piece_of self.now }
    {
        match *self {
            Case::Lines | Case::Literals => 65536,
            Case::Bytes => 1,
        }
    }

    // How many bytes one of the words' units has.
    fn unit(&self) -> u64
        ensures value { result ≡ unit_of self.now }
    {
        match *self {
            Case::Lines | Case::Literals => 1_000_000,
            Case::Bytes => 1_000,
        }
    }
}

/// A stream and its size in bytes.
#[derive(Clone, Copy, Debug, PartialEq, Eq)]
pub struct Load {
    pub case: Case,
    pub size: u64,
    /// Whether each frame is read as its response.
    pub reads: bool,
}

/// What is to be timed.
#[derive(Clone, Copy, Debug, PartialEq, Eq)]
pub enum Task {
    /// A stream is pushed through a feed, and perhaps read.
    Feed(Load),
    /// A record is written or read so often.
    Record(Direction, u32),
    /// A journal of so many times 1,000,000 bytes is made, and perhaps opened.
    Store(Part, u32),
    /// A resynchronisation is committed so often.
    Commit(Told, u32),
    /// The book of the journal in the present folder is told anew so often.
    Turn(u32),
    /// A delta is made of so many lines of a kind.
    Hear(Keeper, Kind, u32),
}

/// What `feed CASE NUMBER`, `read CASE NUMBER`, `record DIRECTION NUMBER`, `store PART NUMBER`, `commit TOLD NUMBER`,
/// `turn here NUMBER`, `make KIND NUMBER` or `gather KIND NUMBER` asks for. A number counts 1,000,000 bytes each, or 1,000 for
/// the case `bytes`; that of a record, a commit or a turn says how often, and the last two count lines.
pub fn task_of(words: &[String]) -> Option<Task>
    ensures some { IfSome result (Asks (map string_bytes words.now)) }
    ensures none { IsNone result → (task : _) → ¬ (Asks (map string_bytes words.now) task) }
{
    let [what, case, number] = words else {
        return None;
    };
    let number = read_u32(number.as_bytes()).ok()?;
    task_for(what.as_str(), case.as_str(), number)
}

// What two words and a number ask for.
fn task_for(what: &str, case: &str, number: u32) -> Option<Task>
    ensures some { IfSome result (AsksFor what.now case.now number) }
    ensures none { IsNone result → (task : _) → ¬ (AsksFor what.now case.now number task) }
{
    match what {
        "feed" => Some(Task::Feed(load_for(case_of(case)?, number, false))),
        "read" => Some(Task::Feed(load_for(case_of(case)?, number, true))),
        "record" => Some(Task::Record(direction_of(case)?, number)),
        "store" => Some(Task::Store(part_of(case)?, number)),
        "commit" => Some(Task::Commit(told_of(case)?, number)),
        "turn" if case == "here" => Some(Task::Turn(number)),
        "make" => Some(Task::Hear(Keeper::Make, kind_of(case)?, number)),
        "gather" => Some(Task::Hear(Keeper::Gather, kind_of(case)?, number)),
        _ => None,
    }
}

// The stream of a case of so many units.
fn load_for(case: Case, number: u32, reads: bool) -> Load
    ensures value { result ≡ record { case = case; size = number * unit_of case; reads = reads } }
{
    Load {
        case,
        size: u64::from(number) * case.unit(),
        reads,
    }
}

// The direction that a word names.
fn direction_of(word: &str) -> Option<Direction>
    ensures some { IfSome result (λ direction. word.now ≡ name_of_direction direction) }
    ensures none { IsNone result → (direction : _) → word.now ≡ name_of_direction direction → ⊥ }
{
    match word {
        "encode" => Some(Direction::Encode),
        "decode" => Some(Direction::Decode),
        _ => None,
    }
}

// The part that a word names.
fn part_of(word: &str) -> Option<Part>
    ensures some { IfSome result (λ part. word.now ≡ name_of_part part) }
    ensures none { IsNone result → (part : _) → word.now ≡ name_of_part part → ⊥ }
{
    match word {
        "make" => Some(Part::Make),
        "open" => Some(Part::Open),
        _ => None,
    }
}

// What is told, by the word that names it.
fn told_of(word: &str) -> Option<Told>
    ensures some { IfSome result (λ told. word.now ≡ name_of_told told) }
    ensures none { IsNone result → (told : _) → word.now ≡ name_of_told told → ⊥ }
{
    match word {
        "nothing" => Some(Told::Nothing),
        "all" => Some(Told::All),
        _ => None,
    }
}

// The kind of lines that a word names.
fn kind_of(word: &str) -> Option<Kind>
    ensures some { IfSome result (λ kind. word.now ≡ name_of_kind kind) }
    ensures none { IsNone result → (kind : _) → word.now ≡ name_of_kind kind → ⊥ }
{
    match word {
        "rising" => Some(Kind::Rising),
        "mixed" => Some(Kind::Mixed),
        "same" => Some(Kind::Same),
        "vanished" => Some(Kind::Vanished),
        "idle" => Some(Kind::Idle),
        _ => None,
    }
}

// The case that a word names.
fn case_of(word: &str) -> Option<Case>
    ensures some { IfSome result (λ case. word.now ≡ name_of_case case) }
    ensures none { IsNone result → (case : _) → word.now ≡ name_of_case case → ⊥ }
{
    match word {
        "lines" => Some(Case::Lines),
        "literals" => Some(Case::Literals),
        "bytes" => Some(Case::Bytes),
        _ => None,
    }
}

/// The line with its CRLF that the stream of a case repeats.
pub fn text_of(alloc: Global, case: Case) -> Result<Vec<u8>, AllocError>
    ensures value { IfOk result (λ text. text.items ≡ repeated_text case) }
    ensures some { IfOk result (λ text. 0 < length text.items) }
{
    match case {
        Case::Lines | Case::Bytes => short_line(alloc),
        Case::Literals => long_line(alloc, 1_000_000),
    }
}

// A message's flags and mod-sequence.
fn short_line(alloc: Global) -> Result<Vec<u8>, AllocError>
    ensures value { IfOk result (λ text. text.items ≡ short_line) }
    ensures some { IfOk result (λ text. 0 < length text.items) }
{
    b"* 1 FETCH (UID 1 FLAGS (\\Seen) MODSEQ (715))\r\n".to_vec(alloc)
}

// A message's text of so many octets.
#[tactic(auto, unfolding(crate::specs::Texts::long_line))]
fn long_line(alloc: Global, octets: usize) -> Result<Vec<u8>, AllocError>
    ensures value { IfOk result (λ text. text.items ≡ long_line octets) }
    ensures some { IfOk result (λ text. 0 < length text.items) }
{
    let text = vec![in alloc; b'x'; octets]?;
    let mut line = Vec::new(alloc);
    line.extend_from_slice(b"* 1 FETCH (UID 1 BODY[] {1000000}\r\n")?;
    line.extend_from_slice(&text)?;
    line.extend_from_slice(b")\r\n")?;
    Ok(line)
}
