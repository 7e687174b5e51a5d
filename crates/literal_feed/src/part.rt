//! How a part of a line ends (RFC 9051, sections 2.2, 4.3 and 9).

ghost use Rattle.std.specs.Prelude.{◌≡◌, ℕ, ◌+◌, ◌-◌, ◌<◌, ◌≤◌, ◌^◌, ◌++◌, ◌∷◌, List, length, take, drop, min, slice_index, IfSome, IfNone};
ghost use Rattle.mail_base.specs.Frames.{told, NoLf};
ghost use Rattle.literal_feed.specs.Parts.{Counts, GoesOnAs};

use mail_base::{FeedFault, literal_at_end};
use memchr::memchr;

/// The bytes of the longest line, without its literals' octets and its CRLFs.
pub(crate) const MAX_LINE: usize = 1_048_576;

/// The octets of the largest literal.
pub(crate) const MAX_LITERAL: u64 = 33_554_432;

// The largest number of octets that is told.
const MOST_ASKED: u64 = 9_223_372_036_854_775_807;

/// How far a line was read, by places in it.
#[derive(Clone, Copy)]
pub(crate) struct Cursor {
    /// Where the present part begins: behind the octets of the literal before it, which may not all be there.
    pub(crate) part: usize,
    /// Up to this place the part holds no LF.
    pub(crate) searched: usize,
    /// How many bytes stand in the parts before it, without their CRLFs.
    pub(crate) counted: usize,
    ghost ordered: { part ≤ searched },
    ghost room: { counted ≤ 1048576 },
}

/// How a part ends.
pub(crate) enum Step {
    /// Its end isn't there yet.
    Open,
    /// It ends the line: here the line's last CRLF begins.
    Last(usize),
    /// It opens a literal, whose octets begin here and are so many.
    Opens(usize, usize),
    /// It has a fault.
    Bad(FeedFault),
}

// The place so many bytes behind another one, as it is told.
pub(crate) fn told(at: u64, by: usize) -> u64
    ensures { result ≡ told (at + by) }
{
    at.saturating_add(by as u64)
}

// So many octets as they are told.
fn asked(octets: u64) -> u64
    ensures { result ≡ min octets (2 ^ 63 - 1) }
{
    octets.min(MOST_ASKED)
}

// How many bytes of a part count, if its last CR may be that of its CRLF.
fn counted_len(part: &[u8]) -> usize
    ensures { Counts part.now result }
{
    match part.split_last() {
        Some((b'\r', body)) => body.len(),
        _ => part.len(),
    }
}

// Where the first LF stands.
fn first_lf(text: &[u8]) -> Option<usize>
    ensures none { IfNone result (NoLf text.now) }
    ensures found { IfSome result (λ at. (at < length text.now) × NoLf (take at text.now) × (slice_index text.now at ≡ 10)) }
{
    memchr(b'\n', text)
}

/// How the part goes on that begins where the cursor says, in a line whose first byte has the place `at`.
pub(crate) fn step_of(line: &[u8], cursor: Cursor, at: u64) -> Step
    requires within { cursor.searched ≤ length line.now }
    requires plain { NoLf (take (cursor.searched - cursor.part) (drop cursor.part line.now)) }
    ensures { GoesOnAs at cursor.part cursor.counted (drop cursor.part line.now) result }
{
    let Some(found) = first_lf(&line[cursor.searched..]) else {
        return open(&line[cursor.part..], cursor, at);
    };
    ended(&line[cursor.part..cursor.searched + found], cursor, at)
}

// How a part goes on whose LF isn't there.
fn open(part: &[u8], cursor: Cursor, at: u64) -> Step
    requires plain { NoLf part.now }
    requires room { cursor.part < 2 ^ 63 }
    ensures { GoesOnAs at cursor.part cursor.counted part.now result }
{
    let room = MAX_LINE - cursor.counted;
    if counted_len(part) > room {
        Step::Bad(FeedFault::LineTooLong {
            at: told(at, cursor.part + room),
        })
    } else {
        Step::Open
    }
}

// How a part ends, if an LF stands behind it.
fn ended(part: &[u8], cursor: Cursor, at: u64) -> Step
    requires plain { NoLf part.now }
    requires room { cursor.part + length part.now < 2 ^ 63 }
    ensures { (rest : List ℕ) → GoesOnAs at cursor.part cursor.counted (part.now ++ 10 ∷ rest) result }
{
    let room = MAX_LINE - cursor.counted;
    if counted_len(part) > room {
        return Step::Bad(FeedFault::LineTooLong {
            at: told(at, cursor.part + room),
        });
    }
    let Some((b'\r', body)) = part.split_last() else {
        return Step::Bad(FeedFault::BareLf {
            at: told(at, cursor.part + part.len()),
        });
    };
    let end = cursor.part + body.len();
    match literal_at_end(body) {
        None => Step::Last(end),
        Some(header) if header.octets <= MAX_LITERAL => Step::Opens(
            end + 2,
            header.octets as usize,
        ),
        Some(header) => Step::Bad(FeedFault::LiteralTooLarge {
            at: told(at, cursor.part + header.at),
            asked: asked(header.octets),
        }),
    }
}
