//! Reads one line with its literals (RFC 9051, sections 2.2 and 4.3).

ghost use Rattle.std.specs.Prelude.{◌≡◌, ℕ, ◌+◌, ◌-◌, ◌^◌, ◌<◌, ◌≤◌, List, length, drop, IfOk, IfSome, IfNone};
ghost use Rattle.mail_base.specs.Frames.{IsNext, NoWhole, told};
ghost use Rattle.literal_feed.specs.Lines.{Stands, FoundAs};

use crate::part::{Cursor, Step, step_of};
use mail_base::{Bytes, FeedFault, Frame, List, Span};
use std::alloc::{AllocError, Global};

/// How far a line goes.
pub(crate) enum Found {
    /// It goes on behind what is there.
    Open(Cursor),
    /// It is whole: its last CRLF begins here.
    Whole(usize),
    /// It has a fault.
    Bad(FeedFault),
}

/// Where the reading of a line begins.
pub(crate) fn start() -> Cursor
    ensures part { result.part ≡ 0 }
    ensures searched { result.searched ≡ 0 }
    ensures counted { result.counted ≡ 0 }
{
    Cursor {
        part: 0,
        searched: 0,
        counted: 0,
    }
}

// Behind the literal that a part opens.
fn behind(cursor: Cursor, low: usize, octets: usize) -> Cursor
    requires part { cursor.part + 2 ≤ low }
    requires room { cursor.counted + (low - 2 - cursor.part) ≤ 1048576 }
    requires fits { low + octets < 2 ^ 64 }
    ensures part { result.part ≡ low + octets }
    ensures searched { result.searched ≡ low + octets }
    ensures counted { result.counted ≡ cursor.counted + (low - 2 - cursor.part) }
{
    Cursor {
        part: low + octets,
        searched: low + octets,
        counted: cursor.counted + (low - 2 - cursor.part),
    }
}

/// Reads a line on from where the cursor says. The line's first byte has the place `at`.
pub(crate) fn read_on(line: &[u8], mut cursor: Cursor, at: u64) -> Found
    requires { ∥ Stands line.now cursor ∥₁ }
    ensures { FoundAs at line.now result }
{
    while cursor.part <= line.len() {
        match step_of(line, cursor, at) {
            Step::Open => {
                cursor.searched = line.len();
                return Found::Open(cursor);
            }
            Step::Last(end) => return Found::Whole(end),
            Step::Bad(fault) => return Found::Bad(fault),
            Step::Opens(low, octets) => cursor = behind(cursor, low, octets),
        }
    }
    Found::Open(cursor)
}

/// The line in front of the bytes as a frame, if it is whole. The first byte has the place `at`.
pub(crate) fn frame_of(alloc: Global, bytes: &[u8], at: u64) -> Result<Option<Frame>, AllocError>
    ensures frame { IfOk result (λ found. IfSome found (λ frame. IsNext at bytes.now frame (drop (length frame.bytes + 2) bytes.now))) }
    ensures none { IfOk result (λ found. IfNone found (NoWhole bytes.now)) }
{
    frame_from(alloc, bytes, start(), at)
}

// The same, where nothing was read of the line.
fn frame_from(
    alloc: Global,
    bytes: &[u8],
    mut cursor: Cursor,
    at: u64,
) -> Result<Option<Frame>, AllocError>
    requires part { cursor.part ≡ 0 }
    requires searched { cursor.searched ≡ 0 }
    requires counted { cursor.counted ≡ 0 }
    ensures frame { IfOk result (λ found. IfSome found (λ frame. IsNext at bytes.now frame (drop (length frame.bytes + 2) bytes.now))) }
    ensures none { IfOk result (λ found. IfNone found (NoWhole bytes.now)) }
{
    let mut literals = List::new(alloc);
    while cursor.part <= bytes.len() {
        match step_of(bytes, cursor, at) {
            Step::Open => return Ok(None),
            Step::Bad(_) => return Ok(None),
            Step::Opens(low, octets) => {
                cursor = behind(cursor, low, octets);
                literals.push(Span {
                    low,
                    high: low + octets,
                })?;
            }
            Step::Last(end) => {
                let bytes = Bytes::of(bytes[..end].to_vec(alloc)?);
                return Ok(Some(Frame {
                    bytes,
                    literals,
                    at,
                }));
            }
        }
    }
    Ok(None)
}
