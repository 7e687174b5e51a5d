//! A plain slow reading of a whole stream, as its definition says it (RFC 9051, sections 2.2, 4.3
//! and 9), beside the feed.

use literal_feed::Feed;
use mail_base::{FeedFault, Frame};
use std::alloc::{AllocError, Global};

// How the line that begins somewhere goes.
enum Goes {
    Open,
    Whole(usize),
    Bad(FeedFault),
}

// The first front and digits that make the part end with a header: the place of the `{`, and the
// number.
fn header(part: &[u8]) -> Option<(usize, u64)> {
    for at in 0..part.len() {
        if let Some([b'{', digits @ .., b'}']) = part.get(at..)
            && let Some(number) = number_of(digits)
        {
            return Some((at, number));
        }
    }
    None
}

// The number that digits spell, or a greatest one.
fn number_of(digits: &[u8]) -> Option<u64> {
    if digits.is_empty() {
        return None;
    }
    let mut number = 0u64;
    for digit in digits {
        if !digit.is_ascii_digit() {
            return None;
        }
        number = number
            .saturating_mul(10)
            .saturating_add(u64::from(digit.saturating_sub(b'0')))
            .min(9_223_372_036_854_775_807);
    }
    Some(number)
}

// The line that begins at `from`, part by part.
fn line(stream: &[u8], from: usize) -> Goes {
    let mut begins = from;
    let mut room = 1_048_576usize;
    for _ in 0..=stream.len() {
        let Some(tail) = stream.get(begins..) else {
            return Goes::Open;
        };
        let lf = tail.iter().position(|byte| *byte == b'\n');
        let part = match lf {
            Some(lf) => tail.get(..lf).unwrap_or(tail),
            None => tail,
        };
        let (body, has_cr) = match part.split_last() {
            Some((b'\r', body)) => (body, true),
            _ => (part, false),
        };
        if body.len() > room {
            return Goes::Bad(FeedFault::LineTooLong {
                at: begins.saturating_add(room) as u64,
            });
        }
        if lf.is_none() {
            return Goes::Open;
        }
        if !has_cr {
            return Goes::Bad(FeedFault::BareLf {
                at: begins.saturating_add(part.len()) as u64,
            });
        }
        let end = begins.saturating_add(body.len());
        let Some((brace, octets)) = header(body) else {
            return Goes::Whole(end);
        };
        if octets > 33_554_432 {
            return Goes::Bad(FeedFault::LiteralTooLarge {
                at: begins.saturating_add(brace) as u64,
                asked: octets,
            });
        }
        room = room.saturating_sub(body.len());
        begins = end.saturating_add(2).saturating_add(octets as usize);
    }
    Goes::Open
}

// Whether a frame is taken, which stands in the stream from one place up to another.
fn is_taken(
    taken: &Result<Option<Frame>, AllocError>,
    stream: &[u8],
    from: usize,
    end: usize,
) -> bool {
    match taken {
        Ok(Some(frame)) => {
            Some(frame.bytes.as_slice()) == stream.get(from..end) && frame.at == from as u64
        }
        Ok(None) | Err(_) => false,
    }
}

/// Pushes a stream in two pieces.
pub fn push_both(feed: &mut Feed, first: &[u8], second: &[u8]) -> Result<(), FeedFault> {
    feed.push(first)?;
    feed.push(second)
}

// The next frame's end, where the feed gives the same frame there, or else whether both end alike.
enum Step {
    Frame(usize),
    End(bool),
}

// What the feed gives where the slow reading begins at a place, beside what the feed answered to
// the stream.
fn step_from(feed: &mut Feed, answer: Result<(), FeedFault>, stream: &[u8], from: usize) -> Step {
    let taken = feed.take();
    let step = match line(stream, from) {
        Goes::Open => Step::End(answer == Ok(()) && matches!(&taken, Ok(None))),
        Goes::Bad(fault) => Step::End(answer == Err(fault) && matches!(&taken, Ok(None))),
        Goes::Whole(end) if is_taken(&taken, stream, from, end) => Step::Frame(end),
        Goes::Whole(_) => Step::End(false),
    };
    drop(taken);
    step
}

/// Whether a feed that is given the stream in two pieces tells what the slow reading does.
pub fn agrees(alloc: Global, stream: &[u8], cut: usize) -> bool {
    let Some((first, second)) = stream.split_at_checked(cut) else {
        return false;
    };
    let mut feed = Feed::new(alloc);
    let answer = push_both(&mut feed, first, second);
    is_given(&mut feed, answer, stream)
}

// Whether the feed gives what the slow reading tells, to the end.
fn is_given(feed: &mut Feed, answer: Result<(), FeedFault>, stream: &[u8]) -> bool {
    let mut from = 0usize;
    for _ in 0..=stream.len() {
        match step_from(feed, answer, stream, from) {
            Step::Frame(end) => from = end.saturating_add(2),
            Step::End(same) => return same,
        }
    }
    false
}
