//! Calls of `literal_feed`: the frames of a stream, however it comes. `stream` compares them with a
//! plain slow reading.

use crate::alike::Alike;
use crate::numbers::put_spans;
use crate::plain_frames::{agrees, push_both};
use cases::{Answer, Input, WordFault};
use literal_feed::Feed;
use mail_base::{FeedFault, Frame, List};
use std::alloc::Global;

// The bytes of the longest frame that is told whole.
const SHORT: usize = 1000;

/// The frames of a stream, however it is cut.
pub fn put_feed(input: &mut Input, answer: &mut Answer) -> Result<(), WordFault> {
    let stream = input.text()?;
    let whole = cut_at(input.alloc, stream, stream.len())?;
    let told = put_whole(input.alloc, stream, &whole, answer);
    drop(whole);
    told
}

// What came of a stream: its frames, the fault that the last push told, and whether a push of
// nothing then tells it again.
#[derive(Drop)]
struct Came {
    frames: List<Frame>,
    told: Result<(), FeedFault>,
    steady: bool,
}

// What came in one piece, and what comes wherever the stream is cut in two, or byte by byte, where
// that isn't the same.
fn put_whole(
    alloc: Global,
    stream: &[u8],
    whole: &Came,
    answer: &mut Answer,
) -> Result<(), WordFault> {
    put_came(answer, whole)?;
    for cut in 0..stream.len() {
        let came = cut_at(alloc, stream, cut)?;
        if put_unlike(whole, &came, answer)? {
            return answer.at("where it is cut at", cut);
        }
    }
    let came = byte_by_byte(alloc, stream)?;
    if put_unlike(whole, &came, answer)? {
        return answer.word("byte by byte");
    }
    Ok(())
}

// Whether something else came, which is then added.
fn put_unlike(whole: &Came, came: &Came, answer: &mut Answer) -> Result<bool, WordFault> {
    let differs = !is_same(whole, came);
    if differs {
        answer.word("but")?;
        put_came(answer, came)?;
    }
    Ok(differs)
}

fn put_came(answer: &mut Answer, came: &Came) -> Result<(), WordFault> {
    put_frames(answer, came.frames.as_slice())?;
    if !came.steady {
        answer.word("unsteady")?;
    }
    if came.frames.len() == 0 && came.told.is_ok() {
        return answer.word("nothing");
    }
    put_told(answer, came.told)
}

fn is_same(left: &Came, right: &Came) -> bool {
    if left.frames.len() != right.frames.len() {
        return false;
    }
    for (frame, other) in left.frames.as_slice().iter().zip(right.frames.as_slice()) {
        if !is_same_frame(frame, other) {
            return false;
        }
    }
    left.told == right.told && left.steady == right.steady
}

fn is_same_frame(left: &Frame, right: &Frame) -> bool {
    left.at == right.at
        && left.bytes.as_slice() == right.bytes.as_slice()
        && left.literals.as_slice() == right.literals.as_slice()
}

// What comes of a stream in two pieces.
fn cut_at(alloc: Global, stream: &[u8], cut: usize) -> Result<Came, WordFault> {
    let (first, second) = stream.split_at_checked(cut).ok_or(WordFault::Form)?;
    let mut feed = Feed::new(alloc);
    let told = push_both(&mut feed, first, second);
    let frames = taken(alloc, &mut feed, stream.len())?;
    let steady = feed.push(b"") == told;
    Ok(Came {
        frames,
        told,
        steady,
    })
}

// What comes of a stream byte by byte, where each frame comes with its last byte.
fn byte_by_byte(alloc: Global, stream: &[u8]) -> Result<Came, WordFault> {
    let mut frames = List::new(alloc);
    let mut feed = Feed::new(alloc);
    let mut told = Ok(());
    let mut steady = true;
    let mut pushed = 0u64;
    for byte in stream {
        told = feed.push(&[*byte]);
        pushed = pushed.saturating_add(1);
        if let Some(frame) = feed.take()? {
            steady = steady && end_of(&frame) == pushed;
            frames.push(frame)?;
        }
    }
    Ok(Came {
        frames,
        told,
        steady,
    })
}

// Where a frame's line ends, behind its CRLF.
fn end_of(frame: &Frame) -> u64 {
    let size = frame.bytes.as_slice().len() as u64;
    frame.at.saturating_add(size).saturating_add(2)
}

// All whole frames, of which there aren't more than so many.
fn taken(alloc: Global, feed: &mut Feed, most: usize) -> Result<List<Frame>, WordFault> {
    let mut frames = List::new(alloc);
    for _ in 0..most {
        let Some(frame) = feed.take()? else {
            break;
        };
        frames.push(frame)?;
    }
    Ok(frames)
}

/// Pushes each piece, and takes the frames that then stand.
pub fn put_pieces(input: &mut Input, answer: &mut Answer) -> Result<(), WordFault> {
    let mut feed = Feed::new(input.alloc);
    for _ in 0..input.len() {
        put_piece(input, &mut feed, answer)?;
    }
    Ok(())
}

fn put_piece(input: &mut Input, feed: &mut Feed, answer: &mut Answer) -> Result<(), WordFault> {
    let piece = input.text()?;
    let told = feed.push(piece);
    answer.word(if told.is_ok() { "ok" } else { "refused:" })?;
    put_told(answer, told)?;
    let frames = taken(input.alloc, feed, piece.len())?;
    put_frames(answer, frames.as_slice())
}

/// How many bytes are kept once each frame of the pieces was taken.
pub fn put_held(input: &mut Input, answer: &mut Answer) -> Result<(), WordFault> {
    let mut feed = Feed::new(input.alloc);
    for _ in 0..input.len() {
        hold_piece(input, &mut feed)?;
    }
    answer.number(feed.held())
}

fn hold_piece(input: &mut Input, feed: &mut Feed) -> Result<(), WordFault> {
    let piece = input.text()?;
    if feed.push(piece).is_err() {
        return Err(WordFault::Form);
    }
    taken(input.alloc, feed, piece.len())?;
    Ok(())
}

/// Compares what comes of a stream, cut at each place: `stream TEXT`.
pub fn put_stream(input: &mut Input, answer: &mut Answer) -> Result<(), WordFault> {
    let stream = input.text()?;
    let mut alike = Alike::new();
    for cut in 0..=stream.len() {
        alike.count(agrees(input.alloc, stream, cut));
    }
    alike.put(answer)
}

fn put_frames(answer: &mut Answer, frames: &[Frame]) -> Result<(), WordFault> {
    for frame in frames {
        put_frame(answer, frame)?;
    }
    Ok(())
}

// A frame's place, its bytes or how many they are, and its literals.
fn put_frame(answer: &mut Answer, frame: &Frame) -> Result<(), WordFault> {
    answer.word("frame")?;
    answer.number(frame.at)?;
    let bytes = frame.bytes.as_slice();
    if bytes.len() <= SHORT {
        answer.text(bytes)?;
    } else {
        answer.at("size", bytes.len())?;
    }
    put_spans(answer, frame.literals.as_slice())
}

// The fault, if there is one.
fn put_told(answer: &mut Answer, told: Result<(), FeedFault>) -> Result<(), WordFault> {
    match told {
        Ok(()) => Ok(()),
        Err(FeedFault::BareLf { at }) => {
            answer.word("bare lf at")?;
            answer.number(at)
        }
        Err(FeedFault::LiteralTooLarge { at, asked }) => {
            answer.word("literal too large at")?;
            answer.number(at)?;
            answer.number(asked)
        }
        Err(FeedFault::LineTooLong { at }) => {
            answer.word("line too long at")?;
            answer.number(at)
        }
        Err(FeedFault::Memory) => Err(WordFault::Memory),
    }
}
