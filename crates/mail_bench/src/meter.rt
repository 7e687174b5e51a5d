//! Counts the frames and the bytes of a stream that is pushed through a feed, and reads each frame where that is asked for
//! (RFC 9051, sections 2.2 and 9).

ghost use Rattle.std.specs.Prelude.{◌≡◌, ◌<◌, ◌++◌, [], List, ℕ, length, OnOk, IfOk, IfErr, IsTrue, IsFalse};
ghost use Rattle.mail_base.specs.Frames.{NoWhole};
ghost use Rattle.mail_bench.specs.Blocks.{text_in};
ghost use Rattle.mail_bench.specs.Breaking.{Breaks, IsSound, Unread};
ghost use Rattle.mail_bench.specs.Metered.{IsJudged, Metered};
ghost use Rattle.mail_bench.specs.Repeated.{stretch};

use crate::block::Block;
use crate::fault::MeterFault;
use imap_response::read;
use literal_feed::Feed;
use mail_base::Frame;
use std::alloc::Global;

/// A feed, and what came through it. A count above 2^64 - 1 is told as 2^64 - 1.
#[derive(Drop)]
pub struct Meter {
    feed: Feed,
    /// Whether each frame is read.
    pub reads: bool,
    /// The frames that were taken.
    pub frames: u64,
    /// The bytes that were pushed.
    pub bytes: u64,
}

impl Meter {
    /// Nothing came yet.
    pub fn new(alloc: Global, reads: bool) -> Meter
        ensures reads { result.reads ≡ reads }
        ensures counted { Metered [] result }
        ensures taken { NoWhole result.feed.bytes }
    {
        Meter {
            feed: Feed::new(alloc),
            reads,
            frames: 0,
            bytes: 0,
        }
    }

    /// Pushes a piece of the stream, and takes every frame that is whole then.
    pub fn push(&mut self, alloc: Global, piece: &[u8]) -> Result<(), MeterFault>
        ensures reads { OnOk result (self.new.reads ≡ self.old.reads) }
        ensures counted { (all : List ℕ) → Metered all self.old → OnOk result (Metered (all ++ piece.now) self.new) }
        ensures taken { OnOk result (NoWhole self.new.feed.bytes) }
        ensures sound { (all : List ℕ) → Metered all self.old → OnOk result (IsSound (all ++ piece.now)) }
        ensures why { (all : List ℕ) → Metered all self.old → IsSound all
            → IfErr result (Breaks self.old.reads (all ++ piece.now)) }
    {
        self.feed.push(piece)?;
        self.bytes = self.bytes.saturating_add(piece.len() as u64);
        self.take_all(alloc)
    }

    // Takes every whole frame.
    fn take_all(&mut self, alloc: Global) -> Result<(), MeterFault>
        ensures reads { OnOk result (self.new.reads ≡ self.old.reads) }
        ensures counted { (all : List ℕ) → Metered all self.old → OnOk result (Metered all self.new) }
        ensures taken { OnOk result (NoWhole self.new.feed.bytes) }
        ensures why { (all : List ℕ) → Metered all self.old → IfErr result (Breaks self.old.reads all) }
    {
        while self.take_one(alloc)? {}
        Ok(())
    }

    // Takes the next frame, if one is whole.
    fn take_one(&mut self, alloc: Global) -> Result<bool, MeterFault>
        ensures reads { OnOk result (self.new.reads ≡ self.old.reads) }
        ensures counted { (all : List ℕ) → Metered all self.old → OnOk result (Metered all self.new) }
        ensures fewer { IfOk result (λ found. IsTrue found → length self.new.feed.bytes < length self.old.feed.bytes) }
        ensures none { IfOk result (λ found. IsFalse found → NoWhole self.new.feed.bytes) }
        ensures why { (all : List ℕ) → Metered all self.old → IfErr result (Breaks self.old.reads all) }
    {
        let Some(frame) = self.feed.take()? else {
            return Ok(false);
        };
        judge(alloc, self.reads, &frame)?;
        self.frames = self.frames.saturating_add(1);
        Ok(true)
    }
}

// Reads the frame, where that is asked for.
fn judge(alloc: Global, reads: bool, frame: &Frame) -> Result<(), MeterFault>
    ensures judged { OnOk result (IsJudged reads frame.now) }
    ensures why { IfErr result (Unread reads frame.now) }
{
    if reads {
        let _response = read(alloc, frame)?;
    }
    Ok(())
}

/// Pushes so many bytes of the text that a block repeats, piece by piece, and takes and counts every frame that is whole;
/// where that is asked for, each of them is read as its response. Fails at the stream's first fault, at the first frame that
/// is no response, and for want of memory.
pub fn measure(alloc: Global, block: &Block, size: u64, reads: bool) -> Result<Meter, MeterFault>
    ensures reads { IfOk result (λ meter. meter.reads ≡ reads) }
    ensures counted { IfOk result (Metered (stretch (text_in block.now) 0 size)) }
    ensures taken { IfOk result (λ meter. NoWhole meter.feed.bytes) }
    ensures sound { OnOk result (IsSound (stretch (text_in block.now) 0 size)) }
    ensures why { IfErr result (Breaks reads (stretch (text_in block.now) 0 size)) }
{
    let mut meter = Meter::new(alloc, reads);
    let mut left = size;
    let mut at = 0;
    while left > 0 {
        let count = left.min(block.most as u64) as usize;
        meter.push(alloc, block.piece(at, count))?;
        at = block.behind(at, count);
        left -= count as u64;
    }
    Ok(meter)
}
