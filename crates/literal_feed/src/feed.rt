//! The frames of a stream that comes in pieces (RFC 9051, section 2.2).

ghost use Rattle.std.specs.Prelude.{◌≡◌, ◌≢◌, ◌+◌, ◌⊎◌, ◌++◌, [], length, Some, None, OnOk, OnErr, IfOk, IfErr, IfSome, IfNone, IsErrOf, Err};
ghost use Rattle.mail_base.specs.Frames.{FirstFault, IsNext, NoWhole, told};
ghost use Rattle.literal_feed.specs.Stream.{Stream, NoFault, StandsFor};
ghost use Rattle.mail_base.specs.declared.frame.Frame.{Frame};
ghost use Rattle.std.specs.Prelude.{List, ℕ, option_to_list};

use crate::line::frame_of;
use crate::part::told;
use crate::pending::Pending;
use crate::progress::{Progress, begin, read_lines};
use mail_base::{FeedFault, Frame};
use std::alloc::{AllocError, Global};
use std::marker::Model;

/// The bytes of a stream that came and were not yet taken as frames.
#[derive(Drop)]
pub struct Feed {
    alloc: Global,
    // From the first frame that wasn't taken.
    bytes: Pending,
    // The place of the first of these bytes.
    at: u64,
    progress: Progress,
}

impl Model for Feed {
    ghost use Rattle.literal_feed.specs.Stream.{Stream};

    ghost Value = { Stream };

    ghost use Rattle.literal_feed.specs.Streams.{Holds};

    ghost view = { λ feed. record { at = feed.at; bytes = feed.bytes } };

    ghost invariant = { λ feed. ∥ Holds feed.at feed.bytes feed.progress ∥₁ };
}

impl Feed {
    /// Nothing came yet. It takes no memory.
    pub fn new(alloc: Global) -> Feed
        ensures value { result ≡ record { at = 0; bytes = [] } }
        ensures stands { StandsFor [] [] result }
    {
        Feed {
            alloc,
            bytes: Pending::new(alloc),
            at: 0,
            progress: begin(),
        }
    }

    /// Takes in a piece of the stream.
    ///
    /// Answers the stream's first fault from the piece on that has it, and keeps no later piece. On want of memory
    /// nothing is taken in.
    pub fn push(&mut self, piece: &[u8]) -> Result<(), FeedFault>
        ensures done { OnOk result ((self.new ≡ record { at = self.old.at; bytes = self.old.bytes ++ piece.now }) × NoFault self.new) }
        // The first fault of what came is told at once, and from then on.
        ensures fault { IfErr result (λ fault. fault ≢ FeedFault.Memory → ∥ FirstFault self.new.at self.new.bytes fault ∥₁) }
        ensures first { IfErr result (λ fault. fault ≢ FeedFault.Memory → NoFault self.old
            → self.new ≡ record { at = self.old.at; bytes = self.old.bytes ++ piece.now }) }
        ensures again { (fault : FeedFault) → FirstFault self.old.at self.old.bytes fault → (result ≡ Err fault) × (self.new ≡ self.old) }
        ensures kept { IsErrOf result FeedFault.Memory → (self.new ≡ self.old) × NoFault self.old }

        // However the stream is cut: of all the bytes that came, the same frames were taken, and the rest is here.
        ensures stands { (all : List ℕ) (taken : List Frame) → StandsFor all taken self.old
            → OnOk result (StandsFor (all ++ piece.now) taken self.new) }
    {
        if let Some(fault) = self.progress.fault {
            return Err(fault);
        }
        let Ok(()) = self.bytes.extend(piece) else {
            return Err(FeedFault::Memory);
        };
        let Progress { whole, cursor, .. } = self.progress;
        self.progress = read_lines(self.bytes.as_slice(), whole, cursor, self.at);
        verdict(self.progress.fault)
    }

    /// Takes the next whole frame, if one stands. `None` takes no memory; on want of memory nothing is taken.
    pub fn take(&mut self) -> Result<Option<Frame>, AllocError>
        ensures frame { IfOk result (λ found. IfSome found (λ frame. IsNext self.old.at self.old.bytes frame self.new.bytes
            × (self.new.at ≡ told (self.old.at + (length frame.bytes + 2))))) }
        ensures none { IfOk result (λ found. IfNone found (NoWhole self.old.bytes × (self.new ≡ self.old))) }
        ensures kept { OnErr result ((self.new ≡ self.old) × (NoWhole self.old.bytes → ⊥)) }

        // Of all the bytes that came, this frame was taken behind the others.
        ensures stands { (all : List ℕ) (taken : List Frame) → StandsFor all taken self.old
            → IfOk result (λ found. StandsFor all (taken ++ option_to_list found) self.new) }
    {
        if self.progress.whole == 0 {
            return Ok(None);
        }
        let Some(frame) = frame_of(self.alloc, self.bytes.as_slice(), self.at)? else {
            return Ok(None);
        };
        let count = frame.bytes.as_slice().len() + 2;
        self.bytes.give_up(count);
        self.at = told(self.at, count);
        self.progress.whole -= count;
        Ok(Some(frame))
    }

    /// How many bytes of the stream came and stand in no frame that was taken.
    pub fn held(&self) -> u64
        ensures { result ≡ length self.now.bytes }
    {
        self.bytes.as_slice().len() as u64
    }
}

// The fault as an answer.
fn verdict(fault: Option<FeedFault>) -> Result<(), FeedFault>
    ensures none { OnOk result (fault ≡ None) }
    ensures some { IfErr result (λ told. fault ≡ Some told) }
{
    match fault {
        Some(fault) => Err(fault),
        None => Ok(()),
    }
}
