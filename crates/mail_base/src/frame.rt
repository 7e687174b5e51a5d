//! A line that a server sent, with its literals (RFC 9051, sections 2.2 and 4.3), and why a stream stops being lines.

ghost use Rattle.std.specs.Prelude.{◌≡◌, IfOk};

use crate::{Bytes, List, Span};
use std::alloc::{AllocError, Global};
use thiserror::Error;

/// One line with its literals, without the CRLF that ends it.
#[derive(Drop)]
pub struct Frame {
    /// The line's bytes: its parts, the headers of its literals with their CRLFs, and the literals' octets.
    pub bytes: Bytes,
    /// Where the octets of each literal stand in `bytes`, without the literal's header.
    pub literals: List<Span>,
    /// The place of the line's first byte in the connection, counted in octets from 0. A place above 2^64 - 1 is told
    /// as 2^64 - 1.
    pub at: u64,
}

impl Frame {
    /// The same frame once more, or want of memory.
    pub fn copy(&self, alloc: Global) -> Result<Frame, AllocError>
        ensures { IfOk result (λ frame. frame ≡ self.now) }
    {
        let bytes = self.bytes.copy()?;
        let literals = List::of(self.literals.as_slice().to_vec(alloc)?);
        Ok(Frame {
            bytes,
            literals,
            at: self.at,
        })
    }
}

/// Why a stream of bytes stops being frames. Each place is counted in octets of the connection, from 0, and told as
/// 2^64 - 1 where it is greater.
#[derive(Clone, Copy, Debug, PartialEq, Eq, Drop, Error)]
pub enum FeedFault {
    /// An LF outside literals, with no CR before it in the same part of the line.
    #[error("an LF without a CR")]
    BareLf { at: u64 },
    /// A literal of more than 33,554,432 octets. The place is that of its header's `{`, and `asked` the lesser of its
    /// number and 2^63 - 1.
    #[error("a literal is too large")]
    LiteralTooLarge { at: u64, asked: u64 },
    /// The byte by which a line, without its literals' octets and its CRLFs, passes 1,048,576 bytes.
    #[error("a line is too long")]
    LineTooLong { at: u64 },
    /// Memory is wanting.
    #[error("out of memory")]
    Memory,
}
