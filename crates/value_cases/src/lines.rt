//! Calls that compare the reader of responses with the plain slow program, on short lines. `lines
//! FRONT ; PIECE .. ; END` are all those of a front, four of the pieces, and an end; `literals
//! FRONT ; OCTETS .. ; END ..` those with each literal before each end.

use crate::alike::Alike;
use crate::fours::{Fours, texts};
use crate::plain_response::parts::{Part, Parts, Spelled};
use crate::plain_response::spelled;
use cases::{Answer, Input, WordFault, put_response};
use imap_model::Response;
use imap_response::{ResponseFault, read};
use mail_base::{Bytes, Frame, List, Span};
use std::alloc::{AllocError, Global};

/// Compares each line of four of the pieces.
pub fn put_lines(input: &mut Input, answer: &mut Answer) -> Result<(), WordFault> {
    let front = input.text()?;
    input.end_step()?;
    let pieces = texts(input)?;
    let end = input.text()?;
    let lines = Fours {
        front,
        pieces: &pieces,
        end,
    };
    compare_lines(input.alloc, lines)?.put(answer)
}

fn compare_lines(alloc: Global, lines: Fours<'_>) -> Result<Alike, WordFault> {
    let mut alike = Alike::new();
    for number in 0..lines.len() {
        let line = lines.text(alloc, number)?;
        alike.count(is_alike(alloc, Sent::bare(&line))?);
    }
    Ok(alike)
}

/// Compares each line of one of the literals and one of the ends.
pub fn put_literals(input: &mut Input, answer: &mut Answer) -> Result<(), WordFault> {
    let front = input.text()?;
    input.end_step()?;
    let literals = texts(input)?;
    let ends = texts(input)?;
    let mut alike = Alike::new();
    for behind in &ends {
        compare_octets(input.alloc, front, &literals, behind, &mut alike)?;
    }
    alike.put(answer)
}

fn compare_octets(
    alloc: Global,
    front: &[u8],
    literals: &[&[u8]],
    behind: &[u8],
    alike: &mut Alike,
) -> Result<(), WordFault> {
    for octets in literals {
        let line = Sent {
            front,
            octets: Some(octets),
            behind,
        };
        alike.count(is_alike(alloc, line)?);
    }
    Ok(())
}

/// A line that is sent: up to its literal's header, the octets of the literal, where it has one,
/// and what stands behind them.
#[derive(Clone, Copy)]
pub struct Sent<'a> {
    front: &'a [u8],
    octets: Option<&'a [u8]>,
    behind: &'a [u8],
}

impl<'a> Sent<'a> {
    /// A line without a literal.
    pub fn bare(front: &'a [u8]) -> Sent<'a> {
        Sent {
            front,
            octets: None,
            behind: b"",
        }
    }

    // Its parts: the header of a literal and its CRLF are one part with it.
    fn parts(self, alloc: Global) -> Result<Vec<Part<'a>>, AllocError> {
        let mut parts = Vec::new(alloc);
        add_bytes(&mut parts, self.front)?;
        if let Some(octets) = self.octets {
            parts.push(Part::Literal(octets))?;
        }
        add_bytes(&mut parts, self.behind)?;
        Ok(parts)
    }

    /// Its frame, in which a literal has one octet.
    pub fn frame(self, alloc: Global) -> Result<Frame, AllocError> {
        let mut bytes = Bytes::new(alloc);
        let mut literals = List::new(alloc);
        bytes.extend(self.front)?;
        if let Some(octets) = self.octets {
            bytes.extend(b"{1}\r\n")?;
            let low = bytes.as_slice().len();
            bytes.extend(octets)?;
            let high = bytes.as_slice().len();
            literals.push(Span { low, high })?;
        }
        bytes.extend(self.behind)?;
        Ok(Frame {
            bytes,
            literals,
            at: 0,
        })
    }
}

fn add_bytes<'a>(parts: &mut Vec<Part<'a>>, bytes: &[u8]) -> Result<(), AllocError> {
    for byte in bytes {
        parts.push(Part::Byte(*byte))?;
    }
    Ok(())
}

// Whether the reader and the slow program say the same of a line.
fn is_alike(alloc: Global, line: Sent<'_>) -> Result<bool, WordFault> {
    let parts = line.parts(alloc)?;
    let frame = line.frame(alloc)?;
    is_read_alike(alloc, &frame, &parts)
}

fn is_read_alike(alloc: Global, frame: &Frame, parts: Parts<'_>) -> Result<bool, WordFault> {
    let slow = spelled(alloc, parts);
    let same = is_read_so(alloc, frame, &slow);
    drop(slow);
    same
}

fn is_read_so(alloc: Global, frame: &Frame, slow: &Spelled<Response>) -> Result<bool, WordFault> {
    let found = read(alloc, frame);
    let same = is_same(alloc, &found, slow);
    drop(found);
    same
}

fn is_same(
    alloc: Global,
    found: &Result<Response, ResponseFault>,
    slow: &Spelled<Response>,
) -> Result<bool, WordFault> {
    match (found, slow) {
        (_, Err(WordFault::Memory)) => Err(WordFault::Memory),
        (Ok(found), Ok(slow)) => is_told_so(alloc, found, slow),
        (Err(ResponseFault::BadForm { .. }), Err(WordFault::Form)) => Ok(true),
        _ => Ok(false),
    }
}

// Whether two responses are told in the same words: these name each part of a response.
fn is_told_so(alloc: Global, found: &Response, slow: &Response) -> Result<bool, WordFault> {
    let found = told(alloc, found)?;
    let slow = told(alloc, slow)?;
    Ok(found.as_bytes() == slow.as_bytes())
}

fn told(alloc: Global, response: &Response) -> Result<Answer, WordFault> {
    let mut told = Answer::new(alloc);
    put_response(&mut told, response)?;
    Ok(told)
}
