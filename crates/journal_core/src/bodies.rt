//! Bodies that were read together.

ghost use Rattle.std.specs.Prelude.{◌≡◌, ◌<◌, ◌≤◌, ◌+◌, [], ◌∷◌, Some, IfOk, IfSome, IsTrue, length, take, drop, slice_get};
ghost use Rattle.std.specs.Prelude.{vec_len, vec_capacity, map};
ghost use Rattle.journal_core.specs.Records.{records};
ghost use Rattle.journal_core.specs.Fronts.{IsWhole};
ghost use Rattle.journal_core.specs.Reading.{HasClosedGate};
ghost use Rattle.journal_core.specs.Several.{StandFrom, part_of};

use crate::gated::OPEN;
use crate::reading::{Front, front_in};
use mail_base::Bytes;
use std::alloc::{AllocError, Global};
use std::marker::Model;

/// Where a body stands in the bytes that were read: from a byte on, counted from 0, so many.
#[derive(Clone, Copy, Debug, PartialEq, Eq)]
pub struct Part {
    pub(crate) at: usize,
    pub(crate) size: usize,
}

/// The bodies of records that stand one behind the other. Contracts see them as a list.
#[derive(Drop)]
pub struct Bodies {
    bytes: Bytes,
    parts: Vec<Part>,
}

impl Model for Bodies {
    ghost use Rattle.std.specs.Prelude.{List, ℕ, map};
    ghost use Rattle.journal_core.specs.Several.{part_of};

    ghost Value = { List (List ℕ) };

    ghost view = { λ bodies. map (part_of bodies.bytes) bodies.parts.items };
}

impl Bodies {
    /// How many bodies there are.
    pub fn len(&self) -> usize
        ensures { result ≡ length self.now }
    {
        self.parts.len()
    }

    /// The body at a place, counted from 0.
    pub fn body(&self, at: usize) -> &[u8]
        requires { at < length self.now }
        ensures { slice_get self.now at ≡ Some result.now }
    {
        let Part { at, size } = self.parts[at];
        up_to(self.bytes.as_slice(), at, size)
    }

    /// One body. It takes the room that there is.
    pub(crate) fn one(room: Vec<Part>, body: Bytes) -> Bodies
        requires empty { vec_len room ≡ 0 }
        requires room { 0 < vec_capacity room }
        ensures { result ≡ body ∷ [] }
    {
        let mut parts = room;
        let size = body.as_slice().len();
        parts.push_reserved(Part { at: 0, size });
        Bodies { bytes: body, parts }
    }

    /// The bodies of the records that stand whole at the front of a piece, the next gate too, and how many bytes the
    /// records have.
    pub(crate) fn cut(alloc: Global, piece: Bytes) -> Result<(Bodies, usize), AllocError>
        requires { 0 < length piece }
        ensures stand { IfOk result (λ cut. StandFrom 0 cut.0 piece) }
        ensures size { IfOk result (λ cut. cut.1 ≡ length (records cut.0)) }
    {
        let (parts, size) = parts_of(alloc, piece.as_slice())?;
        Ok((
            Bodies {
                bytes: piece,
                parts,
            },
            size,
        ))
    }
}

// Where the bodies of those records stand, and how many bytes the records have.
fn parts_of(alloc: Global, piece: &[u8]) -> Result<(Vec<Part>, usize), AllocError>
    requires { 0 < length piece.now }
    ensures stand { IfOk result (λ cut. StandFrom 0 (map (part_of piece.now) cut.0.items) piece.now) }
    ensures size { IfOk result (λ cut. cut.1 ≡ length (records (map (part_of piece.now) cut.0.items))) }
{
    let mut parts = Vec::new(alloc);
    let mut end: usize = 0;
    while let Some(size) = whole_at(piece, end) {
        parts.push(Part { at: end + 5, size })?;
        end += size + 5;
    }
    Ok((parts, end))
}

// The size of the body of the record that stands whole at a place of a piece, and the next gate with it.
fn whole_at(piece: &[u8], at: usize) -> Option<usize>
    requires { at < length piece.now }
    ensures whole { IfSome result (λ size. IsWhole size (drop at piece.now)) }
    ensures fits { IfSome result (λ size. at + size + 5 < length piece.now) }
{
    let left = piece.len() - at;
    match front_in(up_to(piece, at, 5), left as u64) {
        Front::Whole { size } => Some(size as usize),
        Front::Closed | Front::Torn => None,
    }
}

/// Whether the gate at the front of a piece is closed.
pub fn is_shut(piece: &[u8]) -> bool
    ensures shut { IsTrue result → HasClosedGate 0 piece.now }
    ensures some { (IsTrue result → ⊥) → 0 < length piece.now }
{
    piece.len() == 0 || piece[0] != OPEN
}

/// How many bytes are missing of the record that a piece cuts off, and of the next gate. None are where its first five
/// bytes don't stand there, or tell no record.
pub fn missing_in(piece: &[u8]) -> u32 {
    let at = whole_end(piece);
    let Front::Whole { size } = front_in(up_to(piece, at, 5), u64::MAX) else {
        return 0;
    };
    let left = u32::try_from(piece.len() - at).unwrap_or(u32::MAX);
    size.saturating_add(6).saturating_sub(left)
}

// Where the records end that stand whole at the front of a piece.
fn whole_end(piece: &[u8]) -> usize
    ensures { result ≤ length piece.now }
{
    let mut end: usize = 0;
    while end < piece.len() {
        let Some(size) = whole_at(piece, end) else {
            return end;
        };
        end += size + 5;
    }
    end
}

// So many bytes from a place on, or those that there are.
fn up_to(bytes: &[u8], at: usize, size: usize) -> &[u8]
    ensures { result.now ≡ take size (drop at bytes.now) }
{
    if at >= bytes.len() {
        return &[];
    }
    let rest = &bytes[at..];
    if size < rest.len() {
        &rest[..size]
    } else {
        rest
    }
}
