//! How an action ended, and that its command was taken back, as bytes. They take no memory, so that what was done can be recorded
//! whatever memory is left.

ghost use Rattle.std.specs.Prelude.{◌≡◌, ◌≤◌, ◌∷◌, ◌++◌, [], length};
ghost use Rattle.std.specs.Int.{w32, w64, to_be_bytes};
ghost use Rattle.mail_base.specs.Bodies.{IsBody, frame_of};
ghost use Rattle.action_queue.specs.declared.event.Event.TheVariants as events;
ghost use Rattle.record_codec.specs.Bodies.{body_of, outcome_fields, kind_fields, place_fields};
ghost use Rattle.record_codec.specs.Spelling.{IsKeptPlace, IsKeptKind, IsKeptOutcome, Spelled};

use crate::fields::CLOSED;
use action_queue::{Kind, Outcome, Place};
use arrayvec::ArrayVec;
use mail_base::ActionId;

/// The frame of the record that an action ended so: the body behind its length, and the next gate, closed. It takes
/// no memory.
pub fn encode_outcome(id: ActionId, outcome: &Outcome) -> ArrayVec<u8, 64>
    ensures frame { result.items ≡ frame_of (body_of (events.Settle id outcome.now)) }
    ensures body { IsBody (body_of (events.Settle id outcome.now)) }
    ensures most { length result.items ≤ 28 }
    ensures spelled { Spelled (body_of (events.Settle id outcome.now)) (events.Settle id outcome.now) }
{
    let fields = outcome_bytes(outcome);
    let mut frame = ArrayVec::new();
    let _ = frame.try_extend_from_slice(&(fields.len() as u32 + 5).to_be_bytes());
    let _ = frame.try_push(b'S');
    let _ = frame.try_extend_from_slice(&id.number().to_be_bytes());
    let _ = frame.try_extend_from_slice(&fields);
    let _ = frame.try_push(CLOSED);
    frame
}

/// The frame of the record that a command of an action was taken back, behind this many that were: the body behind its length,
/// and the next gate, closed. It takes no memory.
pub fn encode_withdraw(id: ActionId, tries: u8) -> ArrayVec<u8, 64>
    ensures frame { result.items ≡ frame_of (body_of (events.Withdraw id tries)) }
    ensures body { IsBody (body_of (events.Withdraw id tries)) }
    ensures most { length result.items ≤ 11 }
    ensures spelled { Spelled (body_of (events.Withdraw id tries)) (events.Withdraw id tries) }
{
    let mut frame = ArrayVec::new();
    let _ = frame.try_extend_from_slice(&6u32.to_be_bytes());
    let _ = frame.try_push(b'W');
    let _ = frame.try_extend_from_slice(&id.number().to_be_bytes());
    let _ = frame.try_push(tries);
    let _ = frame.try_push(CLOSED);
    frame
}

/// The fields that say how an action ended.
pub(crate) fn outcome_bytes(outcome: &Outcome) -> ArrayVec<u8, 18>
    ensures wrote { result.items ≡ outcome_fields outcome.now }
    ensures kept { IsKeptOutcome outcome.now }
{
    let mut bytes = ArrayVec::new();
    match outcome {
        Outcome::Done { place } => {
            let _ = bytes.try_push(b'D');
            let _ = bytes.try_extend_from_slice(&place_bytes(place));
        }
        Outcome::Conflict(kind) => {
            let _ = bytes.try_push(b'C');
            let _ = bytes.try_extend_from_slice(&kind_bytes(kind));
        }
    }
    bytes
}

// Where a message landed, if it did.
fn place_bytes(place: &Option<Place>) -> ArrayVec<u8, 9>
    ensures wrote { result.items ≡ place_fields place.now }
    ensures kept { IsKeptPlace place.now }
{
    let mut bytes = ArrayVec::new();
    match place {
        None => {
            let _ = bytes.try_push(0);
        }
        Some(place) => {
            let _ = bytes.try_push(1);
            let _ = bytes.try_extend_from_slice(&place.validity.number().to_be_bytes());
            let _ = bytes.try_extend_from_slice(&place.uid.number().to_be_bytes());
        }
    }
    bytes
}

// Why an action is a conflict.
fn kind_bytes(kind: &Kind) -> ArrayVec<u8, 17>
    ensures wrote { result.items ≡ kind_fields kind.now }
    ensures kept { IsKeptKind kind.now }
{
    match *kind {
        Kind::MessageGone => code(1),
        Kind::AlreadySo => code(2),
        Kind::FlagsChanged { m } => with_u64(code(3), m.number()),
        Kind::RefusedNo => code(4),
        Kind::RefusedBad => code(5),
        Kind::NotPermanent => code(6),
        Kind::TargetUnknown { k } => with_u32(code(7), k.number()),
        Kind::FoundSo => code(8),
        Kind::StoreUnsure { m, f } => with_u64(with_u64(code(9), m.number()), f.number()),
        Kind::SourceGone => code(10),
        Kind::GoneAfterLoss => code(11),
        Kind::Ambiguous { u, v } => with_u32(with_u32(code(12), u.number()), v.number()),
        Kind::ValidityChanged { o, n } => with_u32(with_u32(code(13), o.number()), n.number()),
        Kind::ResetAfterLoss { o, n } => with_u32(with_u32(code(14), o.number()), n.number()),
    }
}

// A kind's number alone.
fn code(code: u8) -> ArrayVec<u8, 17>
    ensures { result.items ≡ code ∷ [] }
{
    let mut bytes = ArrayVec::new();
    let _ = bytes.try_push(code);
    bytes
}

// The bytes with a number of four bytes behind them.
fn with_u32(bytes: ArrayVec<u8, 17>, number: u32) -> ArrayVec<u8, 17>
    requires { length bytes.items ≤ 13 }
    ensures { result.items ≡ bytes.items ++ to_be_bytes w32 number }
{
    let mut longer = bytes;
    let _ = longer.try_extend_from_slice(&number.to_be_bytes());
    longer
}

// The bytes with a number of eight bytes behind them.
fn with_u64(bytes: ArrayVec<u8, 17>, number: u64) -> ArrayVec<u8, 17>
    requires { length bytes.items ≤ 9 }
    ensures { result.items ≡ bytes.items ++ to_be_bytes w64 number }
{
    let mut longer = bytes;
    let _ = longer.try_extend_from_slice(&number.to_be_bytes());
    longer
}
