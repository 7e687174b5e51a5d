//! The record of a mailbox with many messages, which is encoded or decoded again and again.

ghost use Rattle.std.specs.Prelude.{◌≡◌, ◌≤◌, ◌+◌, ◌*◌, length, IfOk, IfErr};
ghost use Rattle.action_queue.specs.Writable.{IsWritable};
ghost use Rattle.record_codec.specs.Bodies.{body_of};
ghost use Rattle.record_codec.specs.Refusing.{WhyRefused};
ghost use Rattle.mail_bench.specs.Names.{name_of_direction};

use action_queue::Event;
use record_codec::{RecordFault, decode, encode};
use std::alloc::{AllocError, Global};

/// The messages of the mailbox that is learned: the most that a record tells of.
pub const ROWS: u32 = 200_000;

/// What is done with the record.
#[derive(Clone, Copy, Debug, PartialEq, Eq)]
pub enum Direction {
    /// The event is written as a frame.
    Encode,
    /// The body is read as an event.
    Decode,
}

impl Direction {
    /// The word that names the direction.
    pub fn name(&self) -> &'static str
        ensures text { result.now ≡ name_of_direction self.now }
    {
        match *self {
            Direction::Encode => "encode",
            Direction::Decode => "decode",
        }
    }
}

/// The body of a record that tells of so many messages of a mailbox, each of which has the flag `\Seen`; `whole` is 1 where
/// these are all of them, and else 0.
pub fn learned(alloc: Global, whole: u8, rows: u32) -> Result<Vec<u8>, AllocError>
    requires { rows ≤ 200000 }
    ensures { IfOk result (λ body. length body.items ≡ 34 + 20 * rows) }
{
    let mut body = Vec::new(alloc);
    body.extend_from_slice(b"L\x07Archive")?;
    body.push(whole)?;
    body.extend_from_slice(b"\x00\x00\x00\x09\x00\x00\x00\x00\x00\x00\x01\x2c\x00\x03\x0d\x41")?;
    body.extend_from_slice(&0u32.to_be_bytes())?;
    body.extend_from_slice(&rows.to_be_bytes())?;
    for before in 0..rows {
        let uid = before + 1;
        body.extend_from_slice(&uid.to_be_bytes())?;
        body.extend_from_slice(b"\x00\x00\x00\x00\x00\x00\x00\x01\x00\x01\x05\\seen")?;
    }
    Ok(body)
}

/// Does it with the record of this body so often. Fails where the body is no record's, or for want of memory.
pub fn repeat(
    alloc: Global,
    direction: Direction,
    body: &[u8],
    times: u32,
) -> Result<(), RecordFault>
    ensures { IfErr result (λ fault. WhyRefused body.now fault) }
{
    match direction {
        Direction::Encode => encode_often(alloc, body, times),
        Direction::Decode => decode_often(alloc, body, times),
    }
}

// Writes the frame of a body's event so often.
fn encode_often(alloc: Global, body: &[u8], times: u32) -> Result<(), RecordFault>
    ensures { IfErr result (λ fault. WhyRefused body.now fault) }
{
    let event = decode(alloc, body)?;
    write_often(alloc, &event, times)?;
    Ok(())
}

// Writes an event's frame so often.
fn write_often(alloc: Global, event: &Event, times: u32) -> Result<(), AllocError>
    requires writable { IsWritable event.now }
    requires fits { length (body_of event.now) ≤ 1073741824 }
{
    for _ in 0..times {
        let _frame = encode(alloc, event)?;
    }
    Ok(())
}

// Reads a body so often.
fn decode_often(alloc: Global, body: &[u8], times: u32) -> Result<(), RecordFault>
    ensures { IfErr result (λ fault. WhyRefused body.now fault) }
{
    for _ in 0..times {
        let _event = decode(alloc, body)?;
    }
    Ok(())
}
