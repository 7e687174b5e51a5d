//! Calls of `record_codec`: the records of events, read and written again.

ghost use Rattle.std.specs.Prelude.{◌≡◌, ◌≤◌, length};
ghost use Rattle.action_queue.specs.Writable.{IsWritable};
ghost use Rattle.record_codec.specs.Spelling.{Spelled};

use action_queue::Event;
use cases::{Answer, Input, WordFault, put_event};
use record_codec::{RecordFault, action_size, decode, encode, encode_outcome, size};
use std::alloc::Global;

/// The event whose record has a body, which is the body of what is written of that event.
pub fn put_record(input: &mut Input, answer: &mut Answer) -> Result<(), WordFault> {
    let body = input.text()?;
    match decode(input.alloc, body) {
        Ok(event) => {
            let told = put_read(input.alloc, &event, body, answer);
            drop(event);
            told
        }
        Err(RecordFault::BadForm { at }) => answer.at("bad form at", at),
        Err(RecordFault::Memory) => Err(WordFault::Memory),
    }
}

fn put_read(alloc: Global, event: &Event, body: &[u8], answer: &mut Answer) -> Result<(), WordFault>
    requires { Spelled body.now event.now }
{
    put_event(answer, event)?;
    if !is_written_so(alloc, event, body)? {
        answer.word("but written otherwise")?;
    }
    put_size(answer, event, body)
}

fn is_written_so(alloc: Global, event: &Event, body: &[u8]) -> Result<bool, WordFault>
    requires { Spelled body.now event.now }
{
    let frame = encode(alloc, event)?;
    Ok(is_frame(&frame, body))
}

// Tells where the size of an event, or of an action alone, isn't that of its body, or an outcome is
// written otherwise.
fn put_size(answer: &mut Answer, event: &Event, body: &[u8]) -> Result<(), WordFault>
    requires { IsWritable event.now }
{
    if size(event) != body.len() as u64 {
        answer.word("but of another size")?;
    }
    match event {
        Event::Accept { action, .. }
            if action_size(action).saturating_add(5) != body.len() as u64 => {
            answer.word("but an action of another size")
        }
        Event::Settle { id, outcome } if !is_frame(&encode_outcome(*id, outcome), body) => {
            answer.word("but an outcome that is written otherwise")
        }
        _ => Ok(()),
    }
}

// Whether bytes are the frame of this body.
fn is_frame(frame: &[u8], body: &[u8]) -> bool {
    let Some((front, behind)) = frame.split_first_chunk::<4>() else {
        return false;
    };
    let Some((gate, told)) = behind.split_last() else {
        return false;
    };
    u32::from_be_bytes(*front) as usize == body.len() && told == body && *gate == 0
}
