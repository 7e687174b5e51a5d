//! A command whose calls of the disk fail one after the other, or that is stopped after each of
//! them.

use crate::bytes::Names;
use crate::commands::{Start, carried_out_to_images};
use crate::fate::Fate;
use crate::spans::Spans;
use cases::{DueLine, Fault, same_text};

// No command makes so many calls.
const MOST: u64 = 1_000;

/// A command that is tried again and again, and the rows below it.
#[derive(Clone, Copy)]
pub struct Trial<'a> {
    pub names: &'a Names,
    pub command: &'a str,
    pub rows: &'a [DueLine],
}

// This call fails, or the command is stopped before it.
fn fate_at(call: u64, stops: bool) -> Fate {
    if stops {
        return Fate::Stop(call.saturating_sub(1));
    }
    Fate::Call(call)
}

impl Trial<'_> {
    // Whether the command is done, and how the images are that a stop may leave behind it. Where it
    // isn't done the disk failed, and nothing else.
    fn tried(self, start: Start<'_>) -> Result<(bool, &'static str), Fault> {
        let (told, images) = carried_out_to_images(self.names, self.command, start)?;
        let is_done = told.is_done();
        if !is_done {
            same_text(self.names.alloc, told.of_disk(), told.answer.as_str())?;
        }
        Ok((is_done, self.state_of_all(&images)?))
    }

    /// Each call of the command fails once, or the command is stopped before each of them, from the
    /// first one to the last: the disk's failure is told, and the files are as the words say, in
    /// each image that a stop may leave. Then the command is done, and they are as behind it.
    pub fn each_call(self, start: Start<'_>, stops: bool, wanted: &str) -> Result<(), Fault> {
        let alloc = self.names.alloc;
        let mut spans = Spans::new(alloc);
        for call in 1..MOST {
            let fate = fate_at(call, stops);
            let (is_done, state) = self.tried(Start { fate, ..start })?;
            if is_done {
                same_text(alloc, "after", state)?;
                return spans.want(alloc, wanted);
            }
            spans.add(alloc, state)?;
        }
        Err(Fault::Form)
    }
}
