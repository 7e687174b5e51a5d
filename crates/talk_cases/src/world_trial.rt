//! A world in memory on trial: each call of its link and its disk, by lines of a talk.

use crate::plans::{loss, no_plan};
use crate::reading::Reading;
use crate::served::{Serve, play_served};
use crate::setup::Setup;
use crate::trial::at_line;
use crate::world_calls::{connects, length, receives, restarted, sends, syncs, writes};
use crate::world_cuts::cut;
use crate::world_looks::look;
use cases::{Answer, Fault, Input, Line, Stop, WordFault, last_number, words_of};
use std::alloc::Global;
use world_mem::MemWorld;
use world_traits::Side;

// A world, and the lines of the case.
#[derive(Drop)]
struct World<'a> {
    alloc: Global,
    head: &'a [Line],
    lines: &'a [Line],
    // None while it goes on from an image alone.
    world: Option<Box<MemWorld>>,
}

// The next word as a file.
fn side(input: &mut Input) -> Result<Side, WordFault> {
    match input.word()? {
        "left" => Ok(Side::Left),
        "right" => Ok(Side::Right),
        _ => Err(WordFault::Form),
    }
}

// Adds that a call failed, if it did.
fn put_done(answer: &mut Answer, done: bool) -> Result<(), WordFault> {
    if !done {
        answer.word("fails")?;
    }
    Ok(())
}

// Receives what comes next.
fn receive(world: &mut MemWorld, reading: &mut Reading) -> Result<bool, WordFault> {
    let mut into = [0; 1024];
    let Some(count) = receives(world, &mut into) else {
        return Ok(false);
    };
    if let Some(lines) = into.get(..count) {
        reading.put(lines)?;
    }
    Ok(true)
}

// `left 0 "ab"`
fn write(world: &mut MemWorld, input: &mut Input) -> Result<bool, WordFault> {
    let (side, at) = (side(input)?, input.number()?);
    writes(world, side, at, input.text()?)
}

// `left`
fn measure(
    world: &mut MemWorld,
    input: &mut Input,
    answer: &mut Answer,
) -> Result<bool, WordFault> {
    let Some(length) = length(world, side(input)?) else {
        return Ok(false);
    };
    answer.number(length)?;
    Ok(true)
}

// Makes a call of the link or the disk, or asks something.
fn call(
    world: &mut MemWorld,
    word: &str,
    input: &mut Input,
    reading: &mut Reading,
) -> Result<(), WordFault> {
    let done = match word {
        "connect" => connects(world),
        "receive" => receive(world, reading)?,
        "write" => write(world, input)?,
        "sync" => syncs(world, side(input)?),
        "length" => measure(world, input, &mut reading.answer)?,
        _ => return look(world, word, input, &mut reading.answer),
    };
    put_done(&mut reading.answer, done)
}

impl World<'_> {
    fn world(&mut self) -> Result<&mut MemWorld, WordFault> {
        match &mut self.world {
            Some(world) => Ok(world),
            None => Err(WordFault::Form),
        }
    }

    // Goes on from the image that a pick takes.
    fn restart(&mut self, pick: u64) -> Result<(), Fault> {
        let Some(world) = self.world.take() else {
            return Err(Fault::Form);
        };
        self.world = Some(restarted(self.alloc, world, pick, no_plan(self.alloc))?);
        Ok(())
    }

    // `15 waits done`: cuts the exchange of the case so.
    fn cut(&mut self, input: &mut Input, answer: &mut Answer) -> Result<(), Fault> {
        let (call, loss) = (input.number()?, loss(input)?);
        let Ok(setup) = Setup::of(self.alloc, self.head, self.lines) else {
            return Err(Fault::Form);
        };
        Ok(answer.number(cut(self.alloc, setup, self.lines, call, loss)?)?)
    }

    fn call(&mut self, input: &mut Input, reading: &mut Reading) -> Result<(), Fault> {
        match input.word()? {
            "restart" => {
                let pick = input.number()?;
                self.restart(pick)
            }
            "cut" => self.cut(input, &mut reading.answer),
            word => Ok(call(self.world()?, word, input, reading)?),
        }
    }
}

impl Serve for World<'_> {
    fn hear(&mut self, bytes: &[u8], reading: &mut Reading) -> Result<(), Fault> {
        reading.go_on()?;
        let done = sends(self.world()?, bytes);
        Ok(put_done(&mut reading.answer, done)?)
    }

    // Receives first where nothing more is there to compare.
    fn want(&mut self, bytes: &[u8], reading: &mut Reading) -> Result<(), Fault> {
        if reading.rest().is_empty() {
            let done = receive(self.world()?, reading)?;
            put_done(&mut reading.answer, done)?;
            reading.want_no_answer()?;
        }
        reading.want(bytes)
    }

    fn settle(&mut self, reading: &mut Reading) -> Result<(), Fault> {
        reading.want_end()
    }

    fn act(&mut self, text: &str, reading: &mut Reading) -> Result<(), Fault> {
        let words = words_of(self.alloc, text.as_bytes())?;
        let mut input = Input::new(self.alloc, &words);
        self.call(&mut input, reading)?;
        Ok(input.end()?)
    }
}

/// Plays a case to a world in memory.
pub fn played(alloc: Global, head: &[Line], lines: &[Line]) -> Result<(), Stop> {
    let setup = Setup::of(alloc, head, lines)?;
    let world = setup.into_world();
    let world = Some(at_line(last_number(lines), world)?);
    let world = World {
        alloc,
        head,
        lines,
        world,
    };
    play_served(alloc, world, head, lines)
}
