//! A case, as far as it was played.

use crate::bytes::Names;
use crate::commands::{Start, Told, carried_out};
use crate::fate::Fate;
use crate::files::side_of;
use crate::outside::Objects;
use crate::plain_write::each_write;
use crate::texts::phrase_of;
use cases::{Fault, Input, Line, Play, Stop, WordFault, words_of};
use std::alloc::Global;

/// What plays cases on journals.
#[derive(Clone, Copy)]
pub struct Journals {
    pub alloc: Global,
}

impl Play for Journals {
    fn play(&mut self, head: &[Line], lines: &[Line]) -> Result<(), Stop> {
        let mut stage = Stage::new(self.alloc);
        play_all(&mut stage, head)?;
        play_all(&mut stage, lines)
    }
}

// Plays lines, and stops at the first that differs.
fn play_all(stage: &mut Stage, lines: &[Line]) -> Result<(), Stop> {
    for line in lines {
        play_line(stage, line)?;
    }
    Ok(())
}

fn play_line(stage: &mut Stage, line: &Line) -> Result<(), Stop> {
    if let Err(fault) = stage.call(line.text.as_str()) {
        return Err(fault.at(line.number));
    }
    for row in &line.below {
        if let Err(fault) = stage.due(line, row.text.as_str()) {
            return Err(fault.at(row.number));
        }
    }
    Ok(())
}

/// The bytes that have names, what the last call came to and whether it left the files, how much of
/// what it printed was told, and what the next one reads and meets.
#[derive(Drop)]
pub struct Stage {
    pub alloc: Global,
    pub names: Names,
    pub told: Told,
    pub stays: bool,
    pub shown: usize,
    pub objects: Objects,
    input: Vec<u8>,
    fate: Fate,
}

impl Stage {
    fn new(alloc: Global) -> Stage {
        Stage {
            alloc,
            names: Names::new(alloc),
            told: Told::nothing(alloc),
            stays: false,
            shown: 0,
            objects: Objects::new(alloc),
            input: Vec::new(alloc),
            fate: Fate::Calm,
        }
    }

    /// What the next command begins with.
    pub fn start(&self) -> Start<'_> {
        Start {
            files: &self.told.files,
            input: &self.input,
            fate: self.fate,
        }
    }

    // Does what a line says.
    fn call(&mut self, text: &str) -> Result<(), Fault> {
        match phrase_of(text).0 {
            "command" => Ok(()),
            "run" | "create" | "append" | "turn" | "init" | "record" | "retell" => {
                self.carry_out(text)
            }
            _ => self.prepare(text),
        }
    }

    // Does what the words of a line say that is no command.
    fn prepare(&mut self, text: &str) -> Result<(), Fault> {
        let words = words_of(self.alloc, text.as_bytes())?;
        let mut input = Input::new(self.alloc, &words);
        self.take(&mut input)?;
        Ok(input.end()?)
    }

    fn take(&mut self, input: &mut Input<'_>) -> Result<(), Fault> {
        match input.word()? {
            "bytes" => self.names.add(input)?,
            "given" => self.give(input)?,
            "input" => self.input = self.names.bytes(input)?,
            "disk" => self.fate = Fate::Call(input.number()?),
            "sink" => self.fate = Fate::Output(input.number()?),
            "each" => each_write(&self.names, input)?,
            verb => self.call_object(verb, input)?,
        }
        Ok(())
    }

    // `left BYTES`
    fn give(&mut self, input: &mut Input<'_>) -> Result<(), WordFault> {
        let side = side_of(input.text()?)?;
        *self.told.files.file_mut(side) = self.names.bytes(input)?;
        Ok(())
    }

    // Carries out a command, and goes on with the files that it leaves.
    fn carry_out(&mut self, command: &str) -> Result<(), Fault> {
        let start = self.start();
        let told = carried_out(&self.names, command, start)?;
        let stays = told.files.are(start.files);
        self.stays = stays;
        self.told = told;
        self.shown = 0;
        self.fate = Fate::Calm;
        Ok(())
    }

    // Calls the disk, the source or the sink.
    fn call_object(&mut self, verb: &str, input: &mut Input<'_>) -> Result<(), Fault> {
        self.told.answer = self.objects.call(verb, &self.names, input)?;
        self.told.files = self.objects.files()?;
        self.told.printed = self.objects.printed().to_vec(self.alloc)?;
        Ok(())
    }
}
