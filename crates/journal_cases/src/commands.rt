//! The commands of a case, and what they answer.

use crate::bytes::Names;
use crate::fate::{Fate, FateDisk};
use crate::files::Files;
use crate::journals::{append, create, framed};
use crate::runs::{Streams, run_on};
use crate::stores::{init, record, tell_anew};
use crate::turns::turn_on;
use crate::undone::{Undone, done_text};
use cases::{Fault, Input, words_of};
use mail_base::Bytes;
use std::alloc::Global;

/// What a command begins with: the files, its input, and what befalls it.
#[derive(Clone, Copy)]
pub struct Start<'a> {
    pub files: &'a Files,
    pub input: &'a [u8],
    pub fate: Fate,
}

impl<'a> Start<'a> {
    /// These files, no input, and nothing befalls it.
    pub fn calm(files: &'a Files) -> Start<'a> {
        Start {
            files,
            input: &[],
            fate: Fate::Calm,
        }
    }

    fn disk(&self, alloc: Global) -> Result<FateDisk, Fault> {
        Ok(FateDisk::new(alloc, self.files, self.fate)?)
    }

    fn streams(&self, alloc: Global) -> Result<Streams, Fault> {
        let mut fails = Vec::new(alloc);
        if let Fate::Output(write) = self.fate {
            fails.push(write)?;
        }
        Ok(Streams::new(alloc, self.input.to_vec(alloc)?, fails))
    }
}

/// What a command came to: its answer (of a run its status), what it printed, how many bytes of its
/// input it left, its calls of the disk, and the files that it left.
#[derive(Drop)]
pub struct Told {
    pub is_run: bool,
    pub answer: String,
    pub printed: Vec<u8>,
    pub unread: u64,
    pub cost: String,
    pub files: Files,
}

impl Told {
    /// No command, over two empty files.
    pub fn nothing(alloc: Global) -> Told {
        Told {
            is_run: false,
            answer: String::new(alloc),
            printed: Vec::new(alloc),
            unread: 0,
            cost: String::new(alloc),
            files: Files::empty(alloc),
        }
    }

    /// Whether the command is done.
    pub fn is_done(&self) -> bool {
        self.answer.as_str() == if self.is_run { "0" } else { "done" }
    }

    /// The answer of a command whose disk failed.
    pub fn of_disk(&self) -> &'static str {
        if self.is_run { "3" } else { "disk" }
    }
}

/// Carries out a command. The disk ends here.
pub fn carried_out(names: &Names, command: &str, start: Start<'_>) -> Result<Told, Fault> {
    let mut disk = start.disk(names.alloc)?;
    told_on(names, command, start, &mut disk)
}

/// The same, and the files that a stop may leave behind it.
pub fn carried_out_to_images(
    names: &Names,
    command: &str,
    start: Start<'_>,
) -> Result<(Told, Vec<Files>), Fault> {
    let mut disk = start.disk(names.alloc)?;
    let told = told_on(names, command, start, &mut disk)?;
    let images = disk.images()?;
    Ok((told, images))
}

// What a command comes to on a disk.
fn told_on(
    names: &Names,
    command: &str,
    start: Start<'_>,
    disk: &mut FateDisk,
) -> Result<Told, Fault> {
    let alloc = names.alloc;
    let mut streams = start.streams(alloc)?;
    let answer = answer_of(names, command, disk, &mut streams)?;
    let mut room = start.input.to_vec(alloc)?;
    Ok(Told {
        is_run: command.starts_with("run "),
        answer,
        printed: streams.printed().to_vec(alloc)?,
        unread: streams.unread(&mut room)?,
        cost: disk.cost()?,
        files: disk.files()?,
    })
}

// Carries out a command, and says what it answers.
fn answer_of(
    names: &Names,
    command: &str,
    disk: &mut FateDisk,
    streams: &mut Streams,
) -> Result<String, Fault> {
    let words = words_of(names.alloc, command.as_bytes())?;
    let mut input = Input::new(names.alloc, &words);
    let answer = answered(names, &mut input, disk, streams)?;
    input.end()?;
    Ok(answer)
}

fn answered(
    names: &Names,
    input: &mut Input<'_>,
    disk: &mut FateDisk,
    streams: &mut Streams,
) -> Result<String, Fault> {
    match input.word()? {
        "run" => {
            let status = run_on(names.alloc, input, disk, streams)?.code();
            Ok(format!(in names.alloc; "{status}")?)
        }
        verb => done_text(names.alloc, done(names, verb, input, disk)),
    }
}

// Carries out another command than a run.
fn done(
    names: &Names,
    verb: &str,
    input: &mut Input<'_>,
    disk: &mut FateDisk,
) -> Result<(), Undone> {
    match verb {
        "create" => create_on(names, input, disk),
        "append" => append_on(names, input, disk),
        "turn" => turn_on(names, input, disk),
        "init" => init_on(names, input, disk),
        "record" => record(names.alloc, disk, &names.bytes(input)?),
        "retell" => tell_anew(names.alloc, disk),
        _ => Err(Undone::Unfit),
    }
}

// Creates a journal of this body.
fn create_on(names: &Names, input: &mut Input<'_>, disk: &mut FateDisk) -> Result<(), Undone> {
    let body = names.bytes(input)?;
    if body.is_empty() {
        return Err(Undone::Unfit);
    }
    create(names.alloc, disk, Bytes::of(body))
}

// `"abc" under 43`
fn append_on(names: &Names, input: &mut Input<'_>, disk: &mut FateDisk) -> Result<(), Undone> {
    let body = names.bytes(input)?;
    input.keyword("under")?;
    let limit = input.number()?;
    if body.is_empty() || body.len() > 65_536 || limit > 1_073_741_824 {
        return Err(Undone::Unfit);
    }
    let frame = framed(names.alloc, &body)?;
    append(names.alloc, disk, &frame, limit)
}

// `BEGIN`, or `BEGIN ; EVENT`
fn init_on(names: &Names, input: &mut Input<'_>, disk: &mut FateDisk) -> Result<(), Undone> {
    let begin = names.bytes(input)?;
    if !input.skips(";") {
        return init(names.alloc, disk, &begin, None);
    }
    let event = names.bytes(input)?;
    init(names.alloc, disk, &begin, Some(&event))
}
