//! The program `value_cases`: calls the crates below with what lies in its files, and compares what
//! they answer with what is due. Its words are the names of the files (docs/CASES.md). A call is
//! one of those that the modules here name. Readers, the feed and the images of a world are
//! compared with plain slow programs, too. It tells each case that fails, and how many passed.
#![tactic(auto)]

mod alike;
mod books;
mod boxes;
mod caches;
mod calls;
mod case_files;
mod commands;
mod compared;
mod flags;
mod fours;
mod frames;
mod headers;
mod images;
mod lines;
mod makers;
mod numbers;
mod plain_delta;
mod plain_frames;
mod plain_header;
mod plain_images;
mod plain_response;
mod plain_view;
mod playing;
mod records;
mod responses;
mod resyncs;
mod rules;
mod sets;
mod shown;
mod small_texts;
mod tokens;
mod views;

use cases::checked;
use playing::Values;
use std::process::ExitCode;

fn main(rt: HostRuntime) -> ExitCode {
    let mut values = Values { alloc: rt.alloc() };
    checked(&rt, &mut values)
}
