//! A mark beside the journal of what is under way to the server, for the run after one that was ended.

use crate::plain_file::make;
use std::fs::{File, Files};
use std::io::Write;
use std::{fs, io};

/// Writes `BYTES held` or `BYTES whole` into `mowerbean.sent` of a folder: how many bytes are sent that weren't answered,
/// and whether a command's end is among them. It is written beside and renamed, so it is never read half. It isn't synced,
/// since nothing is under way any more where the system has stopped.
pub fn put<R: Files<File = File> + AllocGlobal>(
    rt: &R,
    folder: &str,
    bytes: u64,
    is_whole: bool,
) -> io::Result<()> {
    let word = if is_whole { "whole" } else { "held" };
    let text = format!(in rt.alloc(); "{bytes} {word}\n")?;
    let path = format!(in rt.alloc(); "{folder}/mowerbean.sent")?;
    let beside = format!(in rt.alloc(); "{folder}/mowerbean.sent.new")?;
    let _ = fs::remove_file(rt, beside.as_str());
    let mut file = make(rt, beside.as_str())?;
    file.write_all(text.as_bytes())?;
    fs::rename(rt, beside.as_str(), path.as_str())
}

/// Takes the mark away. Where that fails the next run waits longer than it would have to.
pub fn take_away<R: Files<File = File> + AllocGlobal>(rt: &R, folder: &str) {
    if let Ok(path) = format!(in rt.alloc(); "{folder}/mowerbean.sent") {
        let _ = fs::remove_file(rt, path.as_str());
    }
}
