//! The top call on real files.

use crate::real_files::{empty_folder, real_world};
use mail_base::{Account, Status};
use mail_top::run;
use std::alloc::Global;
use std::test::Fail;
use std::{fs, process};
use world_real::RealWorld;
use world_traits::{MemSink, MemSource};

// The words of a command, which are parted by spaces.
fn words_of(alloc: Global, command: &str) -> Option<Vec<String>> {
    let mut words = Vec::new(alloc);
    for word in command.split(' ') {
        words.push(String::from_str(alloc, word).ok()?).ok()?;
    }
    Some(words)
}

// How a command ends in a world.
fn status_in(
    alloc: Global,
    world: &mut RealWorld<'_, HostRuntime>,
    words: &[String],
    out: &mut MemSink,
) -> Option<Status> {
    let account = Account::new(alloc, "", "").ok()?;
    let mut input = MemSource::new(Vec::new(alloc));
    Some(run(alloc, words, &account, &mut input, world, out))
}

// How a command ends over the files of a folder, and how often a call of the disk failed.
fn ended<'a>(
    rt: &'a HostRuntime,
    path: &'a str,
    words: &[String],
    out: &mut MemSink,
) -> Option<(Status, u64)> {
    let mut world = real_world(rt, Some(path), None)?;
    let status = status_in(rt.alloc(), &mut world, words, out)?;
    Some((status, world.disk_faults()))
}

// Whether a command ends so, and no call of the disk failed.
fn ends<'a>(
    rt: &'a HostRuntime,
    path: &'a str,
    command: &str,
    wanted: Status,
    out: &mut MemSink,
) -> bool {
    match words_of(rt.alloc(), command) {
        Some(words) => ended(rt, path, &words, out) == Some((wanted, 0)),
        None => false,
    }
}

fn ends_and_prints<'a>(rt: &'a HostRuntime, path: &'a str) -> bool {
    let mut out = MemSink::new(rt.alloc());
    ends(rt, path, "init INBOX Archive", Status::Done, &mut out)
        && ends(rt, path, "flag INBOX 42 + \\Seen", Status::Reason, &mut out)
        && ends(rt, path, "list INBOX", Status::Done, &mut out)
        && out.bytes() == b"ready\nrefused no-message\n".as_slice()
}

// How many bytes the left file of a journal has.
fn length_in(rt: &HostRuntime, path: &str) -> Option<usize> {
    let file = format!(in rt.alloc(); "{path}/journal.0").ok()?;
    Some(fs::read(rt, file.as_str()).ok()?.len())
}

fn keeps_a_record(rt: &HostRuntime) -> Option<bool> {
    let path = empty_folder(rt, "record", process::id(rt.process()))?;
    let is_fine = ends_and_prints(rt, path.as_str());
    let length = length_in(rt, path.as_str())?;
    fs::remove_dir_all(rt, path.as_str()).ok()?;
    Some(is_fine && length == 35)
}

#[test]
fn a_record_reaches_the_real_file(rt: HostRuntime) -> Result<(), Fail> {
    assert_eq!(rt; keeps_a_record(&rt), Some(true));
    Ok(())
}
