//! The world as it is, over real files in a folder of the test's own.

use std::fs::Files;
use std::os::unix::fs::MetadataExt;
use std::rt::Env;
use std::test::Fail;
use std::{env, fs, process};
use world_real::RealWorld;
use world_traits::{Disk, DiskFailed, Side};

/// A new empty folder.
pub fn empty_folder<R: Files + AllocGlobal + Env>(
    rt: &R,
    name: &str,
    process: u32,
) -> Option<String> {
    let parent = env::temp_dir(rt).ok()?;
    let parent = parent.to_str().unwrap_or(".");
    let path = format!(in rt.alloc(); "{parent}/mowerbean-{name}-{process}").ok()?;
    fs::create_dir(rt, path.as_str()).ok()?;
    Some(path)
}

/// The world as it is, with the journal of a folder, and a server. It is in a box, since a function
/// that lets go of a world itself is dear to prove.
pub fn real_world<'a>(
    rt: &'a HostRuntime,
    folder: Option<&'a str>,
    server: Option<&'a str>,
) -> Option<Box<RealWorld<'a, HostRuntime>>> {
    Box::new(rt.alloc(), RealWorld::new(rt, folder, server)).ok()
}

// Whether what is written to the right file is read there, and the left one stays empty.
fn reads_what_it_wrote(world: &mut RealWorld<'_, HostRuntime>) -> bool {
    let mut buffer = [1; 8];
    world.length(Side::Right) == Ok(0)
        && world.write_at(Side::Right, 2, &[7, 8, 9]).is_ok()
        && world.sync(Side::Right).is_ok()
        && world.read(Side::Right, 1, &mut buffer) == Ok(4)
        && buffer == [0, 7, 8, 9, 1, 1, 1, 1]
        && world.length(Side::Right) == Ok(5)
        && world.length(Side::Left) == Ok(0)
}

fn keeps_bytes_in<'a>(rt: &'a HostRuntime, path: &'a str) -> Option<bool> {
    let mut world = real_world(rt, Some(path), None)?;
    Some(reads_what_it_wrote(&mut world))
}

fn keeps_bytes(rt: &HostRuntime) -> Option<bool> {
    let path = empty_folder(rt, "bytes", process::id(rt.process()))?;
    let is_kept = keeps_bytes_in(rt, path.as_str())?;
    fs::remove_dir_all(rt, path.as_str()).ok()?;
    Some(is_kept)
}

#[test]
fn bytes_are_read_where_they_were_written(rt: HostRuntime) -> Result<(), Fail> {
    assert_eq!(rt; keeps_bytes(&rt), Some(true));
    Ok(())
}

fn fails_twice(world: &mut RealWorld<'_, HostRuntime>) -> bool {
    world.length(Side::Left) == Err(DiskFailed)
        && world.sync(Side::Left) == Err(DiskFailed)
        && world.disk_faults() == 2
        && world.link_faults() == 0
}

fn fails_without_its_folder(rt: &HostRuntime) -> Option<bool> {
    let mut world = real_world(rt, Some("/nonexistent/mowerbean"), None)?;
    Some(fails_twice(&mut world))
}

fn fails_once(world: &mut RealWorld<'_, HostRuntime>) -> bool {
    world.write_at(Side::Left, 0, &[1]) == Err(DiskFailed) && world.disk_faults() == 1
}

fn fails_without_a_path(rt: &HostRuntime) -> Option<bool> {
    let mut unnamed = real_world(rt, None, None)?;
    Some(fails_once(&mut unnamed))
}

#[test]
fn a_folder_that_is_not_there_is_a_counted_fault(rt: HostRuntime) -> Result<(), Fail> {
    assert_eq!(rt; fails_without_its_folder(&rt), Some(true));
    assert_eq!(rt; fails_without_a_path(&rt), Some(true));
    Ok(())
}

fn only_reads(world: &mut RealWorld<'_, HostRuntime>) -> bool {
    world.only_read();
    world.length(Side::Left) == Ok(0) && world.write_at(Side::Left, 0, &[1]) == Err(DiskFailed)
}

fn only_reads_in<'a>(rt: &'a HostRuntime, path: &'a str) -> Option<bool> {
    let mut world = real_world(rt, Some(path), None)?;
    Some(only_reads(&mut world))
}

fn makes_no_file(rt: &HostRuntime) -> Option<bool> {
    let path = empty_folder(rt, "reads", process::id(rt.process()))?;
    let reads = only_reads_in(rt, path.as_str())?;
    // A folder with a file in it can't be removed so.
    fs::remove_dir(rt, path.as_str()).ok()?;
    Some(reads)
}

#[test]
fn a_world_that_only_reads_makes_no_file(rt: HostRuntime) -> Result<(), Fail> {
    assert_eq!(rt; makes_no_file(&rt), Some(true));
    Ok(())
}

fn reads_three_bytes(world: &mut RealWorld<'_, HostRuntime>) -> bool {
    let mut buffer = [0; 4];
    world.read(Side::Left, 0, &mut buffer) == Ok(3) && &buffer == b"abc\0"
}

fn reads_three_bytes_in<'a>(rt: &'a HostRuntime, path: &'a str) -> Option<bool> {
    let mut world = real_world(rt, Some(path), None)?;
    Some(reads_three_bytes(&mut world))
}

// The number of the file at a path.
fn number_of(rt: &HostRuntime, path: &str) -> Option<u64> {
    Some(fs::metadata(rt, path).ok()?.ino())
}

// Whether the journal of a folder is copied, where the mark of a failed sync lies beside it.
fn copies(rt: &HostRuntime, path: &str) -> Option<bool> {
    let left = format!(in rt.alloc(); "{path}/journal.0").ok()?;
    let mark = format!(in rt.alloc(); "{path}/journal.failed").ok()?;
    fs::write(rt, left.as_str(), b"abc").ok()?;
    fs::write(rt, mark.as_str(), b"").ok()?;
    let before = number_of(rt, left.as_str())?;
    let is_read = reads_three_bytes_in(rt, path)?;
    let is_copy = number_of(rt, left.as_str())? != before;
    let is_marked = fs::exists(rt, mark.as_str()).ok()?;
    Some(is_read && is_copy && !is_marked)
}

fn copies_what_is_marked(rt: &HostRuntime) -> Option<bool> {
    let path = empty_folder(rt, "copied", process::id(rt.process()))?;
    let is_copied = copies(rt, path.as_str())?;
    fs::remove_dir_all(rt, path.as_str()).ok()?;
    Some(is_copied)
}

#[test]
fn a_marked_journal_is_copied(rt: HostRuntime) -> Result<(), Fail> {
    assert_eq!(rt; copies_what_is_marked(&rt), Some(true));
    Ok(())
}
