//! The shelf of texts as it is, in a folder of the test's own.

use crate::real_files::empty_folder;
use body_cache::{DirShelf, GetFault, Key, Shelf, ShelfFailed};
use mail_base::{BoxName, Validity};
use std::os::unix::fs::MetadataExt;
use std::test::Fail;
use std::{fs, process};
use uid_sets::Uid;

// The key of a message.
fn key_of(name: &str, validity: u32, uid: u32) -> Option<Key> {
    Some(Key {
        name: BoxName::new(name.as_bytes()).ok()?,
        validity: Validity::new(validity)?,
        uid: Uid::new(uid)?,
    })
}

// Whether this is kept under a key.
fn keeps<S: Shelf>(shelf: &mut S, key: &Key, text: &[u8]) -> bool {
    match shelf.get(key) {
        Ok(Some(kept)) => kept.as_slice() == text,
        _ => false,
    }
}

// Whether each text is kept under its own key, and the last one of a key counts.
fn keeps_texts<S: Shelf>(shelf: &mut S, one: &Key, other: &Key) -> bool {
    shelf.get(one) == Ok(None)
        && shelf.put(one, b"first\r\n").is_ok()
        && shelf.put(other, b"").is_ok()
        && shelf.put(one, &[0, 10, 255]).is_ok()
        && keeps(shelf, one, &[0, 10, 255])
        && keeps(shelf, other, b"")
}

// Whether a file has these rights.
fn has_mode(rt: &HostRuntime, folder: &str, name: &str, mode: u32) -> Option<bool> {
    let path = format!(in rt.alloc(); "{folder}/{name}").ok()?;
    let found = fs::metadata(rt, path.as_str()).ok()?;
    Some(found.mode() & 0o777 == mode)
}

fn keeps_in<'a>(rt: &'a HostRuntime, folder: &'a str) -> Option<bool> {
    let mut shelf = DirShelf::new(rt, Some(folder));
    let one = key_of("Work/2026", 7, 42)?;
    let other = key_of("Work/2026.new", 7, 42)?;
    let kept = keeps_texts(&mut shelf, &one, &other);
    let private = has_mode(rt, folder, "7.42.Work%2026", 0o600)?;
    Some(kept && private)
}

fn keeps_each(rt: &HostRuntime) -> Option<bool> {
    let path = empty_folder(rt, "shelf", process::id(rt.process()))?;
    let kept = keeps_in(rt, path.as_str())?;
    fs::remove_dir_all(rt, path.as_str()).ok()?;
    Some(kept)
}

#[test]
fn a_folder_keeps_each_text_under_its_key(rt: HostRuntime) -> Result<(), Fail> {
    assert_eq!(rt; keeps_each(&rt), Some(true));
    Ok(())
}

fn fails(rt: &HostRuntime, folder: Option<&str>) -> Option<bool> {
    let mut shelf = DirShelf::new(rt, folder);
    let key = key_of("INBOX", 7, 42)?;
    Some(shelf.put(&key, b"text") == Err(ShelfFailed) && shelf.get(&key) == Err(GetFault::Failed))
}

#[test]
fn without_a_folder_each_call_fails(rt: HostRuntime) -> Result<(), Fail> {
    assert_eq!(rt; fails(&rt, None), Some(true));
    Ok(())
}
