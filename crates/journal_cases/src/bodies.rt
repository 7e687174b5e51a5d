//! What a journal holds, as a text: its bodies, read one by one or several at a time, or why it is
//! none.

use crate::undone::store_text;
use cases::{Fault, put_word};
use journal_core::{Bodies, Journal, OpenFault, Version};
use mail_base::Bytes;
use std::alloc::{AllocError, Global};
use store_core::StoreFault;
use world_traits::Disk;

// The most bodies that are read of a journal.
const MOST: u16 = 1_000;

/// A journal without bodies.
pub fn no_bodies(alloc: Global) -> Result<Vec<u8>, AllocError> {
    b"bodies".to_vec(alloc)
}

/// Adds a body.
pub fn put_body(told: &mut Vec<u8>, body: &[u8]) -> Result<(), AllocError> {
    told.push(b' ')?;
    put_word(told, body)
}

/// Bodies as a text.
pub fn text_of(alloc: Global, bodies: &[Bytes]) -> Result<Vec<u8>, AllocError> {
    let mut told = no_bodies(alloc)?;
    for body in bodies {
        put_body(&mut told, body.as_slice())?;
    }
    Ok(told)
}

// Adds the bodies that were read together.
fn put_few(told: &mut Vec<u8>, few: &Bodies) -> Result<(), AllocError> {
    for at in 0..few.len() {
        put_body(told, few.body(at))?;
    }
    Ok(())
}

/// The bodies, read one by one.
pub fn one_by_one<D: Disk>(alloc: Global, disk: &mut D) -> Result<Vec<u8>, OpenFault> {
    let mut journal = Journal::open(disk)?;
    let mut told = no_bodies(alloc)?;
    for _ in 0..MOST {
        let Some(body) = journal.next(alloc, disk)? else {
            return Ok(told);
        };
        put_body(&mut told, body.as_slice())?;
    }
    Ok(told)
}

/// The bodies, read by pieces as the journal takes them.
pub fn few_by_few<D: Disk>(alloc: Global, disk: &mut D) -> Result<Vec<u8>, OpenFault> {
    let mut journal = Journal::open(disk)?;
    let mut told = no_bodies(alloc)?;
    for _ in 0..MOST {
        let Some(few) = journal.next_few(alloc, disk)? else {
            return Ok(told);
        };
        put_few(&mut told, &few)?;
    }
    Ok(told)
}

// How many bodies the first piece has.
fn first_count<D: Disk>(alloc: Global, disk: &mut D) -> Result<u64, OpenFault> {
    let mut journal = Journal::open(disk)?;
    match journal.next_few(alloc, disk)? {
        Some(few) => Ok(few.len() as u64),
        None => Ok(0),
    }
}

/// How many bodies the first piece has.
pub fn first_piece<D: Disk>(alloc: Global, disk: &mut D) -> Result<u64, Fault> {
    first_count(alloc, disk).map_err(|_| Fault::Form)
}

/// The name of a journal's version.
pub fn version_name<D: Disk>(disk: &mut D) -> Result<&'static str, Fault> {
    match Journal::open(disk) {
        Ok(journal) => Ok(match journal.version() {
            Version::First => "first",
            Version::Second => "second",
        }),
        Err(_) => Err(Fault::Form),
    }
}

/// What was read, or why not.
pub fn told(alloc: Global, read: Result<Vec<u8>, OpenFault>) -> Result<Vec<u8>, Fault> {
    match read {
        Ok(text) => Ok(text),
        Err(fault) => no_journal(alloc, store_text(alloc, StoreFault::from(fault))?.as_str()),
    }
}

/// That there is no journal, and why.
pub fn no_journal(alloc: Global, why: &str) -> Result<Vec<u8>, Fault> {
    let mut told = b"journal ".to_vec(alloc)?;
    told.extend_from_slice(why.as_bytes())?;
    Ok(told)
}
