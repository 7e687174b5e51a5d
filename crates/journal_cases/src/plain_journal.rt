//! A plain slow program that reads two files by the definition of a journal. It shares nothing with
//! the code.

use crate::bodies::{no_bodies, no_journal, put_body};
use cases::Fault;
use std::alloc::Global;

// Behind the head gate, in the first version and in the second.
const FIRST: &[u8] = b"ODMAILJ1";

const SECOND: &[u8] = b"ODMAILJ2";

// The number in four bytes, high byte first.
fn big(bytes: &[u8], at: usize) -> usize {
    let mut number: usize = 0;
    for place in at..at.saturating_add(4) {
        let byte = bytes.get(place).copied().unwrap_or(0) as usize;
        number = number.saturating_mul(256).saturating_add(byte);
    }
    number
}

// Whether a file has the room of a header, and its gate is open.
fn is_begun(file: &[u8]) -> bool {
    file.len() >= 14 && file.first() == Some(&1)
}

fn has_word(file: &[u8]) -> bool {
    file.get(1..9) == Some(FIRST) || file.get(1..9) == Some(SECOND)
}

fn has_wrong_header(file: &[u8]) -> bool {
    is_begun(file) && (!has_word(file) || big(file, 9) == 0)
}

// Why the files are no journal, if they aren't.
fn why(left: &[u8], right: &[u8]) -> Option<&'static str> {
    if has_wrong_header(left) || has_wrong_header(right) {
        return Some("header");
    }
    match (is_begun(left), is_begun(right)) {
        (false, false) => Some("absent"),
        (true, true) if big(left, 9) == big(right, 9) => Some("generations"),
        _ => None,
    }
}

/// The bodies of a journal as a text, or why there is none.
pub fn plain_bodies(alloc: Global, left: &[u8], right: &[u8]) -> Result<Vec<u8>, Fault> {
    if let Some(why) = why(left, right) {
        return no_journal(alloc, why);
    }
    if is_begun(left) && (!is_begun(right) || big(left, 9) > big(right, 9)) {
        bodies_of(alloc, left)
    } else {
        bodies_of(alloc, right)
    }
}

// The place of the next gate behind the record at a place, if that stands whole.
fn next_gate(file: &[u8], at: usize) -> Option<usize> {
    let size = big(file, at.saturating_add(1));
    let next = at.saturating_add(size).saturating_add(5);
    if size == 0 || size > 1_073_741_824 || next >= file.len() {
        return None;
    }
    Some(next)
}

// Adds the body of the record between two gates.
fn put_between(told: &mut Vec<u8>, file: &[u8], at: usize, next: usize) -> Result<(), Fault> {
    match file.get(at.saturating_add(5)..next) {
        Some(body) => Ok(put_body(told, body)?),
        None => Err(Fault::Form),
    }
}

// The bodies of one file.
fn bodies_of(alloc: Global, file: &[u8]) -> Result<Vec<u8>, Fault> {
    let mut at: usize = 13;
    let mut told = no_bodies(alloc)?;
    for _ in 0..1_000u16 {
        if file.get(at) != Some(&1) {
            break;
        }
        let Some(next) = next_gate(file, at) else {
            let why = format!(in alloc; "record {at}")?;
            return no_journal(alloc, why.as_str());
        };
        put_between(&mut told, file, at, next)?;
        at = next;
    }
    Ok(told)
}
