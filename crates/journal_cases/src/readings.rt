//! What files hold, read in every way, and beside the plain slow program. Each disk ends where it
//! is read.

use crate::bodies::{few_by_few, first_piece, no_journal, one_by_one, text_of, told, version_name};
use crate::bytes::Names;
use crate::files::Files;
use crate::plain_journal::plain_bodies;
use crate::stores::book_text;
use crate::turns::bodies;
use cases::{Fault, read_line, same_bytes};
use std::alloc::Global;

// What they hold, read one by one.
fn singly(alloc: Global, files: &Files) -> Result<Vec<u8>, Fault> {
    let mut disk = files.disk(alloc)?;
    told(alloc, one_by_one(alloc, &mut disk))
}

// What they hold, read by pieces.
fn by_pieces(alloc: Global, files: &Files) -> Result<Vec<u8>, Fault> {
    let mut disk = files.disk(alloc)?;
    told(alloc, few_by_few(alloc, &mut disk))
}

/// What the files hold as the plain slow program reads them, which is what a journal reads, in each
/// way.
pub fn held(alloc: Global, files: &Files) -> Result<Vec<u8>, Fault> {
    let wanted = plain_bodies(alloc, &files.left, &files.right)?;
    same_bytes(alloc, &wanted, &singly(alloc, files)?)?;
    same_bytes(alloc, &wanted, &by_pieces(alloc, files)?)?;
    Ok(wanted)
}

/// What a line says that files hold: `bodies "abc" ; times 3 "defg"`, or why they are no journal,
/// as `journal absent`.
pub fn holding(names: &Names, word: &str, text: &str) -> Result<Vec<u8>, Fault> {
    match word {
        "bodies" => bodies_text(names, text),
        "journal" => no_journal(names.alloc, text),
        _ => Err(Fault::Form),
    }
}

fn bodies_text(names: &Names, text: &str) -> Result<Vec<u8>, Fault> {
    let bodies = read_line(names.alloc, text, |input| bodies(names, input))?;
    Ok(text_of(names.alloc, &bodies)?)
}

/// How many bodies the first piece has.
pub fn piece(alloc: Global, files: &Files) -> Result<u64, Fault> {
    let mut disk = files.disk(alloc)?;
    first_piece(alloc, &mut disk)
}

/// The version of the journal.
pub fn version(alloc: Global, files: &Files) -> Result<&'static str, Fault> {
    let mut disk = files.disk(alloc)?;
    version_name(&mut disk)
}

/// What a store's book has that is opened on the files.
pub fn book(alloc: Global, files: &Files) -> Result<String, Fault> {
    let mut disk = files.disk(alloc)?;
    book_text(alloc, &mut disk)
}
