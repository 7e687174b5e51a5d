//! What the server of a session's case says.

use crate::said::{Who, said, text_behind, whose};
use cases::{Fault, Line, WordFault};
use mail_base::Bytes;
use std::alloc::Global;
use world_mem::{Files, Script, ScriptWorld};

// The piece that a line adds to the script, if it is one of the server.
fn piece_of(alloc: Global, text: &str) -> Result<Option<Script>, WordFault> {
    match whose(text) {
        Some(Who::Server) => Ok(Some(Script::Piece(said(alloc, text)?))),
        Some(Who::Client) => Ok(None),
        None if text.starts_with("endless ") => Ok(Some(Script::Endless(text_behind(
            alloc, text,
        )?))),
        None => Ok(None),
    }
}

// Leaves the piece's front, at most so many bytes of it.
fn cut(piece: &mut Script, left: usize) {
    if let Script::Piece(bytes) = piece {
        bytes.truncate(left);
    }
}

fn length(piece: &Script) -> usize {
    match piece {
        Script::Piece(bytes) | Script::Endless(bytes) => bytes.len(),
    }
}

/// How many bytes the server says.
pub fn script_length(alloc: Global, lines: &[Line]) -> Result<usize, Fault> {
    let mut whole = 0usize;
    for line in lines {
        if let Some(piece) = piece_of(alloc, line.text.as_str())? {
            whole = whole.saturating_add(length(&piece));
        }
    }
    Ok(whole)
}

// The first so many bytes of what the server says.
fn script_of(alloc: Global, lines: &[Line], most: usize) -> Result<Vec<Script>, WordFault> {
    let mut script = Vec::new(alloc);
    let mut left = most;
    for line in lines {
        if let Some(mut piece) = piece_of(alloc, line.text.as_str())? {
            cut(&mut piece, left);
            left = left.saturating_sub(length(&piece));
            script.push(piece)?;
        }
    }
    Ok(script)
}

/// A world of two empty files, to which the first so many bytes come of what the server says.
pub fn world_of(alloc: Global, lines: &[Line], most: usize) -> Result<ScriptWorld, Fault> {
    let script = script_of(alloc, lines, most)?;
    let files = Files {
        left: Bytes::new(alloc),
        right: Bytes::new(alloc),
    };
    Ok(ScriptWorld::new(alloc, files, script)?)
}
