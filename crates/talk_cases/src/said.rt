//! What a line says that is the client's or the server's.

use cases::{Fault, Input, Line, WordFault, read_line};
use std::alloc::Global;

/// Who says a line.
#[derive(Clone, Copy)]
pub enum Who {
    /// `C: LINE`, or `C TEXT`.
    Client,
    /// `S: LINE`, or `S TEXT`.
    Server,
}

/// Who says a line, if anybody does.
pub fn whose(text: &str) -> Option<Who> {
    let (who, rest) = match text.strip_prefix('C') {
        Some(rest) => (Who::Client, rest),
        None => (Who::Server, text.strip_prefix('S')?),
    };
    if rest.starts_with(':') || rest.starts_with(' ') {
        Some(who)
    } else {
        None
    }
}

// A line with its CRLF.
fn whole_line(alloc: Global, text: &str) -> Result<Vec<u8>, WordFault> {
    let mut bytes = text.as_bytes().to_vec(alloc)?;
    bytes.extend_from_slice(b"\r\n")?;
    Ok(bytes)
}

// A keyword, and the bytes of the text behind it.
fn second_text(input: &mut Input) -> Result<Vec<u8>, WordFault> {
    input.word()?;
    Ok(input.text()?.to_vec(input.alloc)?)
}

/// The bytes of a text that stands behind a keyword.
pub fn text_behind(alloc: Global, text: &str) -> Result<Vec<u8>, WordFault> {
    read_line(alloc, text, second_text)
}

/// The bytes that are said: the line behind `C:` or `S:` and its CRLF, or the text behind `C` or
/// `S`.
pub fn said(alloc: Global, text: &str) -> Result<Vec<u8>, WordFault> {
    let line = match text.strip_prefix("C:") {
        Some(line) => Some(line),
        None => text.strip_prefix("S:"),
    };
    match line {
        Some(line) => whole_line(alloc, line.strip_prefix(' ').unwrap_or(line)),
        None => text_behind(alloc, text),
    }
}

/// All that the client says in a talk.
pub fn said_by_client(alloc: Global, lines: &[Line]) -> Result<Vec<u8>, Fault> {
    let mut bytes = Vec::new(alloc);
    for line in lines {
        let text = line.text.as_str();
        if let Some(Who::Client) = whose(text) {
            bytes.extend_from_slice(&said(alloc, text)?)?;
        }
    }
    Ok(bytes)
}
