//! The same calls as plain slow programs, byte by byte, to compare with (RFC 5322, sections 2.2 and
//! 3.6.4).

use mail_header::{IdFault, MAX_ID};
use std::alloc::{AllocError, Global};

// A place in a text, and a line or a field that stands there, or the field's body.
type Placed<'t> = (usize, &'t [u8]);

fn is_blank(byte: u8) -> bool {
    byte == b' ' || byte == b'\t'
}

// The lines of a text, between which CR LF stands.
fn lines(alloc: Global, text: &[u8]) -> Result<Vec<Placed<'_>>, AllocError> {
    let mut lines = Vec::new(alloc);
    let mut from = 0usize;
    for at in 0..text.len() {
        if between(text, at, text.len()).starts_with(b"\r\n") {
            lines.push((from, between(text, from, at)))?;
            from = at.saturating_add(2);
        }
    }
    lines.push((from, between(text, from, text.len())))?;
    Ok(lines)
}

// What stands from one place up to another.
fn between(text: &[u8], from: usize, to: usize) -> &[u8] {
    text.get(from..to).unwrap_or(b"")
}

// The fields of a header with their places: each line, and those behind it that begin with a blank.
fn fields(alloc: Global, text: &[u8]) -> Result<Vec<Placed<'_>>, AllocError> {
    let lines = lines(alloc, text)?;
    let mut fields = Vec::new(alloc);
    let mut begun = 0usize;
    for placed in &lines {
        let (at, line) = *placed;
        let Some(first) = line.first() else {
            break;
        };
        if !is_blank(*first) || fields.is_empty() {
            begun = at;
        } else {
            let _ = fields.pop();
        }
        fields.push((begun, between(text, begun, at.saturating_add(line.len()))))?;
    }
    Ok(fields)
}

// The bodies of the fields named Message-ID, with the places of these.
fn bodies(alloc: Global, text: &[u8]) -> Result<Vec<Placed<'_>>, AllocError> {
    let fields = fields(alloc, text)?;
    let mut bodies = Vec::new(alloc);
    for placed in &fields {
        let (at, field) = *placed;
        if let Some(body) = id_body(field) {
            bodies.push((at, body))?;
        }
    }
    Ok(bodies)
}

// What stands behind the first colon, where the name in front of it is Message-ID.
fn id_body(line: &[u8]) -> Option<&[u8]> {
    let colon = line.iter().position(|byte| *byte == b':')?;
    let (name, body) = line.split_at_checked(colon)?;
    if name.eq_ignore_ascii_case(b"Message-ID") {
        body.get(1..)
    } else {
        None
    }
}

/// A field's body without its folds: CR LF goes where a blank stands behind it (RFC 5322, section
/// 2.2.3).
///
/// # Errors
/// `AllocError` for want of memory.
pub fn unfold(alloc: Global, body: &[u8]) -> Result<Vec<u8>, AllocError> {
    let mut text = Vec::new(alloc);
    for byte in body {
        if is_blank(*byte) && text.as_slice().ends_with(b"\r\n") {
            let _ = text.pop();
            let _ = text.pop();
        }
        text.push(*byte)?;
    }
    Ok(text)
}

/// A text in which each bare LF is a CR LF.
///
/// # Errors
/// `AllocError` for want of memory.
pub fn crlf_of(alloc: Global, input: &[u8]) -> Result<Vec<u8>, AllocError> {
    let mut text = Vec::new(alloc);
    for byte in input {
        if *byte == b'\n' && text.last() != Some(&b'\r') {
            text.push(b'\r')?;
        }
        text.push(*byte)?;
    }
    Ok(text)
}

fn trimmed(alloc: Global, bytes: &[u8]) -> Result<Vec<u8>, AllocError> {
    let mut text = Vec::new(alloc);
    let mut blanks = Vec::new(alloc);
    for byte in bytes {
        if is_blank(*byte) {
            blanks.push(*byte)?;
        } else {
            if !text.is_empty() {
                text.extend_from_slice(&blanks)?;
            }
            blanks.clear();
            text.push(*byte)?;
        }
    }
    Ok(text)
}

// Where bytes stop being an identifier.
fn unfit(id: &[u8]) -> Option<usize> {
    let mut closed = false;
    for (at, byte) in id.iter().enumerate() {
        let inside = matches!(*byte, 33..=126) && *byte != b'<' && *byte != b'>';
        let fits = match at {
            0 => *byte == b'<',
            1 => inside,
            _ => !closed && (inside || *byte == b'>'),
        };
        if !fits {
            return Some(at);
        }
        closed = at > 0 && *byte == b'>';
    }
    if closed { None } else { Some(id.len()) }
}

/// The identifier of a message's header, or why it has none (RFC 5322, section 3.6.4).
///
/// # Errors `AllocError` for want of memory. The inner fault is the header's: no field, two fields,
/// or a body that is no identifier.
pub fn message_id(alloc: Global, text: &[u8]) -> Result<Result<Vec<u8>, IdFault>, AllocError> {
    let found = bodies(alloc, text)?;
    if let Some((second, _)) = found.get(1) {
        return Ok(Err(IdFault::Twice { second: *second }));
    }
    let Some((_, body)) = found.first() else {
        return Ok(Err(IdFault::Missing));
    };
    let id = trimmed(alloc, &unfold(alloc, body)?)?;
    if id.len() > MAX_ID {
        return Ok(Err(IdFault::TooLong { length: id.len() }));
    }
    if let Some(at) = unfit(&id) {
        return Ok(Err(IdFault::BadForm { at }));
    }
    Ok(Ok(id))
}
