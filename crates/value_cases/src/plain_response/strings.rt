//! Strings, atoms and values that are passed over (RFC 9051, section 9, string, astring and
//! nstring).

use super::parts::{
    Class, Part, Parts, Spelled, are_all, begins_with, between, byte_of, cut, from, is_numeral,
    same_word,
};
use cases::WordFault;
use mail_base::Bytes;
use std::alloc::Global;

/// Whether the parts are a quoted string.
pub(crate) fn is_quoted(parts: Parts<'_>) -> bool {
    let Some(inside) = between(parts, b'"', b'"') else {
        return false;
    };
    let mut escaped = false;
    for part in inside {
        let Some(byte) = byte_of(*part) else {
            return false;
        };
        let lawful = if escaped {
            byte == b'"' || byte == b'\\'
        } else {
            !matches!(byte, b'"' | 0 | b'\n' | b'\r')
        };
        if !lawful {
            return false;
        }
        escaped = byte == b'\\' && !escaped;
    }
    !escaped
}

/// How long the quoted string at the front is, if there is one.
pub(crate) fn quoted_size(parts: Parts<'_>) -> Option<usize> {
    for size in 2..=parts.len() {
        if is_quoted(cut(parts, size).0) {
            return Some(size);
        }
    }
    None
}

/// Whether the parts are a string.
pub(crate) fn is_string(parts: Parts<'_>) -> bool {
    matches!(parts, [Part::Literal(_)]) || is_quoted(parts)
}

/// Whether the parts are an astring that is this name in any case.
pub(crate) fn is_astring_named(parts: Parts<'_>, name: &[u8]) -> bool {
    if are_all(parts, Class::Astring) {
        return same_word(parts, name);
    }
    match (parts, between(parts, b'"', b'"')) {
        ([Part::Literal(octets)], _) => octets.eq_ignore_ascii_case(name),
        (_, Some(own)) => is_quoted(parts) && same_word(own, name),
        (_, None) => false,
    }
}

/// Whether the parts are an astring.
pub(crate) fn is_astring(parts: Parts<'_>) -> bool {
    is_string(parts) || !parts.is_empty() && are_all(parts, Class::Astring)
}

/// Whether the parts are an atom, a number or NIL, as servers write them.
pub(crate) fn is_wide(parts: Parts<'_>) -> bool {
    !parts.is_empty() && are_all(parts, Class::Wide)
}

/// Whether the parts are an atom: neither NIL nor digits alone.
pub(crate) fn is_atom(parts: Parts<'_>) -> bool {
    is_wide(parts) && !same_word(parts, b"NIL") && !is_numeral(parts)
}

/// How long the piece at the front of the parts is: a quoted string, or one part. None where no
/// piece begins there.
fn piece(parts: Parts<'_>) -> Option<usize> {
    match parts.first()? {
        Part::Literal(_) => Some(1),
        Part::Byte(b'"') => quoted_size(parts),
        Part::Byte(byte) if *byte >= 32 && *byte != b'{' && *byte != 127 => Some(1),
        Part::Byte(_) => None,
    }
}

/// Whether the parts are a list in parentheses, at whatever depth.
fn is_list(parts: Parts<'_>) -> bool {
    if !begins_with(parts, b'(') {
        return false;
    }
    let mut depth = 1usize;
    let mut at = 1usize;
    for _ in 0..parts.len() {
        let rest = from(parts, at);
        if depth == 0 || rest.is_empty() {
            return depth == 0 && rest.is_empty();
        }
        if begins_with(rest, b'(') {
            depth = depth.saturating_add(1);
        } else if begins_with(rest, b')') {
            depth = depth.saturating_sub(1);
        }
        match piece(rest) {
            Some(size) => at = at.saturating_add(size),
            None => return false,
        }
    }
    depth == 0 && at == parts.len()
}

/// Whether the parts are a value that is passed over.
pub(crate) fn is_value(parts: Parts<'_>) -> bool {
    is_wide(parts) || is_string(parts) || is_list(parts)
}

/// Whether the parts may stand between the brackets of an item's name: pieces without `]`.
pub(crate) fn is_section(parts: Parts<'_>) -> bool {
    let mut at = 0usize;
    for _ in 0..parts.len() {
        let rest = from(parts, at);
        if rest.is_empty() {
            return true;
        }
        match piece(rest) {
            Some(size) if !begins_with(rest, b']') => at = at.saturating_add(size),
            _ => return false,
        }
    }
    at == parts.len()
}

/// The bytes that a string stands for.
pub(crate) fn string_of(alloc: Global, parts: Parts<'_>) -> Spelled<Bytes> {
    let mut bytes = Bytes::new(alloc);
    if let [Part::Literal(octets)] = parts {
        bytes.extend(octets)?;
        return Ok(bytes);
    }
    if !is_quoted(parts) {
        return Err(WordFault::Form);
    }
    let mut escaped = false;
    for part in between(parts, b'"', b'"').unwrap_or(parts) {
        let byte = byte_of(*part).unwrap_or(b'"');
        escaped = byte == b'\\' && !escaped;
        if !escaped {
            bytes.extend(&[byte])?;
        }
    }
    Ok(bytes)
}
