//! The call that compares the reader of headers with the plain slow program: `texts PART ..` are
//! all texts of four of the parts. Of each the identifier, the body without folds and the text with
//! CRLF at its lines' ends are compared.

use crate::alike::Alike;
use crate::fours::{Fours, texts};
use crate::plain_header as plain;
use cases::{Answer, Input, WordFault};
use mail_header::{crlf_of, message_id, unfold};
use std::alloc::{AllocError, Global};

/// Compares all texts of four of the parts.
pub fn put_texts(input: &mut Input, answer: &mut Answer) -> Result<(), WordFault> {
    let parts = texts(input)?;
    compare_texts(input.alloc, &parts)?.put(answer)
}

fn compare_texts(alloc: Global, parts: &[&[u8]]) -> Result<Alike, AllocError> {
    let mut alike = Alike::new();
    let all = Fours {
        front: b"",
        pieces: parts,
        end: b"",
    };
    for number in 0..all.len() {
        let text = all.text(alloc, number)?;
        compare_text(alloc, &text, &mut alike)?;
    }
    Ok(alike)
}

fn compare_text(alloc: Global, text: &[u8], alike: &mut Alike) -> Result<(), AllocError> {
    alike.count(is_same_id(alloc, text)?);
    alike.count(is_same(unfold(alloc, text)?, plain::unfold(alloc, text)?));
    alike.count(is_same(crlf_of(alloc, text)?, plain::crlf_of(alloc, text)?));
    Ok(())
}

// Whether the identifier of a text, or its fault, is the plain program's.
fn is_same_id(alloc: Global, text: &[u8]) -> Result<bool, AllocError> {
    let expected = plain::message_id(alloc, text)?;
    Ok(message_id(alloc, text) == expected)
}

fn is_same(found: Vec<u8>, expected: Vec<u8>) -> bool {
    found.as_slice() == expected.as_slice()
}
