//! Calls of `mail_header`: the fields of a message's header, and its Message-ID.

use cases::{Answer, Input, WordFault};
use mail_header::{IdFault, crlf_of, fields, message_id, unfold};

/// A body without its folds.
pub fn put_unfolded(input: &mut Input, answer: &mut Answer) -> Result<(), WordFault> {
    let body = input.text()?;
    let text = unfold(input.alloc, body)?;
    answer.text(&text)
}

/// A text with CRLF at its lines' ends.
pub fn put_line_ends(input: &mut Input, answer: &mut Answer) -> Result<(), WordFault> {
    let text = input.text()?;
    let lines = crlf_of(input.alloc, text)?;
    answer.text(&lines)
}

/// The identifier of a message's header.
pub fn put_id(input: &mut Input, answer: &mut Answer) -> Result<(), WordFault> {
    match message_id(input.alloc, input.text()?) {
        Ok(id) => answer.text(&id),
        Err(IdFault::Missing) => answer.word("missing"),
        Err(IdFault::Twice { second }) => answer.at("twice, again at", second),
        Err(IdFault::TooLong { length }) => answer.at("too long", length),
        Err(IdFault::BadForm { at }) => answer.at("bad form at", at),
        Err(IdFault::Memory) => Err(WordFault::Memory),
    }
}

/// Each field's name and body, and whether there is none behind the last one.
pub fn put_fields(input: &mut Input, answer: &mut Answer) -> Result<(), WordFault> {
    let text = input.text()?;
    let mut left = fields(text);
    for _ in 0..=text.len() {
        let Some(field) = left.next() else {
            break;
        };
        answer.text(field.name)?;
        answer.text(field.body)?;
    }
    answer.word(if left.next().is_none() {
        "end"
    } else {
        "and more"
    })
}
