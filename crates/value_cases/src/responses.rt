//! Calls of `imap_response`: what a frame is read as.

use crate::numbers::spans;
use cases::{Answer, Input, WordFault, bytes, kind_of, put_response};
use imap_model::{Limit, Response};
use imap_response::{ResponseFault, read};
use mail_base::Frame;

/// What is told of a response: the word of its kind, or all of it.
#[derive(Clone, Copy)]
pub enum Telling {
    Kind,
    Whole,
}

/// The response that a frame is read as.
pub fn put_read(input: &mut Input, answer: &mut Answer, telling: Telling) -> Result<(), WordFault> {
    let frame = frame(input)?;
    match read(input.alloc, &frame) {
        Ok(response) => {
            let told = put_told(answer, &response, telling);
            drop(response);
            told
        }
        Err(fault) => put_fault(answer, fault),
    }
}

fn put_told(answer: &mut Answer, response: &Response, telling: Telling) -> Result<(), WordFault> {
    match telling {
        Telling::Kind => answer.word(kind_of(response)),
        Telling::Whole => put_response(answer, response),
    }
}

// The next text as a frame, with the spans of its literals behind it.
fn frame(input: &mut Input) -> Result<Frame, WordFault> {
    let bytes = bytes(input)?;
    let literals = spans(input)?;
    Ok(Frame {
        bytes,
        literals,
        at: 0,
    })
}

fn put_fault(answer: &mut Answer, fault: ResponseFault) -> Result<(), WordFault> {
    match fault {
        ResponseFault::BadForm { at } => answer.at("bad form at", at),
        ResponseFault::TooLarge { limit, number } => {
            answer.word(limit_of(limit))?;
            answer.number(number)
        }
        ResponseFault::Memory => Err(WordFault::Memory),
    }
}

fn limit_of(limit: Limit) -> &'static str {
    match limit {
        Limit::Flags => "too many flags",
        Limit::Flag => "flag too long",
        Limit::Literal
        | Limit::Line
        | Limit::Reply
        | Limit::Rows
        | Limit::Journal
        | Limit::Actions
        | Limit::Generation => "another limit",
    }
}
