//! Words with spaces before each (RFC 9051, section 9, capability-data).

ghost use Rattle.std.specs.Prelude.{◌≡◌, IfOk};
ghost use Rattle.imap_response.specs.Reads.{Gives};
ghost use Rattle.imap_response.specs.WordLists.{header_start, plain_word_at, next_word_at, words_at};

use crate::fault::Misfit;
use crate::leaf::{blank, gap, word};
use mail_base::{Bytes, Words, literal_at_end};
use std::alloc::{AllocError, Global};

// Where the header begins with which the text ends, if it ends with one.
pub(crate) fn header_start(text: &[u8]) -> Option<usize>
    ensures { result ≡ header_start 0 text.now }
{
    match literal_at_end(text) {
        Some(header) => Some(header.at),
        None => None,
    }
}

// A word of a byte or more that doesn't end with a header, and what stands behind it.
#[tactic(auto, unfolding(crate::specs::WordLists::plain_word_at))]
fn plain_word(text: &[u8]) -> Result<(&[u8], &[u8]), Misfit>
    ensures { Gives (λ read. (read.0.now, read.1.now)) result (plain_word_at text.now) }
{
    let (run, rest) = word(text);
    if run.is_empty() {
        return Err(Misfit::At { left: text.len() });
    }
    if let Some(at) = header_start(run) {
        return Err(Misfit::At {
            left: text.len().saturating_sub(at),
        });
    }
    Ok((run, rest))
}

// Spaces and such a word.
#[tactic(auto, unfolding(crate::specs::WordLists::next_word_at))]
fn next_word(text: &[u8]) -> Result<(&[u8], &[u8]), Misfit>
    ensures { Gives (λ read. (read.0.now, read.1.now)) result (next_word_at text.now) }
{
    plain_word(gap(text)?)
}

// Words, and what stands behind them.
pub(crate) fn words(alloc: Global, text: &[u8]) -> Result<(Words, &[u8]), Misfit>
    ensures { Gives (λ read. (read.0, read.1.now)) result (words_at text.now) }
{
    let mut words = Words::new(alloc);
    let mut rest = text;
    // Each word has a byte at least.
    for _ in 0..text.len() {
        if blank(rest).is_empty() {
            return Ok((words, rest));
        }
        let (run, later) = next_word(rest)?;
        words.push(bytes_of(alloc, run)?)?;
        rest = later;
    }
    Ok((words, rest))
}

// These bytes, as bytes of their own.
pub(crate) fn bytes_of(alloc: Global, text: &[u8]) -> Result<Bytes, AllocError>
    ensures { IfOk result (λ bytes. bytes ≡ text.now) }
{
    let mut bytes = Bytes::new(alloc);
    bytes.extend(text)?;
    Ok(bytes)
}
