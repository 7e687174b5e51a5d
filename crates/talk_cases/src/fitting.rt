//! An answer beside what is due of a call at a server that isn't known: `..` stands for any word,
//! and at the end for any number of words.

use cases::{Answer, Word, WordFault, words_of};
use std::alloc::Global;

// Whether a word stands for any.
fn is_any(word: &Word) -> bool {
    word.is(b"..")
}

// Whether each word fits the one at its place.
fn each_fits(wanted: &[Word], told: &[Word]) -> bool {
    for (wanted, told) in wanted.iter().zip(told) {
        if !is_any(wanted) && wanted.bytes.as_slice() != told.bytes.as_slice() {
            return false;
        }
    }
    true
}

// Whether words that were told are those that are wanted.
fn words_fit(wanted: &[Word], told: &[Word]) -> bool {
    let are_enough = match wanted.split_last() {
        Some((last, front)) if is_any(last) => told.len() >= front.len(),
        _ => told.len() == wanted.len(),
    };
    are_enough && each_fits(wanted, told)
}

/// Whether an answer is what is due.
pub fn fits(alloc: Global, wanted: &str, told: &Answer) -> Result<bool, WordFault> {
    let wanted = words_of(alloc, wanted.as_bytes())?;
    let told = words_of(alloc, told.as_bytes())?;
    Ok(words_fit(&wanted, &told))
}
