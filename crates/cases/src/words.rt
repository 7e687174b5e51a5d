//! The words of a line (docs/CASES.md, "Words").
//!
//! Words are parted by single spaces. A bare word has bytes from 33 to 126 alone, and no quote. A
//! word that begins with a quote is one text or more: each ends at the next quote that no backslash
//! stands before, and may be repeated (`"ab"*3`) and joined with the next (`"c"+"d"`). Between
//! quotes stand bytes from 32 to 126, and `\"`, `\\`, `\r`, `\n` and `\xHH` for what they stand
//! for.

ghost use Rattle.std.specs.Char.{is_ascii_digit};
ghost use Rattle.std.specs.List.{position, position_or_len};
ghost use Rattle.std.specs.Option.{option_copied};
ghost use Rattle.std.specs.Prelude.{◌≡◌, ◌<◌, ◌≤◌, ◌++◌, ◌∷◌, ◌^◌, ℕ, List, [], Option, Some, None};
ghost use Rattle.std.specs.Prelude.{All, length, not, replicate, decimal, IfSome, IfNone, IfOk, OnOk};
ghost use Rattle.cases.specs.Reading.{IsBare, IsWord, Reads, ReadsText, as_it_stands, begins_quoted};
ghost use Rattle.cases.specs.Reading.{behind, ended, line_of, repeated, unescaped, unhexed, unquoted};
ghost use Rattle.cases.specs.Taking.{is_keyword};
ghost use Rattle.cases.specs.Written.{digit_value, is_bare, quoted};

use crate::fault::WordFault;
use crate::numbers::number_of;
use crate::writing::is_bare;
use mail_base::Bytes;
use std::alloc::{AllocError, Global};

/// A word of a line: what it stands for, and whether it stands without quotes, as a keyword does.
#[derive(Drop)]
pub struct Word {
    pub bytes: Bytes,
    pub is_bare: bool,
}

impl Word {
    /// Whether it is this keyword.
    pub fn is(&self, keyword: &[u8]) -> bool
        ensures { result ≡ is_keyword keyword.now self.now }
    {
        self.is_bare && self.bytes.as_slice() == keyword
    }
}

/// The words of a line that isn't empty.
///
/// # Errors
/// A line that isn't words, and want of memory.
pub fn words_of(alloc: Global, line: &[u8]) -> Result<Vec<Word>, WordFault>
    ensures again { (first : Word) (more : List Word) → All IsWord (first ∷ more) →
        line.now ≡ line_of (first ∷ more) → Reads result (λ words. words.items ≡ first ∷ more) }
{
    let mut words = Vec::new(alloc);
    let mut left = Some(line);
    while let Some(text) = left {
        let mut bytes = Vec::new(alloc);
        left = take_word(alloc, text, &mut bytes)?;
        words.push(Word {
            bytes: Bytes::of(bytes),
            is_bare: !is_quoted(text),
        })?;
    }
    Ok(words)
}

// Whether the first word stands in quotes.
fn is_quoted(text: &[u8]) -> bool
    ensures { result ≡ begins_quoted text.now }
{
    match text.first() {
        Some(first) => *first == b'"',
        None => false,
    }
}

// Adds the first word's bytes, and gives what stands behind the space that ends it, if one does.
fn take_word<'a>(
    alloc: Global,
    text: &'a [u8],
    word: &mut Vec<u8>,
) -> Result<Option<&'a [u8]>, WordFault>
    ensures again { (whole : Word) (left : Option (List ℕ)) → IsWord whole → text.now ≡ as_it_stands whole ++ ended left →
        Reads result (λ got. (option_copied got ≡ left) × (word.new.items ≡ word.old.items ++ whole.bytes)) }
    ensures shorter { IfOk result (λ left. IfSome left (λ rest. length rest.now < length text.now)) }
{
    if is_quoted(text) {
        let rest = take_texts(alloc, text, word)?;
        left_behind(rest)
    } else {
        take_bare(text, word)
    }
}

// What is left behind the end of a word.
fn left_behind(rest: &[u8]) -> Result<Option<&[u8]>, WordFault>
    ensures again { (left : Option (List ℕ)) → rest.now ≡ ended left →
        Reads result (λ got. option_copied got ≡ left) }
    ensures shorter { IfOk result (λ left. IfSome left (λ more. length more.now < length rest.now)) }
{
    let Some((first, left)) = rest.split_first() else {
        return Ok(None);
    };
    if *first == b' ' {
        Ok(Some(left))
    } else {
        Err(WordFault::Form)
    }
}

// A bare word.
fn take_bare<'a>(text: &'a [u8], word: &mut Vec<u8>) -> Result<Option<&'a [u8]>, WordFault>
    ensures again { (whole : List ℕ) (left : Option (List ℕ)) → IsBare whole → text.now ≡ whole ++ ended left →
        Reads result (λ got. (option_copied got ≡ left) × (word.new.items ≡ word.old.items ++ whole)) }
    ensures shorter { IfOk result (λ left. IfSome left (λ rest. length rest.now < length text.now)) }
{
    let (bare, rest) = text.split_at(bare_end(text));
    if bare.is_empty() {
        return Err(WordFault::Form);
    }
    word.extend_from_slice(bare)?;
    left_behind(rest)
}

// How many bytes of a bare word stand at the front.
fn bare_end(text: &[u8]) -> usize
    ensures value { result ≡ position_or_len (λ byte. not (is_bare byte)) text.now }
    ensures within { result ≤ length text.now }
{
    first_other(text).unwrap_or(text.len())
}

fn first_other(text: &[u8]) -> Option<usize>
    ensures { result ≡ position (λ byte. not (is_bare byte)) text.now }
{
    text.iter().position(|byte| !is_bare(*byte))
}

// The texts of a word in quotes, with `+` between, and what stands behind them.
fn take_texts<'a>(alloc: Global, text: &'a [u8], word: &mut Vec<u8>) -> Result<&'a [u8], WordFault>
    ensures again { ReadsText result (λ rest. rest.now) text.now word.old.items word.new.items }
    ensures shorter { IfOk result (λ rest. length rest.now < length text.now) }
{
    let mut rest = take_counted(alloc, text, word)?;
    while let Some(more) = behind_mark(rest, b'+') {
        rest = take_counted(alloc, more, word)?;
    }
    Ok(rest)
}

// What stands behind a mark, where it stands in front.
fn behind_mark(text: &[u8], mark: u8) -> Option<&[u8]>
    ensures value { option_copied result ≡ behind mark text.now }
    ensures shorter { IfSome result (λ rest. length rest.now < length text.now) }
{
    let (first, rest) = text.split_first()?;
    if *first == mark { Some(rest) } else { None }
}

// A text in quotes, as often as the count behind it says.
fn take_counted<'a>(
    alloc: Global,
    text: &'a [u8],
    word: &mut Vec<u8>,
) -> Result<&'a [u8], WordFault>
    ensures again { ReadsText result (λ rest. rest.now) text.now word.old.items word.new.items }
    ensures shorter { IfOk result (λ rest. length rest.now < length text.now) }
{
    let mut once = Vec::new(alloc);
    let rest = take_quoted(text, &mut once)?;
    if let Some(counted) = behind_mark(rest, b'*') {
        return take_count(counted, &once, word);
    }
    word.extend_from_slice(&once)?;
    Ok(rest)
}

// Adds a text as often as the digits in front say, and gives what stands behind them.
fn take_count<'a>(counted: &'a [u8], once: &[u8], word: &mut Vec<u8>) -> Result<&'a [u8], WordFault>
    ensures again { (count : ℕ) (left : Option (List ℕ)) → count < 2 ^ 63 → counted.now ≡ decimal count ++ ended left →
        Reads result (λ rest. (rest.now ≡ ended left) × (word.new.items ≡ word.old.items ++ repeated count once.now)) }
    ensures shorter { IfOk result (λ rest. length rest.now ≤ length counted.now) }
{
    let (digits, rest) = counted.split_at(digits_end(counted));
    let Some(count) = number_of(digits) else {
        return Err(WordFault::Form);
    };
    put_repeated(word, once, count)?;
    Ok(rest)
}

// How many digits stand at the front.
fn digits_end(text: &[u8]) -> usize
    ensures value { result ≡ position_or_len (λ byte. not (is_ascii_digit byte)) text.now }
    ensures within { result ≤ length text.now }
{
    first_no_digit(text).unwrap_or(text.len())
}

fn first_no_digit(text: &[u8]) -> Option<usize>
    ensures { result ≡ position (λ byte. not (is_ascii_digit byte)) text.now }
{
    text.iter().position(|byte| !byte.is_ascii_digit())
}

// Adds a text so many times.
fn put_repeated(word: &mut Vec<u8>, once: &[u8], count: u64) -> Result<(), AllocError>
    ensures { count < 2 ^ 63 → OnOk result (word.new.items ≡ word.old.items ++ repeated count once.now) }
{
    if let [byte] = once {
        return put_run(word, *byte, count);
    }
    for _ in 0..count {
        word.extend_from_slice(once)?;
    }
    Ok(())
}

// Adds a byte so many times.
fn put_run(word: &mut Vec<u8>, byte: u8, count: u64) -> Result<(), AllocError>
    ensures { count < 2 ^ 63 → OnOk result (word.new.items ≡ word.old.items ++ replicate count byte) }
{
    let size = word.len().saturating_add(count as usize);
    word.resize(size, byte)
}

// A text in quotes, and what stands behind the second of them.
fn take_quoted<'a>(text: &'a [u8], word: &mut Vec<u8>) -> Result<&'a [u8], WordFault>
    ensures again { (whole tail : List ℕ) → All (λ byte. byte < 256) whole → text.now ≡ quoted whole ++ tail →
        Reads result (λ rest. (rest.now ≡ tail) × (word.new.items ≡ word.old.items ++ whole)) }
    ensures shorter { IfOk result (λ rest. length rest.now < length text.now) }
{
    let Some(inner) = behind_mark(text, b'"') else {
        return Err(WordFault::Form);
    };
    let mut rest = inner;
    while let Some((byte, behind)) = first_byte(rest) {
        word.push(byte)?;
        rest = behind;
    }
    match behind_mark(rest, b'"') {
        Some(end) => Ok(end),
        None => Err(WordFault::Form),
    }
}

// The byte at the front of what stands between quotes, and what stands behind it.
fn first_byte(text: &[u8]) -> Option<(u8, &[u8])>
    ensures value { IfSome result (λ both. Some (both.0, both.1.now) ≡ unquoted text.now) }
    ensures none { IfNone result (unquoted text.now ≡ None) }
    ensures shorter { IfSome result (λ both. length both.1.now < length text.now) }
{
    let (first, rest) = text.split_first()?;
    match *first {
        b'"' => None,
        b'\\' => escaped_byte(rest),
        32..=126 => Some((*first, rest)),
        _ => None,
    }
}

// The byte that stands behind a backslash, and what stands behind that.
fn escaped_byte(text: &[u8]) -> Option<(u8, &[u8])>
    ensures value { IfSome result (λ both. Some (both.0, both.1.now) ≡ unescaped text.now) }
    ensures none { IfNone result (unescaped text.now ≡ None) }
    ensures shorter { IfSome result (λ both. length both.1.now < length text.now) }
{
    let (letter, rest) = text.split_first()?;
    match *letter {
        b'"' | b'\\' => Some((*letter, rest)),
        b'r' => Some((b'\r', rest)),
        b'n' => Some((b'\n', rest)),
        b'x' => byte_of_digits(rest),
        _ => None,
    }
}

// The byte of two hexadecimal digits in lower case, and what stands behind them.
fn byte_of_digits(text: &[u8]) -> Option<(u8, &[u8])>
    ensures value { IfSome result (λ both. Some (both.0, both.1.now) ≡ unhexed text.now) }
    ensures none { IfNone result (unhexed text.now ≡ None) }
    ensures shorter { IfSome result (λ both. length both.1.now < length text.now) }
{
    let (high, rest) = text.split_first()?;
    let (low, rest) = rest.split_first()?;
    Some((hex_digit(*high)? * 16 + hex_digit(*low)?, rest))
}

// The value of a hexadecimal digit in lower case.
fn hex_digit(digit: u8) -> Option<u8>
    ensures value { result ≡ digit_value digit }
    ensures half { IfSome result (λ value. value < 16) }
{
    match digit {
        b'0'..=b'9' => Some(digit - b'0'),
        b'a'..=b'f' => Some(digit - b'a' + 10),
        _ => None,
    }
}
