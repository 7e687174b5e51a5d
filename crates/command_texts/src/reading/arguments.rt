//! Texts as arguments of commands (RFC 9051, section 9, astring).

ghost use Rattle.std.specs.Prelude.{◌≡◌, ◌<◌, ◌≤◌, ◌^◌, ◌++◌, ◌∷◌, [], ℕ, List, true, None, Some, IfOk, MatchOption, length, decimal};
ghost use Rattle.std.specs.List.{flat_map, list_all, position};
ghost use Rattle.imap_model.specs.Astring.{astring_parts, escaped};
ghost use Rattle.imap_model.specs.CommandParts.{◌⌢◌};
ghost use Rattle.imap_model.specs.Tagged.{is_astring_byte};
ghost use Rattle.command_texts.specs.Arguments.{EndsArgument, IsArgument, ends_argument};

use crate::reading::cuts::until;
use crate::reading::numbers::octets_of;
use mail_base::Bytes;
use std::alloc::{AllocError, Global};

/// An argument's text, and what stands behind it: what is left of its last part, and the parts behind that one.
#[derive(Drop)]
pub struct Argument<'a> {
    pub text: Vec<u8>,
    pub rest: &'a [u8],
    pub later: &'a [Bytes],
}

/// The argument at the front of a text, behind which these parts come.
pub fn argument_at<'a>(
    alloc: Global,
    text: &'a [u8],
    later: &'a [Bytes],
) -> Result<Option<Argument<'a>>, AllocError>
    ensures { (bytes rest : List ℕ) (behind : List (List ℕ)) → length bytes < 2 ^ 64 → EndsArgument rest
        → text.now ∷ later.now ≡ astring_parts bytes ⌢ (rest ∷ behind) → IfOk result (λ found. MatchOption found ⊥ (IsArgument bytes rest behind)) }
{
    let first = first_of(text);
    if first == b'{' {
        return literal(alloc, text, later);
    }
    if first == b'"' {
        return quoted(alloc, text, later);
    }
    bare(alloc, text, later)
}

// The first byte, or 0 where there is none.
fn first_of(text: &[u8]) -> u8
    ensures { (first : ℕ) (rest : List ℕ) → text.now ≡ first ∷ rest → result ≡ first }
{
    match text.split_first() {
        Some((first, _)) => *first,
        None => 0,
    }
}

/// A literal, of which the text is the header.
pub fn literal<'a>(
    alloc: Global,
    header: &[u8],
    later: &'a [Bytes],
) -> Result<Option<Argument<'a>>, AllocError>
    ensures { (bytes end rest : List ℕ) (behind : List (List ℕ)) → length bytes < 2 ^ 64 → header.now ≡ 123 ∷ (decimal (length bytes) ++ 125 ∷ end)
        → later.now ≡ (bytes ++ rest) ∷ behind → IfOk result (λ found. MatchOption found ⊥ (IsArgument bytes rest behind)) }
{
    let Some((part, later)) = later.split_first() else {
        return Ok(None);
    };
    let Some((octets, rest)) = octets_in(header, part) else {
        return Ok(None);
    };
    let text = octets.to_vec(alloc)?;
    Ok(Some(Argument { text, rest, later }))
}

// The octets of a literal, and what stands behind them in their part.
fn octets_in<'a>(header: &[u8], part: &'a Bytes) -> Option<(&'a [u8], &'a [u8])>
    ensures { (bytes end rest : List ℕ) → length bytes < 2 ^ 64 → header.now ≡ 123 ∷ (decimal (length bytes) ++ 125 ∷ end)
        → part.now ≡ bytes ++ rest → MatchOption result ⊥ (λ found. (found.0.now ≡ bytes) × (found.1.now ≡ rest)) }
{
    match announced(header) {
        Some(octets) => part.as_slice().split_at_checked(octets),
        None => None,
    }
}

/// The number of octets in the literal's header that the text begins with.
pub fn announced(header: &[u8]) -> Option<usize>
    ensures { (n : ℕ) (end : List ℕ) → n < 2 ^ 64 → header.now ≡ 123 ∷ (decimal n ++ 125 ∷ end) → result ≡ Some n }
{
    let (brace, digits) = header.split_first()?;
    if *brace != b'{' {
        return None;
    }
    let (digits, _) = until(digits, b'}');
    octets_of(digits)
}

// A quoted text.
fn quoted<'a>(
    alloc: Global,
    text: &'a [u8],
    later: &'a [Bytes],
) -> Result<Option<Argument<'a>>, AllocError>
    ensures { (bytes rest : List ℕ) → text.now ≡ 34 ∷ (flat_map escaped bytes ++ 34 ∷ rest)
        → IfOk result (λ found. MatchOption found ⊥ (IsArgument bytes rest later.now)) }
{
    let Some((_, inner)) = text.split_first() else {
        return Ok(None);
    };
    let (text, rest) = unquoted(alloc, inner)?;
    Ok(Some(Argument { text, rest, later }))
}

// The text in front of the closing quote, and what stands behind that.
fn unquoted(alloc: Global, inner: &[u8]) -> Result<(Vec<u8>, &[u8]), AllocError>
    ensures { (bytes rest : List ℕ) → inner.now ≡ flat_map escaped bytes ++ 34 ∷ rest → IfOk result (λ found. (found.0.items ≡ bytes) × (found.1.now ≡ rest)) }
{
    let mut text = Vec::new(alloc);
    let mut left = inner;
    while let Some((byte, behind)) = next_quoted(left) {
        text.push(byte)?;
        left = behind;
    }
    Ok((text, behind_first(left)))
}

// What stands behind the first byte.
fn behind_first(text: &[u8]) -> &[u8]
    ensures { (first : ℕ) (rest : List ℕ) → text.now ≡ first ∷ rest → result.now ≡ rest }
{
    match text.split_first() {
        Some((_, rest)) => rest,
        None => text,
    }
}

// The next byte of a quoted text and what stands behind it, up to the closing quote.
fn next_quoted(inner: &[u8]) -> Option<(u8, &[u8])>
    ensures shorter { MatchOption result (Unit {0}) (λ next. length next.1.now < length inner.now) }
    ensures closed { (rest : List ℕ) → inner.now ≡ 34 ∷ rest → result ≡ None }
    ensures next { (byte : ℕ) (rest : List ℕ) → inner.now ≡ escaped byte ++ rest → MatchOption result ⊥ (λ next. (next.0 ≡ byte) × (next.1.now ≡ rest)) }
{
    let (byte, rest) = inner.split_first()?;
    if *byte == b'"' {
        return None;
    }
    if *byte != b'\\' {
        return Some((*byte, rest));
    }
    let (byte, rest) = rest.split_first()?;
    Some((*byte, rest))
}

// A text as it is.
fn bare<'a>(
    alloc: Global,
    text: &'a [u8],
    later: &'a [Bytes],
) -> Result<Option<Argument<'a>>, AllocError>
    ensures { (bytes rest : List ℕ) → list_all is_astring_byte bytes ≡ true → EndsArgument rest → text.now ≡ bytes ++ rest
        → IfOk result (λ found. MatchOption found ⊥ (IsArgument bytes rest later.now)) }
{
    let (bare, rest) = text.split_at(bare_len(text));
    let text = bare.to_vec(alloc)?;
    Ok(Some(Argument { text, rest, later }))
}

// How many bytes stand in front of a space or of the end of the line.
fn bare_len(text: &[u8]) -> usize
    ensures at_most { result ≤ length text.now }
    ensures value { (bytes rest : List ℕ) → list_all is_astring_byte bytes ≡ true → EndsArgument rest → text.now ≡ bytes ++ rest → result ≡ length bytes }
{
    match end_of(text) {
        Some(place) => place,
        None => text.len(),
    }
}

// Where a space or the end of the line comes first.
fn end_of(text: &[u8]) -> Option<usize>
    ensures { result ≡ position ends_argument text.now }
{
    text.iter().position(|byte| *byte == b' ' || *byte == b'\r')
}
