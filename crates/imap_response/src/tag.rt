//! The tag of a completion (RFC 9051, section 2.2.1).

ghost use Rattle.std.specs.Prelude.{◌≡◌};
ghost use Rattle.imap_model.specs.Tagged.{is_astring_byte, is_tag_byte};
ghost use Rattle.imap_response.specs.Tags.{tag_misfit, lettered, turn_of, play_of, tag_of};

use crate::leaf::number_of;
use crate::runs::{digits_len, is_atom_byte, start_behind, token_place};
use mail_base::Tag;

// Whether an astring may hold the byte as it is.
pub(crate) fn is_astring_byte(byte: u8) -> bool
    ensures { result ≡ is_astring_byte byte }
{
    is_atom_byte(byte) || byte == b']'
}

fn is_tag_byte(byte: u8) -> bool
    ensures { result ≡ is_tag_byte byte }
{
    is_astring_byte(byte) && byte != b'+'
}

// Where the first token of a word begins that doesn't fit a tag.
pub(crate) fn tag_misfit(word: &[u8]) -> Option<usize>
    ensures { result ≡ tag_misfit 0 0 word.now }
{
    let mut start = 0;
    for at in 0..word.len() {
        let byte = word[at];
        if !is_tag_byte(byte) {
            return Some(token_place(byte, start, at));
        }
        start = start_behind(byte, start, at);
    }
    None
}

// What the tag stands for.
pub(crate) fn tag_of(word: &[u8]) -> Tag
    ensures { result ≡ tag_of word.now }
{
    match word.split_first() {
        Some((b'P', text)) => play_of(text),
        Some((b'C', digits)) => match lettered(digits) {
            Some(number) => Tag::Count(number),
            None => Tag::Strange,
        },
        _ => Tag::Strange,
    }
}

// The tag that begins with `P`: behind it stands an action's number, and behind that the turn of a later try.
fn play_of(text: &[u8]) -> Tag
    ensures { result ≡ play_of text.now }
{
    let (digits, behind) = text.split_at(digits_len(text));
    let Some(id) = lettered(digits) else {
        return Tag::Strange;
    };
    if behind.is_empty() {
        return Tag::Play(id);
    }
    match turn_of(behind) {
        Some(turn) => Tag::Again { id, turn },
        None => Tag::Strange,
    }
}

// The turn that `R2` or `R3` names.
fn turn_of(text: &[u8]) -> Option<u8>
    ensures { result ≡ turn_of text.now }
{
    match text {
        b"R2" => Some(2),
        b"R3" => Some(3),
        _ => None,
    }
}

// The number of these digits, if they begin with no 0.
fn lettered(digits: &[u8]) -> Option<u32>
    ensures { result ≡ lettered digits.now }
{
    match digits.first() {
        None | Some(b'0') => None,
        Some(_) => number_of(digits),
    }
}
