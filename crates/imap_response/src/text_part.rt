//! The text of a status response, and where its code stands (RFC 9051, section 9, resp-text).

ghost use Rattle.std.specs.Prelude.{◌≡◌, ◌≤◌, ◌<◌, ◌+◌, ◌^◌, ℕ, length, Some, None, IfOk, IfSome, Result};
ghost use Rattle.imap_model.specs.Small.{IsSmallCode};
ghost use Rattle.imap_response.specs.Flags.{kept};
ghost use Rattle.imap_response.specs.Leaf.{is_forbidden};
ghost use Rattle.imap_response.specs.Reads.{Fails, Gives};
ghost use Rattle.imap_response.specs.Closing.{first_inside, ends, goes_on, escapes};
ghost use Rattle.imap_response.specs.ReadTextParts.{plain_len, is_cut, opened_at, text_misfit, closing_from, code_up_to, within, with_misfit, code_in, text_at};
ghost use Rattle.imap_response.specs.declared.text_part.Coded.{Coded};

use crate::code::code_of;
use crate::fault::Misfit;
use crate::leaf::gap;
use crate::word_list::header_start;
use flag_set::FlagFault;
use imap_model::Code;
use std::alloc::Global;

// A code, and why a list of flags in it is too large, if it is.
#[derive(Drop)]
pub(crate) struct Coded {
    pub(crate) code: Code,
    pub(crate) excess: Option<FlagFault>,
}

// No code.
fn uncoded() -> Coded
    ensures { result ≡ record { code = Code.None; excess = None } }
{
    Coded {
        code: Code::None,
        excess: None,
    }
}

// What stands behind the word of a status response.
#[tactic(auto, unfolding(crate::specs::ReadTextParts::text_at))]
pub(crate) fn text_part(alloc: Global, text: &[u8]) -> Result<Coded, Misfit>
    ensures small { IfOk result (λ coded. IsSmallCode coded.code) }
    ensures value { Gives (λ coded. coded) result (text_at kept text.now) }
{
    if text.is_empty() {
        return Ok(uncoded());
    }
    let text = gap(text)?;
    let coded = code_in(alloc, text);
    match text_misfit(text) {
        None => coded,
        Some(left) => Err(first_misfit(coded, left)),
    }
}

// The misfit of the code, if there is one and it comes first.
fn first_misfit(coded: Result<Coded, Misfit>, left: usize) -> Misfit
    ensures { (read : Result Coded ℕ) → Gives (λ coded. coded) coded read → Fails result (with_misfit (Some left) read) }
{
    match coded {
        Ok(_) => Misfit::At { left },
        Err(Misfit::At { left: earlier }) => {
            if earlier > left {
                Misfit::At { left: earlier }
            } else {
                Misfit::At { left }
            }
        }
        Err(Misfit::Memory) => Misfit::Memory,
    }
}

// How many bytes of the text are left at its first CR, LF or NUL, or at the header of a literal that is opened in front of
// that.
fn text_misfit(text: &[u8]) -> Option<usize>
    ensures { result ≡ text_misfit text.now }
{
    let plain = plain_len(text);
    let (front, rest) = text.split_at(plain);
    match opened_at(front, rest) {
        Some(at) => Some(text.len().saturating_sub(at)),
        None => {
            if plain < text.len() {
                Some(text.len() - plain)
            } else {
                None
            }
        }
    }
}

// Where a literal is opened: the header begins with which the front ends, if nothing or CRLF stands behind it.
fn opened_at(front: &[u8], rest: &[u8]) -> Option<usize>
    ensures { result ≡ opened_at front.now rest.now }
{
    if is_cut(rest) {
        header_start(front)
    } else {
        None
    }
}

// Whether the text ends here, or CRLF stands here.
fn is_cut(rest: &[u8]) -> bool
    ensures { result ≡ is_cut rest.now }
{
    rest.is_empty() || rest.starts_with(b"\r\n")
}

#[tactic(auto, using(crate::proofs::RunLemmas::run_within))]
fn plain_len(text: &[u8]) -> usize
    ensures value { result ≡ plain_len text.now }
    ensures within { result ≤ length text.now }
{
    text.iter().take_while(|byte| !is_forbidden(**byte)).count()
}

pub(crate) fn is_forbidden(byte: u8) -> bool
    ensures { result ≡ is_forbidden byte }
{
    matches!(byte, 0 | b'\n' | b'\r')
}

// The code between the brackets at the text's front.
#[tactic(auto, unfolding(crate::specs::ReadTextParts::code_in))]
fn code_in(alloc: Global, text: &[u8]) -> Result<Coded, Misfit>
    ensures small { IfOk result (λ coded. IsSmallCode coded.code) }
    ensures value { Gives (λ coded. coded) result (code_in kept text.now) }
{
    match text.split_first() {
        Some((b'[', inner)) => code_in_front(alloc, inner),
        _ => Ok(uncoded()),
    }
}

// The code up to the right bracket, if there is one.
fn code_in_front(alloc: Global, text: &[u8]) -> Result<Coded, Misfit>
    ensures small { IfOk result (λ coded. IsSmallCode coded.code) }
    ensures value { Gives (λ coded. coded) result (code_up_to kept text.now (closing_from 0 0 text.now)) }
{
    match closing(text) {
        None => Ok(uncoded()),
        Some(size) => {
            let (code, behind) = text.split_at(size);
            in_front_of(code_of(alloc, code), code.len(), behind.len())
        }
    }
}

// A code of so many bytes, in front of so many other bytes.
fn in_front_of(coded: Result<Coded, Misfit>, size: usize, behind: usize) -> Result<Coded, Misfit>
    requires { size + behind < 2 ^ 64 }
    ensures small { IfOk coded (λ coded. IsSmallCode coded.code) → IfOk result (λ coded. IsSmallCode coded.code) }
    ensures value { (read : Result Coded ℕ) → Gives (λ coded. coded) coded read → Gives (λ coded. coded) result (within size behind read) }
{
    match coded {
        Err(Misfit::At { left }) => Err(Misfit::At {
            left: left.min(size) + behind,
        }),
        other => other,
    }
}

// Where the first `]` outside quoted strings stands. A `"` that begins no quoted string is a byte like others, and so is
// each `"` up to where the first of them fails: in `inside` stands the first `]` behind it.
fn closing(text: &[u8]) -> Option<usize>
    ensures value { result ≡ closing_from 0 0 text.now }
    ensures within { IfSome result (λ size. size ≤ length text.now) }
{
    let mut quoted = false;
    let mut escaped = false;
    let mut inside = None;
    for at in 0..text.len() {
        let byte = text[at];
        if ends(quoted, escaped, byte) {
            quoted = false;
            inside = None;
            continue;
        }
        if goes_on(quoted, escaped, byte) {
            inside = first_inside(inside, byte, at);
            escaped = escapes(escaped, byte);
            continue;
        }
        if inside.is_some() {
            return inside;
        }
        if byte == b']' {
            return Some(at);
        }
        quoted = byte == b'"';
        escaped = false;
    }
    inside
}

// The first `]` in a string that may fail.
fn first_inside(inside: Option<usize>, byte: u8, at: usize) -> Option<usize>
    ensures { result ≡ first_inside inside byte at }
{
    match inside {
        None if byte == b']' => Some(at),
        inside => inside,
    }
}

// Whether the byte ends a quoted string that began.
fn ends(quoted: bool, escaped: bool, byte: u8) -> bool
    ensures { result ≡ ends quoted escaped byte }
{
    quoted && !escaped && byte == b'"'
}

// Whether a quoted string that began goes on with the byte.
fn goes_on(quoted: bool, escaped: bool, byte: u8) -> bool
    ensures { result ≡ goes_on quoted escaped byte }
{
    match (quoted, escaped) {
        (false, _) => false,
        (true, true) => matches!(byte, b'"' | b'\\'),
        (true, false) => byte != b'"' && !is_forbidden(byte),
    }
}

// Whether the byte is a backslash that stands before another byte.
fn escapes(escaped: bool, byte: u8) -> bool
    ensures { result ≡ escapes escaped byte }
{
    !escaped && byte == b'\\'
}
