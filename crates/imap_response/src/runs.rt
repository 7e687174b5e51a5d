//! Runs of bytes at the front of a text (RFC 9051, section 9).

ghost use Rattle.std.specs.Prelude.{◌≡◌, ◌≤◌, ◌<◌, ◌+◌, ◌^◌, length, if◌then◌else◌};
ghost use Rattle.std.specs.List.{prefix_len};
ghost use Rattle.std.specs.Char.{is_ascii_digit};
ghost use Rattle.flag_set.specs.Flag.{is_atom_byte};
ghost use Rattle.imap_model.specs.Words.{is_word_byte};
ghost use Rattle.imap_model.specs.Values.{is_wide_byte};
ghost use Rattle.imap_response.specs.Leaf.{is_space, is_digits};

// Whether a word of a response line may hold the byte.
pub(crate) fn is_word_byte(byte: u8) -> bool
    ensures { result ≡ is_word_byte byte }
{
    byte > 32 && byte != 127
}

// Whether an atom, as servers write it, may hold the byte.
pub(crate) fn is_wide_byte(byte: u8) -> bool
    ensures { result ≡ is_wide_byte byte }
{
    byte > 32 && !matches!(byte, b'(' | b')' | b'[' | b']' | b'"' | b'{' | 127)
}

// Whether an atom, as the standard has it, may hold the byte.
pub(crate) fn is_atom_byte(byte: u8) -> bool
    ensures { result ≡ is_atom_byte byte }
{
    (33..=126).contains(&byte)
        && !matches!(byte, b'(' | b')' | b'{' | b'%' | b'*' | b'"' | b'\\' | b']')
}

// How many spaces stand in front.
#[tactic(auto, using(crate::proofs::RunLemmas::run_within))]
pub(crate) fn space_len(text: &[u8]) -> usize
    ensures value { result ≡ prefix_len is_space text.now }
    ensures within { result ≤ length text.now }
{
    text.iter().take_while(|byte| **byte == b' ').count()
}

// How many bytes of a word stand in front.
#[tactic(auto, using(crate::proofs::RunLemmas::run_within))]
pub(crate) fn word_len(text: &[u8]) -> usize
    ensures value { result ≡ prefix_len is_word_byte text.now }
    ensures within { result ≤ length text.now }
{
    text.iter().take_while(|byte| is_word_byte(**byte)).count()
}

// How many bytes of an atom stand in front.
#[tactic(auto, using(crate::proofs::RunLemmas::run_within))]
pub(crate) fn wide_len(text: &[u8]) -> usize
    ensures value { result ≡ prefix_len is_wide_byte text.now }
    ensures within { result ≤ length text.now }
{
    text.iter().take_while(|byte| is_wide_byte(**byte)).count()
}

// How many digits stand in front.
#[tactic(auto, using(crate::proofs::RunLemmas::run_within))]
pub(crate) fn digits_len(text: &[u8]) -> usize
    ensures value { result ≡ prefix_len is_ascii_digit text.now }
    ensures within { result ≤ length text.now }
{
    text.iter().take_while(|byte| byte.is_ascii_digit()).count()
}

// Whether the text is one digit or more.
pub(crate) fn is_digits(text: &[u8]) -> bool
    ensures { result ≡ is_digits text.now }
{
    !text.is_empty() && digits_len(text) == text.len()
}

// Where a token begins that holds the byte at this place, if the last token began there.
pub(crate) fn token_place(byte: u8, start: usize, at: usize) -> usize
    ensures { result ≡ (if is_wide_byte byte then start else at) }
{
    if is_wide_byte(byte) { start } else { at }
}

// Where the last token begins behind the byte at this place.
pub(crate) fn start_behind(byte: u8, start: usize, at: usize) -> usize
    requires { at + 1 < 2 ^ 64 }
    ensures { result ≡ (if is_wide_byte byte then start else at + 1) }
{
    if is_wide_byte(byte) { start } else { at + 1 }
}
