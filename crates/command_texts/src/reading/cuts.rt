//! Where a text is cut: at the first of a byte.

ghost use Rattle.std.specs.Prelude.{◌≡◌, ◌==◌, ◌<◌, length, drop, get_or, ◌++◌, ◌∷◌, [], List, ℕ};
ghost use Rattle.std.specs.List.{before_first, after_first, position};
ghost use Rattle.command_texts.specs.Arguments.{Lacks};

/// The bytes before the first `mark`, and those behind it. Where it is missing, these are all bytes and none.
pub fn until(text: &[u8], mark: u8) -> (&[u8], &[u8])
    ensures cut { (word rest : List ℕ) → Lacks mark word → text.now ≡ word ++ mark ∷ rest → (result.0.now ≡ word) × (result.1.now ≡ rest) }
    ensures shorter { 0 < length text.now → length result.1.now < length text.now }
    ensures missing { Lacks mark text.now → (result.0.now ≡ text.now) × (result.1.now ≡ []) }
{
    parted(text, mark)
}

fn parted(text: &[u8], mark: u8) -> (&[u8], &[u8])
    ensures before { result.0.now ≡ before_first (λ byte. byte == mark) text.now }
    ensures behind { result.1.now ≡ after_first (λ byte. byte == mark) text.now }
{
    match place_of(text, mark) {
        Some(place) => (&text[..place], &text[place + 1..]),
        None => (text, &[]),
    }
}

// The place of the first `mark`.
fn place_of(text: &[u8], mark: u8) -> Option<usize>
    ensures { result ≡ position (λ byte. byte == mark) text.now }
{
    text.iter().position(|byte| *byte == mark)
}

/// The byte at a place, or 0 behind the end.
pub fn byte_at(text: &[u8], at: usize) -> u8
    ensures { result ≡ get_or text.now at 0 }
{
    match text.get(at) {
        Some(byte) => *byte,
        None => 0,
    }
}

/// What stands behind so many bytes.
pub fn behind(text: &[u8], size: usize) -> &[u8]
    ensures { result.now ≡ drop size text.now }
{
    match text.split_at_checked(size) {
        Some((_, rest)) => rest,
        None => &[],
    }
}
