//! The flags of a list, one behind the other (RFC 9051, section 9, flag-list).

ghost use Rattle.std.specs.Prelude.{◌≡◌, ◌∷◌, ◌<◌, ◌≤◌, drop, length, not, IfSome};
ghost use Rattle.std.specs.List.{position, position_or_len};
ghost use Rattle.std.specs.Option.{option_copied};
ghost use Rattle.flag_set.specs.FlagList.{is_space, pieces, pieces_left};

/// Parts a list after its first flag: what stands behind the run of spaces there, if there is one.
pub(crate) fn first_flag(text: &[u8]) -> (&[u8], Option<&[u8]>)
    ensures parts { pieces text.now ≡ result.0.now ∷ pieces_left (option_copied result.1) }
    ensures shorter { IfSome result.1 (λ later. length later.now < length text.now) }
{
    let (flag, rest) = text.split_at(flag_len(text));
    match rest {
        [_, behind @ ..] => (flag, Some(without_spaces(behind))),
        [] => (flag, None),
    }
}

fn flag_len(text: &[u8]) -> usize
    ensures len { result ≡ position_or_len is_space text.now }
    ensures within { result ≤ length text.now }
{
    first_space(text).unwrap_or(text.len())
}

fn first_space(text: &[u8]) -> Option<usize>
    ensures { result ≡ position is_space text.now }
{
    text.iter().position(|byte| *byte == b' ')
}

fn without_spaces(text: &[u8]) -> &[u8]
    ensures { result.now ≡ drop (position_or_len (λ byte. not (is_space byte)) text.now) text.now }
{
    text.split_at(first_other(text).unwrap_or(text.len())).1
}

fn first_other(text: &[u8]) -> Option<usize>
    ensures { result ≡ position (λ byte. not (is_space byte)) text.now }
{
    text.iter().position(|byte| *byte != b' ')
}
