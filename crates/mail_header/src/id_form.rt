//! The form of a Message-ID (RFC 5322, section 3.6.4, as far as this client takes it).

ghost use Rattle.std.specs.Prelude.{◌≡◌, ◌↔◌, ◌∷◌, IsTrue, IfNone, IfSome, All, reverse};
ghost use Rattle.mail_header.specs.Identifier.{IsIdByte, IsId, IsUnfitAt, IsFirstOther, trimmed, trimmed_front};

fn trim_start(mut bytes: &[u8]) -> &[u8]
    ensures { result.now ≡ trimmed_front bytes.now }
{
    while let [b' ' | b'\t', rest @ ..] = bytes {
        bytes = rest;
    }
    bytes
}

fn trim_end(mut bytes: &[u8]) -> &[u8]
    ensures { result.now ≡ reverse (trimmed_front (reverse bytes.now)) }
{
    while let [rest @ .., b' ' | b'\t'] = bytes {
        bytes = rest;
    }
    bytes
}

/// The bytes without spaces and tabs at both ends.
pub(crate) fn trim(bytes: &[u8]) -> &[u8]
    ensures { result.now ≡ trimmed bytes.now }
{
    trim_end(trim_start(bytes))
}

// Whether the byte may stand between the brackets.
fn is_id_byte(byte: u8) -> bool
    ensures { IsTrue result ↔ IsIdByte byte }
{
    matches!(byte, 33..=126) && byte != b'<' && byte != b'>'
}

// The place of the first byte that may not stand between the brackets.
fn first_other(bytes: &[u8]) -> Option<usize>
    ensures none { IfNone result (All IsIdByte bytes.now) }
    ensures first { IfSome result (IsFirstOther bytes.now) }
{
    bytes.iter().position(|byte| !is_id_byte(*byte))
}

// The same as `unfit_at`, of a `<` and these bytes.
fn unfit_behind(inside: &[u8]) -> Option<usize>
    ensures none { IfNone result (IsId (60 ∷ inside.now)) }
    ensures some { IfSome result (IsUnfitAt (60 ∷ inside.now)) }
{
    match first_other(inside) {
        None => Some(inside.len() + 1),
        Some(0) => Some(1),
        Some(at) if inside[at] != b'>' => Some(at + 1),
        Some(at) if at + 1 < inside.len() => Some(at + 2),
        Some(_) => None,
    }
}

/// The place at which the bytes stop being an identifier: of the first that doesn't fit, or the end where they end too
/// early. There is none where they are one.
pub(crate) fn unfit_at(bytes: &[u8]) -> Option<usize>
    ensures none { IfNone result (IsId bytes.now) }
    ensures some { IfSome result (IsUnfitAt bytes.now) }
{
    let Some((first, inside)) = bytes.split_first() else {
        return Some(0);
    };
    if *first != b'<' {
        return Some(0);
    }
    unfit_behind(inside)
}
