//! The tags of commands (RFC 9051, section 2.2.1).

ghost use Rattle.std.specs.Prelude.{◌≡◌, ◌<◌, ◌≤◌, ◌^◌, ◌++◌, [], ◌∷◌, ℕ, List, MatchOption, Some, decimal};
ghost use Rattle.mail_base.specs.declared.tag.Tag.TheVariants.{Play, Again, Count};

use crate::reading::cuts::{byte_at, until};
use crate::reading::numbers::number_of;
use mail_base::Tag;

/// The tag that a text begins with, and what stands behind the space.
pub fn tagged(text: &[u8]) -> Option<(Tag, &[u8])>
    ensures played { (n : ℕ) (rest : List ℕ) → n < 2 ^ 32 → text.now ≡ 80 ∷ (decimal n ++ 32 ∷ rest) → MatchOption result ⊥ (λ f. (f.0 ≡ Play n) × (f.1.now ≡ rest)) }
    ensures again { (n t : ℕ) (rest : List ℕ) → n < 2 ^ 32 → 2 ≤ t → t ≤ 3 → text.now ≡ 80 ∷ (decimal n ++ 82 ∷ (decimal t ++ 32 ∷ rest))
        → MatchOption result ⊥ (λ f. (f.0 ≡ Again n t) × (f.1.now ≡ rest)) }
    ensures counted { (n : ℕ) (rest : List ℕ) → n < 2 ^ 32 → text.now ≡ 67 ∷ (decimal n ++ 32 ∷ rest) → MatchOption result ⊥ (λ f. (f.0 ≡ Count n) × (f.1.now ≡ rest)) }
{
    let (letter, behind) = text.split_first()?;
    let (word, rest) = until(behind, b' ');
    match tag_of(*letter, word) {
        Some(tag) => Some((tag, rest)),
        None => None,
    }
}

// The tag of a letter and what stands behind it.
fn tag_of(letter: u8, word: &[u8]) -> Option<Tag>
    ensures played { (n : ℕ) → n < 2 ^ 32 → letter ≡ 80 → word.now ≡ decimal n → result ≡ Some (Play n) }
    ensures again { (n t : ℕ) → n < 2 ^ 32 → 2 ≤ t → t ≤ 3 → letter ≡ 80 → word.now ≡ decimal n ++ 82 ∷ decimal t → result ≡ Some (Again n t) }
    ensures counted { (n : ℕ) → n < 2 ^ 32 → letter ≡ 67 → word.now ≡ decimal n → result ≡ Some (Count n) }
{
    let (digits, turn) = until(word, b'R');
    let Some(number) = number_of(digits) else {
        return None;
    };
    if letter == b'P' {
        return Some(tag_of_try(number, turn));
    }
    if letter == b'C' {
        return Some(Tag::Count(number));
    }
    None
}

// The tag of a try of an action: the first one, or the one that this digit tells.
fn tag_of_try(id: u32, turn: &[u8]) -> Tag
    ensures first { turn.now ≡ [] → result ≡ Play id }
    ensures later { (t : ℕ) → 2 ≤ t → t ≤ 3 → turn.now ≡ decimal t → result ≡ Again id t }
{
    let digit = byte_at(turn, 0);
    if digit == b'2' {
        return Tag::Again { id, turn: 2 };
    }
    if digit == b'3' {
        return Tag::Again { id, turn: 3 };
    }
    Tag::Play(id)
}
