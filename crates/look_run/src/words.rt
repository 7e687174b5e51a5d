//! The words of `history` and `letter N`.

ghost use Rattle.std.specs.Prelude.{◌≡◌, ℕ, ◌∷◌, IsNone, IfSome, codes, map, string_bytes};
ghost use Rattle.look_run.specs.Words.{Asks, AsksNothing, WritesHistory, WritesLetter, WritesNumber};

use crate::Look;
use mail_base::number_of;

/// What the words ask to see. `None` exactly where they ask for neither.
///
/// The words are `history`, or `letter N` with a number from 1 without leading zeros.
pub fn look_of(words: &[String]) -> Option<Look>
    ensures some { IfSome result (Asks (map string_bytes words.now)) }
    ensures none { IsNone result → AsksNothing (map string_bytes words.now) }
{
    let (command, arguments) = words.split_first()?;
    match command.as_str() {
        "history" => history_asked(arguments),
        "letter" => letter_asked(arguments),
        _ => None,
    }
}

// Nothing stands behind `history`.
fn history_asked(arguments: &[String]) -> Option<Look>
    ensures some { IfSome result (Asks (codes "history" ∷ map string_bytes arguments.now)) }
    ensures none { IsNone result → WritesHistory (codes "history" ∷ map string_bytes arguments.now) → ⊥ }
    ensures history { IfSome result (λ look. look ≡ Look.History) }
{
    if arguments.is_empty() {
        Some(Look::History)
    } else {
        None
    }
}

// The action behind `letter`.
fn letter_asked(arguments: &[String]) -> Option<Look>
    ensures some { IfSome result (Asks (codes "letter" ∷ map string_bytes arguments.now)) }
    ensures none { IsNone result → (n : ℕ) → WritesLetter (codes "letter" ∷ map string_bytes arguments.now) n → ⊥ }
{
    match arguments {
        [number] => {
            let number = action_of(number.as_str())?;
            Some(Look::Letter(number))
        }
        _ => None,
    }
}

// The action's number that a word writes.
fn action_of(text: &str) -> Option<u32>
    ensures some { IfSome result (WritesNumber text.now) }
    ensures none { IsNone result → (n : ℕ) → WritesNumber text.now n → ⊥ }
{
    let number = number_of(text)?;
    if number == 0 { None } else { Some(number) }
}
