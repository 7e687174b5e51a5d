//! The words of `fetch BOX ID`, `show BOX ID` and `dates BOX`.

ghost use Rattle.std.specs.Prelude.{◌∷◌, ℕ, List, IsNone, IfSome, codes, map, string_bytes};
ghost use Rattle.body_cache.specs.Words.{Asks, AsksNothing, WritesDates, WritesMessage, WritesUid};

use crate::Reading;
use mail_base::{BoxName, box_of, number_of};
use uid_sets::Uid;

/// What the words ask for. `None` exactly where they ask for nothing.
///
/// The words are `fetch BOX ID`, `show BOX ID` or `dates BOX`. ID is a UID without leading zeros.
pub fn reading_of(words: &[String]) -> Option<Reading>
    ensures some { IfSome result (Asks (map string_bytes words.now)) }
    ensures none { IsNone result → AsksNothing (map string_bytes words.now) }
{
    let (command, arguments) = words.split_first()?;
    match command.as_str() {
        "fetch" => {
            let (name, uid) = message_asked(arguments)?;
            Some(Reading::Fetch { name, uid })
        }
        "show" => {
            let (name, uid) = message_asked(arguments)?;
            Some(Reading::Show { name, uid })
        }
        "dates" => {
            let name = mailbox_asked(arguments)?;
            Some(Reading::Dates { name })
        }
        _ => None,
    }
}

// The message that the words behind a command write.
fn message_asked(arguments: &[String]) -> Option<(BoxName, Uid)>
    ensures some { IfSome result (λ asked. (command : List ℕ)
        → WritesMessage command (command ∷ map string_bytes arguments.now) asked.0 asked.1) }
    ensures none { IsNone result → (command name : List ℕ) → (uid : ℕ)
        → WritesMessage command (command ∷ map string_bytes arguments.now) name uid → ⊥ }
{
    match arguments {
        [name, id] => {
            let name = box_of(name.as_str())?;
            let uid = uid_of(id.as_str())?;
            Some((name, uid))
        }
        _ => None,
    }
}

// The mailbox that the words behind a command write.
fn mailbox_asked(arguments: &[String]) -> Option<BoxName>
    ensures some { IfSome result (WritesDates (codes "dates" ∷ map string_bytes arguments.now)) }
    ensures none { IsNone result → (name : List ℕ)
        → WritesDates (codes "dates" ∷ map string_bytes arguments.now) name → ⊥ }
{
    match arguments {
        [name] => box_of(name.as_str()),
        _ => None,
    }
}

// The UID that a word writes.
fn uid_of(text: &str) -> Option<Uid>
    ensures some { IfSome result (WritesUid text.now) }
    ensures none { IsNone result → (uid : ℕ) → WritesUid text.now uid → ⊥ }
{
    let number = number_of(text)?;
    Uid::new(number)
}
