//! The words of a command.

ghost use Rattle.std.specs.Prelude.{◌≡◌, ℕ, List, [], ◌∷◌, IsNone, IfSome, string_bytes, map, codes};
ghost use Rattle.mail_top.specs.Words.{Asks, AsksNothing, IsLawful, WritesInit, WritesFlag, WritesMove, WritesAppend};
ghost use Rattle.mail_top.specs.Words.{WritesRows, WritesQueue, WritesReport, WritesPlay, Change, Transfer, Addition, Queue, Report, Play};
ghost use Rattle.mail_top.specs.Words.{change_of, transfer_of, addition_of, request_of};
ghost use Rattle.mail_top.specs.Names.{name_of, WriteNames};

use crate::{
    Asked, AskedAction, AskedAppend, AskedFlags, AskedMove, MAX_ASKED, are_names, ident_of,
    is_addition,
};
use mail_base::{BoxName, box_of};

/// What the words of a command ask for. `None` exactly where they ask for nothing.
///
/// The words are one of these:
///
/// - `init BOX ..` with 1 to 32 names, no two of them the same;
/// - `flag BOX ID SIGN FLAG ..`, where SIGN is `+` or `-`, with 1 to 32 flags, which may be any words;
/// - `move BOX ID BOX`;
/// - `append BOX FLAG ..` with at most 32 flags;
/// - `list BOX`, `queue`, `report` or `play`.
///
/// ID is a UID from 1 without leading zeros, or `d` and such a number: that of the action that makes the message.
pub fn asked(words: &[String]) -> Option<Asked<'_>>
    ensures some { IfSome result (λ asked. (input : List ℕ) → Asks (map string_bytes words.now) input (request_of asked input)) }
    ensures none { IsNone result → AsksNothing (map string_bytes words.now) }
    ensures lawful { IfSome result IsLawful }
{
    let (command, arguments) = words.split_first()?;
    match command.as_str() {
        "init" => Some(Asked::Init(names_asked(arguments)?)),
        "flag" => Some(Asked::Act(AskedAction::Flag(flags_asked(arguments)?))),
        "move" => Some(Asked::Act(AskedAction::Move(move_asked(arguments)?))),
        "append" => Some(Asked::Act(AskedAction::Append(append_asked(arguments)?))),
        "list" => Some(Asked::Rows(box_asked(arguments)?)),
        "queue" => queue_asked(arguments),
        "report" => report_asked(arguments),
        "play" => play_asked(arguments),
        _ => None,
    }
}

// The texts behind `init`.
fn names_asked(texts: &[String]) -> Option<&[String]>
    ensures some { IfSome result (λ kept. WritesInit (codes "init" ∷ map string_bytes texts.now)
        (map name_of (map string_bytes kept.now))) }
    ensures named { IfSome result (λ kept. WriteNames (map string_bytes kept.now)) }
    ensures none { IsNone result → (names : List (List ℕ)) → WritesInit (codes "init" ∷ map string_bytes texts.now) names → ⊥ }
{
    if are_names(texts) { Some(texts) } else { None }
}

// The mailbox behind `list`.
fn box_asked(arguments: &[String]) -> Option<BoxName>
    ensures some { IfSome result (WritesRows (codes "list" ∷ map string_bytes arguments.now)) }
    ensures none { IsNone result → (name : List ℕ) → WritesRows (codes "list" ∷ map string_bytes arguments.now) name → ⊥ }
{
    match arguments {
        [name] => box_of(name.as_str()),
        _ => None,
    }
}

// Nothing stands behind `queue`.
fn queue_asked(arguments: &[String]) -> Option<Asked<'static>>
    ensures some { IfSome result (λ asked. ((input : List ℕ) → request_of asked input ≡ Queue)
        × WritesQueue (codes "queue" ∷ map string_bytes arguments.now)) }
    ensures none { IsNone result → WritesQueue (codes "queue" ∷ map string_bytes arguments.now) → ⊥ }
    ensures lawful { IfSome result IsLawful }
{
    if arguments.is_empty() {
        Some(Asked::Queue)
    } else {
        None
    }
}

// Nothing stands behind `report`.
fn report_asked(arguments: &[String]) -> Option<Asked<'static>>
    ensures some { IfSome result (λ asked. ((input : List ℕ) → request_of asked input ≡ Report)
        × WritesReport (codes "report" ∷ map string_bytes arguments.now)) }
    ensures none { IsNone result → WritesReport (codes "report" ∷ map string_bytes arguments.now) → ⊥ }
    ensures lawful { IfSome result IsLawful }
{
    if arguments.is_empty() {
        Some(Asked::Report)
    } else {
        None
    }
}

// Nothing stands behind `play`.
fn play_asked(arguments: &[String]) -> Option<Asked<'static>>
    ensures some { IfSome result (λ asked. ((input : List ℕ) → request_of asked input ≡ Play)
        × WritesPlay (codes "play" ∷ map string_bytes arguments.now)) }
    ensures none { IsNone result → WritesPlay (codes "play" ∷ map string_bytes arguments.now) → ⊥ }
    ensures lawful { IfSome result IsLawful }
{
    if arguments.is_empty() {
        Some(Asked::Play)
    } else {
        None
    }
}

// The change behind `flag`.
fn flags_asked(arguments: &[String]) -> Option<AskedFlags<'_>>
    ensures some { IfSome result (λ asked. WritesFlag (codes "flag" ∷ map string_bytes arguments.now) (change_of asked)) }
    ensures none { IsNone result → (change : Change) → WritesFlag (codes "flag" ∷ map string_bytes arguments.now) change → ⊥ }
{
    match arguments {
        [name, id, sign, flags @ ..] => {
            change_asked(name.as_str(), id.as_str(), sign.as_str(), flags)
        }
        _ => None,
    }
}

// The change that a name, a message, a sign and flags ask for.
fn change_asked<'a>(name: &str, id: &str, sign: &str, flags: &'a [String]) -> Option<AskedFlags<'a>>
    ensures some { IfSome result (λ asked.
        WritesFlag (codes "flag" ∷ name.now ∷ id.now ∷ sign.now ∷ map string_bytes flags.now) (change_of asked)) }
    ensures none { IsNone result → (change : Change) →
        WritesFlag (codes "flag" ∷ name.now ∷ id.now ∷ sign.now ∷ map string_bytes flags.now) change → ⊥ }
{
    if flags.is_empty() || flags.len() > MAX_ASKED {
        return None;
    }
    let name = box_of(name)?;
    let id = ident_of(id)?;
    let add = is_addition(sign)?;
    Some(AskedFlags {
        name,
        id,
        add,
        flags,
    })
}

// The move behind `move`.
fn move_asked(arguments: &[String]) -> Option<AskedMove>
    ensures some { IfSome result (λ asked. WritesMove (codes "move" ∷ map string_bytes arguments.now) (transfer_of asked)) }
    ensures none { IsNone result → (transfer : Transfer) → WritesMove (codes "move" ∷ map string_bytes arguments.now) transfer → ⊥ }
{
    match arguments {
        [name, id, to] => transfer_asked(name.as_str(), id.as_str(), to.as_str()),
        _ => None,
    }
}

// The move that a name, a message and a name ask for.
fn transfer_asked(name: &str, id: &str, to: &str) -> Option<AskedMove>
    ensures some { IfSome result (λ asked. WritesMove (codes "move" ∷ name.now ∷ id.now ∷ to.now ∷ []) (transfer_of asked)) }
    ensures none { IsNone result → (transfer : Transfer) → WritesMove (codes "move" ∷ name.now ∷ id.now ∷ to.now ∷ []) transfer → ⊥ }
{
    let name = box_of(name)?;
    let id = ident_of(id)?;
    let to = box_of(to)?;
    Some(AskedMove { name, id, to })
}

// The message behind `append`.
fn append_asked(arguments: &[String]) -> Option<AskedAppend<'_>>
    ensures some { IfSome result (λ asked. WritesAppend (codes "append" ∷ map string_bytes arguments.now) (addition_of asked)) }
    ensures none { IsNone result → (addition : Addition) → WritesAppend (codes "append" ∷ map string_bytes arguments.now) addition → ⊥ }
{
    match arguments {
        [name, flags @ ..] => addition_asked(name.as_str(), flags),
        [] => None,
    }
}

// The message that a name and flags ask for.
fn addition_asked<'a>(name: &str, flags: &'a [String]) -> Option<AskedAppend<'a>>
    ensures some { IfSome result (λ asked. WritesAppend (codes "append" ∷ name.now ∷ map string_bytes flags.now) (addition_of asked)) }
    ensures none { IsNone result → (addition : Addition) →
        WritesAppend (codes "append" ∷ name.now ∷ map string_bytes flags.now) addition → ⊥ }
{
    if flags.len() > MAX_ASKED {
        return None;
    }
    let to = box_of(name)?;
    Some(AskedAppend { to, flags })
}
