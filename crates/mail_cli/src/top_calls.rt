//! The table of first words.

ghost use Rattle.std.specs.Prelude.{◌↔◌, IsNone, IfSome, IsTrue, map, string_bytes};
ghost use Rattle.mail_cli.specs.FirstWords.{OnlyReads, Picks};
ghost use Rattle.mail_top.specs.Words.{AsksNothing};
ghost use Rattle.look_run.specs.Words.{AsksNothing as SeesNothing};
ghost use Rattle.body_cache.specs.Words.{AsksNothing as ReadsNothing};

/// The top calls that a first word can pick.
#[derive(Clone, Copy, Debug, PartialEq, Eq)]
pub enum TopCall {
    /// `mail_top::run`.
    Run,
    /// `look_run`.
    Look,
    /// `read_run` of body_cache.
    Read,
}

/// The top call that the first of the words picks. `None` only where the words ask for nothing.
pub fn top_call(words: &[String]) -> Option<TopCall>
    ensures picks { IfSome result (Picks (map string_bytes words.now)) }
    ensures picks_none { IsNone result → (call : _) → Picks (map string_bytes words.now) call → ⊥ }
    ensures none { IsNone result → AsksNothing (map string_bytes words.now) × SeesNothing (map string_bytes words.now)
        × ReadsNothing (map string_bytes words.now) }
{
    let first = words.first()?;
    match first.as_str() {
        "init" | "flag" | "move" | "append" => Some(TopCall::Run),
        "list" | "queue" | "report" | "play" => Some(TopCall::Run),
        "history" | "letter" => Some(TopCall::Look),
        "fetch" | "show" | "dates" => Some(TopCall::Read),
        _ => None,
    }
}

/// Whether the first of the words is one of those that only read the journal.
pub fn only_reads(words: &[String]) -> bool
    ensures { IsTrue result ↔ OnlyReads (map string_bytes words.now) }
{
    let Some(first) = words.first() else {
        return false;
    };
    match first.as_str() {
        "list" | "queue" | "report" | "history" | "letter" | "show" | "dates" => true,
        _ => false,
    }
}
