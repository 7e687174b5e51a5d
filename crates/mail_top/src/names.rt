//! The names of mailboxes that the words of a command write (RFC 9051, section 5.1).

ghost use Rattle.std.specs.Prelude.{◌≡◌, ◌↔◌, List, IsTrue, IfOk, map, string_bytes};
ghost use Rattle.std.specs.List.{AllByRecursion};
ghost use Rattle.mail_base.specs.BoxName.{IsBoxText};
ghost use Rattle.action_queue.specs.Events.{IsAbsent};
ghost use Rattle.mail_top.specs.Names.{name_of, AreApart, WriteNames};

use mail_base::{BoxName, List};
use std::alloc::{AllocError, Global};

/// The most mailboxes that one journal is for (this client's profile).
pub const MAX_NAMES: usize = 32;

/// Whether the texts write 1 to 32 names of mailboxes, no two of them the same. INBOX is one name in any case
/// (RFC 9051, section 5.1), so `inbox` and `INBOX` write the same. It looks at each two of them, and takes no memory.
pub fn are_names(texts: &[String]) -> bool
    ensures { IsTrue result ↔ WriteNames (map string_bytes texts.now) }
{
    !texts.is_empty() && texts.len() <= MAX_NAMES && are_apart(texts)
}

// Whether each text writes a name, no two of them the same.
fn are_apart(texts: &[String]) -> bool
    ensures { IsTrue result ↔ AreApart (map string_bytes texts.now) }
{
    match texts {
        [first, rest @ ..] => {
            is_text(first.as_str()) && are_others(first.as_str(), rest) && are_apart(rest)
        }
        [] => true,
    }
}

// Whether the texts all write other names than this one.
fn are_others(text: &str, others: &[String]) -> bool
    ensures { IsTrue result ↔ IsAbsent (name_of text.now) (map name_of (map string_bytes others.now)) }
{
    match others {
        [first, rest @ ..] => {
            name_bytes(text) != name_bytes(first.as_str()) && are_others(text, rest)
        }
        [] => true,
    }
}

// Whether the text writes a name.
fn is_text(text: &str) -> bool
    ensures { IsTrue result ↔ IsBoxText text.now }
{
    BoxName::new(text.as_bytes()).is_ok()
}

// The name that is kept for a text.
fn name_bytes(text: &str) -> &[u8]
    ensures { result.now ≡ name_of text.now }
{
    if text.eq_ignore_ascii_case("inbox") {
        b"INBOX"
    } else {
        text.as_bytes()
    }
}

/// The names that the texts write, as they are kept, in the texts' order. Fails for want of memory alone.
pub fn names_in(alloc: Global, texts: &[String]) -> Result<List<BoxName>, AllocError>
    requires { AllByRecursion IsBoxText (map string_bytes texts.now) }
    ensures { IfOk result (λ names. names ≡ map name_of (map string_bytes texts.now)) }
{
    let mut names = List::new(alloc);
    for text in texts {
        names.push(kept_name(text.as_str()))?;
    }
    Ok(names)
}

// The name that a text writes.
fn kept_name(text: &str) -> BoxName
    requires { IsBoxText text.now }
    ensures { result ≡ name_of text.now }
{
    match BoxName::new(text.as_bytes()) {
        Ok(name) => name,
        Err(_) => unreachable!(),
    }
}
