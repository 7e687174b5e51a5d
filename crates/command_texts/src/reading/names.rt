//! The names of mailboxes as arguments (RFC 9051, sections 5.1 and 9, mailbox). A name is never a literal.

ghost use Rattle.std.specs.Prelude.{◌≡◌, ◌∷◌, [], ℕ, List, IfOk, MatchOption, Some, IfSome, IsSome};
ghost use Rattle.mail_base.specs.BoxName.{IsBoxName};
ghost use Rattle.imap_model.specs.Astring.{astring_parts};
ghost use Rattle.imap_model.specs.CommandParts.{◌⌢◌};
ghost use Rattle.command_texts.specs.Arguments.{EndsArgument};

use crate::reading::arguments::argument_at;
use mail_base::BoxName;
use std::alloc::{AllocError, Global};

/// The name at the front of a text, and what stands behind it.
pub fn name(alloc: Global, text: &[u8]) -> Result<Option<(BoxName, &[u8])>, AllocError>
    ensures { (name rest : List ℕ) → IsBoxName name → EndsArgument rest → text.now ∷ [] ≡ astring_parts name ⌢ (rest ∷ [])
        → IfOk result (λ found. MatchOption found ⊥ (λ f. (f.0 ≡ name) × (f.1.now ≡ rest))) }
{
    let Some(argument) = argument_at(alloc, text, &[])? else {
        return Ok(None);
    };
    match name_of(&argument.text) {
        Some(name) => Ok(Some((name, argument.rest))),
        None => Ok(None),
    }
}

// The name that the text is.
fn name_of(text: &[u8]) -> Option<BoxName>
    ensures { (name : List ℕ) → IsBoxName name → text.now ≡ name → result ≡ Some name }
{
    match BoxName::new(text) {
        Ok(name) => Some(name),
        Err(_) => None,
    }
}
