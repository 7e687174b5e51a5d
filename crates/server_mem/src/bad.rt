//! BAD, which the server says to what is no text of a command (RFC 9051, section 7.1.3).

ghost use Rattle.std.specs.Prelude.{◌≡◌, ◌⊎◌, ◌↔◌, ◌<◌, ◌∷◌, [], ℕ, List, IsTrue, not, length, Some, None, IfOk, IfSome, IfNone, OnOk, codes};
ghost use Rattle.std.specs.List.{position};
ghost use Rattle.imap_model.specs.Lines.{AreLines};
ghost use Rattle.imap_model.specs.Tagged.{is_tag_byte, IsLettered, IsTag, NamesTag};
ghost use Rattle.mail_base.specs.declared.tag.Tag.{Tag};
ghost use Rattle.server_mem.specs.Answered.{bad_of};
ghost use Rattle.command_texts.specs.FirstWord.{IsTagged};
ghost use Rattle.server_mem.specs.Hearing.{IsBad};
ghost use Rattle.server_mem.specs.Texts.{bad_text};
ghost use Rattle.response_lines.specs.LineTexts.{◌⌢◌};

use command_texts::{named, tag_of_text};
use mail_base::{Bytes, Tag};
use response_lines::put;
use std::alloc::{AllocError, Global};

// The line of a BAD behind this word.
fn bad_line(alloc: Global, word: &[u8]) -> Result<Vec<u8>, AllocError>
    ensures { IfOk result (λ line. line.items ≡ word.now ⌢ codes " BAD done\r\n") }
{
    let mut line = Vec::new(alloc);
    put(&mut line, word)?;
    put(&mut line, b" BAD done\r\n")?;
    Ok(line)
}

/// A BAD: the tag that is told, if one is, and the line.
#[derive(Drop)]
pub(crate) struct Bad {
    pub tag: Option<Tag>,
    pub line: Vec<u8>,
}

// A BAD with this word as its tag.
fn tagged_bad(alloc: Global, word: &[u8]) -> Result<Bad, AllocError>
    ensures tag { IfOk result (λ bad. (tag : Tag) × (bad.tag ≡ Some tag) × NamesTag word.now tag) }
    ensures line { IfOk result (λ bad. bad.line.items ≡ word.now ⌢ codes " BAD done\r\n") }
{
    let line = bad_line(alloc, word)?;
    Ok(Bad {
        tag: Some(named(word)),
        line,
    })
}

// A BAD without a tag.
fn bare_bad(alloc: Global) -> Result<Bad, AllocError>
    ensures tag { IfOk result (λ bad. bad.tag ≡ None) }
    ensures line { IfOk result (λ bad. bad.line.items ≡ codes "*" ⌢ codes " BAD done\r\n") }
{
    let line = bad_line(alloc, b"*")?;
    Ok(Bad { tag: None, line })
}

/// A BAD with the very tag that the text begins with, of which these are parts, or with `*` where it begins with none.
pub(crate) fn bad_of(alloc: Global, parts: &[Bytes]) -> Result<Bad, AllocError>
    ensures tag { IfOk result (λ bad. IsBad parts.now (bad_of bad.tag)) }
    ensures line { IfOk result (λ bad. AreLines (bad_of bad.tag ∷ []) bad.line.items) }
    ensures text { IfOk result (λ bad. (is : IsBad parts.now (bad_of bad.tag)) × (bad.line.items ≡ bad_text parts.now (bad_of bad.tag) is)) }
{
    match tag_of_text(parts) {
        Some(word) => tagged_bad(alloc, word),
        None => bare_bad(alloc),
    }
}
