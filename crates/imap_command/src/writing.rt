//! A command under its tag, as it is sent.
#![tactic(auto, using(imap_model::proofs::Joining::parts_assoc))]

ghost use Rattle.std.specs.Prelude.{◌≡◌, IfOk, OnOk};
ghost use Rattle.mail_base.specs.declared.tag.Tag.TheVariants as tags;
ghost use Rattle.imap_model.specs.CommandText.{IsWritable, parts_of};
ghost use Rattle.imap_model.specs.Held.{IsSent};
ghost use Rattle.imap_model.specs.CommandParts.{line, number, ◌⌢◌};
ghost use Rattle.imap_model.specs.TagText.{IsCommandTag, tag_parts};

use crate::Parts;
use crate::held::{command_fits, tag_fits};
use crate::words::put_words;
use crate::writer::Writer;
use imap_model::Command;
use mail_base::Tag;
use std::alloc::{AllocError, Global};

/// The text of a command under its tag, in the parts in which it is sent. `Command::is_writable` says which commands
/// can be written under which tags. The text of an APPEND is copied once.
pub fn write(alloc: Global, tag: Tag, command: &Command) -> Result<Parts, AllocError>
    requires { IsWritable tag command.now }
    ensures text { IfOk result (λ parts. parts ≡ parts_of tag command.now) }
    ensures sent { IsSent tag command.now }
{
    tag_fits(tag);
    command_fits(command);
    let mut writer = Writer::new(alloc);
    put_tag(&mut writer, tag)?;
    writer.put(b" ")?;
    put_words(&mut writer, alloc, command)?;
    writer.put(b"\r\n")?;
    writer.finish()
}

fn put_tag(writer: &mut Writer, tag: Tag) -> Result<(), AllocError>
    requires { IsCommandTag tag }
    ensures { OnOk result (writer.new ≡ writer.old ⌢ tag_parts tag) }
{
    match tag {
        Tag::Play(action) => put_numbered(writer, b"P", action),
        Tag::Again { id, turn } => put_again(writer, id, turn),
        Tag::Count(count) => put_numbered(writer, b"C", count),
        Tag::Strange => unreachable!(),
    }
}

// An action's number between `P` and `R`, and the turn of a later try behind them.
fn put_again(writer: &mut Writer, action: u32, turn: u8) -> Result<(), AllocError>
    ensures { OnOk result (writer.new ≡ writer.old ⌢ tag_parts (tags.Again action turn)) }
{
    put_numbered(writer, b"P", action)?;
    put_numbered(writer, b"R", u32::from(turn))
}

// A letter and a number.
fn put_numbered(writer: &mut Writer, letter: &[u8], digits: u32) -> Result<(), AllocError>
    ensures { OnOk result (writer.new ≡ writer.old ⌢ (line letter.now ⌢ number digits)) }
{
    writer.put(letter)?;
    writer.number(u64::from(digits))
}
