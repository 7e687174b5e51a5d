//! What a command prints.

ghost use Rattle.std.specs.Prelude.{◌≡◌, ◌++◌, IfOk, OnOk, flat_map};
ghost use Rattle.mail_top.specs.Telling.{printed};
ghost use Rattle.mail_top.specs.Texts.{refused, row_line, rows_text, mark_text};
ghost use Rattle.mail_top.specs.Words.{ident_text};

use crate::Reason;
use conflict_report::{Told, put_keys, put_number};
use local_view::{Ident, Seen};
use mail_base::{Bytes, Line, ModSeq};
use std::alloc::{AllocError, Global};

/// What a command prints.
#[derive(Drop)]
pub enum Printed {
    /// A line that holds no heap memory.
    Line(Line),
    /// A line that stands in the program.
    Fixed(&'static [u8]),
    /// A line of `play`, which holds no heap memory.
    Told(Told),
    /// A text of any size.
    Text(Bytes),
}

impl Printed {
    /// The bytes.
    pub fn as_bytes(&self) -> &[u8]
        ensures { result.now ≡ printed self.now }
    {
        match self {
            Printed::Line(line) => line.as_bytes(),
            Printed::Fixed(text) => text,
            Printed::Told(line) => line.as_bytes(),
            Printed::Text(text) => text.as_slice(),
        }
    }
}

/// `refused REASON`: the command is refused by the book as it is, or by its input.
pub fn refused_line(reason: Reason) -> &'static [u8]
    ensures { result.now ≡ refused reason }
{
    match reason {
        Reason::NoMailbox => b"refused no-mailbox\n",
        Reason::NoMessage => b"refused no-message\n",
        Reason::BadFlag => b"refused bad-flag\n",
        Reason::SameMailbox => b"refused same-mailbox\n",
        Reason::QueueFull => b"refused queue-full\n",
        Reason::TooLarge => b"refused too-large\n",
        Reason::BadText => b"refused bad-text\n",
        Reason::NoMessageId => b"refused no-message-id\n",
    }
}

/// The rows of a mailbox as the user sees it, a line each: the UID, or `d` and the number of the action that makes the message;
/// the mod-sequence, or `-`; and each flag's key behind a space. Fails for want of memory alone.
pub fn rows_of(alloc: Global, rows: &[Seen]) -> Result<Bytes, AllocError>
    ensures { IfOk result (λ text. text ≡ rows_text rows.now) }
{
    let mut text = Vec::new(alloc);
    put_rows(&mut text, rows)?;
    Ok(Bytes::of(text))
}

// Adds the lines of rows.
fn put_rows(text: &mut Vec<u8>, rows: &[Seen]) -> Result<(), AllocError>
    ensures { OnOk result (text.new.items ≡ text.old.items ++ flat_map row_line rows.now) }
{
    for row in rows {
        put_row(text, row)?;
    }
    Ok(())
}

// Adds the line of a row.
#[tactic(auto, unfolding(crate::specs::Texts::row_line))]
fn put_row(text: &mut Vec<u8>, row: &Seen) -> Result<(), AllocError>
    ensures { OnOk result (text.new.items ≡ text.old.items ++ row_line row.now) }
{
    put_ident(text, row.id)?;
    text.push(b' ')?;
    put_mark(text, row.modseq)?;
    put_keys(text, row.flags.keys())?;
    text.push(b'\n')?;
    Ok(())
}

// Adds a message, as it is written.
fn put_ident(text: &mut Vec<u8>, id: Ident) -> Result<(), AllocError>
    ensures { OnOk result (text.new.items ≡ text.old.items ++ ident_text id) }
{
    match id {
        Ident::Real(uid) => put_number(text, u64::from(uid.number())),
        Ident::Dummy(id) => {
            text.push(b'd')?;
            put_number(text, u64::from(id.number()))
        }
    }
}

// Adds a mod-sequence, or `-` where there is none.
fn put_mark(text: &mut Vec<u8>, modseq: Option<ModSeq>) -> Result<(), AllocError>
    ensures { OnOk result (text.new.items ≡ text.old.items ++ mark_text modseq) }
{
    match modseq {
        Some(modseq) => put_number(text, modseq.number()),
        None => {
            text.push(b'-')?;
            Ok(())
        }
    }
}
