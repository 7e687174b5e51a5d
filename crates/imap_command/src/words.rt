//! The words of each command, between its tag and its end (RFC 9051, section 6; RFC 7162, sections 3.1.3 and 3.2.5;
//! RFC 4315, section 2.1).
#![tactic(auto, using(imap_model::proofs::Joining::parts_assoc, imap_model::proofs::Joining::parts_nil))]

ghost use Rattle.std.specs.Prelude.{◌≡◌, Some, IfOk, OnOk, string_bytes};
ghost use Rattle.imap_model.specs.CommandText.{command_parts, mark_parts, response_of, sign};
ghost use Rattle.imap_model.specs.CommandParts.{line, ◌⌢◌};
ghost use Rattle.imap_model.specs.declared.command.Command.TheVariants as commands;

use crate::writer::Writer;
use base64::engine::general_purpose::STANDARD;
use flag_set::FlagSet;
use imap_model::{Command, Mark};
use mail_base::{Account, BoxName, Bytes, ModSeq};
use std::alloc::{AllocError, Global};
use uid_sets::{Uid, UidSet};

/// Writes the words of a command.
pub fn put_words(writer: &mut Writer, alloc: Global, command: &Command) -> Result<(), AllocError>
    ensures { OnOk result (writer.new ≡ writer.old ⌢ command_parts command.now) }
{
    match command {
        Command::Capability => writer.put(b"CAPABILITY"),
        Command::Login { account } => put_login(writer, account),
        Command::Plain { account } => put_plain(writer, alloc, account),
        Command::Enable { rev2 } => put_enable(writer, *rev2),
        Command::Select { name, since } => put_select(writer, name, *since),
        Command::FetchAll => writer.put(b"UID FETCH 1:* (UID FLAGS MODSEQ)"),
        Command::FetchRow { uid } => put_fetch_row(writer, *uid),
        Command::Search { from, id } => put_search(writer, *from, id),
        Command::FetchIds { uids } => put_fetch_ids(writer, uids),
        Command::FetchText { uid } => put_fetch_text(writer, *uid),
        Command::Store {
            uid,
            since,
            add,
            flags,
        } => put_store(writer, *uid, *since, *add, flags),
        Command::Shift { uid, to } => put_shift(writer, *uid, to),
        Command::Copy { uid, to } => put_copy(writer, *uid, to),
        Command::Expunge { uid } => put_expunge(writer, *uid),
        Command::Append { to, flags, text } => put_append(writer, to, flags, text),
        Command::Logout => writer.put(b"LOGOUT"),
    }
}

fn put_login(writer: &mut Writer, account: &Account) -> Result<(), AllocError>
    ensures { OnOk result (writer.new ≡ writer.old ⌢ command_parts (commands.Login account.now)) }
{
    writer.put(b"LOGIN ")?;
    writer.astring(account.user().as_bytes())?;
    writer.put(b" ")?;
    writer.astring(account.password().as_bytes())
}

// The response comes as a part of its own, and no initial response is sent, which wants a capability (RFC 4959).
fn put_plain(writer: &mut Writer, alloc: Global, account: &Account) -> Result<(), AllocError>
    ensures { OnOk result (writer.new ≡ writer.old ⌢ command_parts (commands.Plain account.now)) }
{
    writer.put(b"AUTHENTICATE PLAIN")?;
    writer.wait(Vec::new(alloc))?;
    let text = response(alloc, account)?;
    writer.put(text.as_bytes())
}

// The base64 text of NUL, user, NUL, password (RFC 4616, section 2).
fn response(alloc: Global, account: &Account) -> Result<String, AllocError>
    ensures { IfOk result (λ text. string_bytes text ≡ response_of account.now) }
{
    let mut message = Vec::new(alloc);
    message.push(0)?;
    message.extend_from_slice(account.user().as_bytes())?;
    message.push(0)?;
    message.extend_from_slice(account.password().as_bytes())?;
    STANDARD.encode(alloc, &message)
}

fn put_select(writer: &mut Writer, name: &BoxName, since: Option<Mark>) -> Result<(), AllocError>
    ensures { OnOk result (writer.new ≡ writer.old ⌢ command_parts (commands.Select name.now since)) }
{
    writer.put(b"SELECT ")?;
    writer.astring(name.as_bytes())?;
    match since {
        None => Ok(()),
        Some(mark) => put_mark(writer, mark),
    }
}

fn put_mark(writer: &mut Writer, mark: Mark) -> Result<(), AllocError>
    ensures { OnOk result (writer.new ≡ writer.old ⌢ mark_parts (Some mark)) }
{
    writer.put(b" (QRESYNC (")?;
    writer.number(u64::from(mark.validity.number()))?;
    writer.put(b" ")?;
    writer.modseq(mark.modseq)?;
    writer.put(b"))")
}

fn put_fetch_row(writer: &mut Writer, uid: Uid) -> Result<(), AllocError>
    ensures { OnOk result (writer.new ≡ writer.old ⌢ command_parts (commands.FetchRow uid)) }
{
    writer.put(b"UID FETCH ")?;
    writer.uid(uid)?;
    writer.put(b" (UID FLAGS MODSEQ)")
}

fn put_search(writer: &mut Writer, from: Uid, id: &Bytes) -> Result<(), AllocError>
    ensures { OnOk result (writer.new ≡ writer.old ⌢ command_parts (commands.Search from id.now)) }
{
    writer.put(b"UID SEARCH UID ")?;
    writer.uid(from)?;
    writer.put(b":* HEADER Message-ID ")?;
    writer.astring(id.as_slice())
}

fn put_fetch_ids(writer: &mut Writer, uids: &UidSet) -> Result<(), AllocError>
    ensures { OnOk result (writer.new ≡ writer.old ⌢ command_parts (commands.FetchIds uids.now)) }
{
    writer.put(b"UID FETCH ")?;
    writer.uids(uids)?;
    writer.put(b" (UID BODY.PEEK[HEADER.FIELDS (MESSAGE-ID)])")
}

fn put_fetch_text(writer: &mut Writer, uid: Uid) -> Result<(), AllocError>
    ensures { OnOk result (writer.new ≡ writer.old ⌢ command_parts (commands.FetchText uid)) }
{
    writer.put(b"UID FETCH ")?;
    writer.uid(uid)?;
    writer.put(b" (UID BODY.PEEK[])")
}

fn put_store(
    writer: &mut Writer,
    uid: Uid,
    since: ModSeq,
    add: bool,
    flags: &FlagSet,
) -> Result<(), AllocError>
    ensures { OnOk result (writer.new ≡ writer.old ⌢ command_parts (commands.Store uid since add flags.now)) }
{
    writer.put(b"UID STORE ")?;
    writer.uid(uid)?;
    writer.put(b" (UNCHANGEDSINCE ")?;
    writer.modseq(since)?;
    writer.put(b") ")?;
    put_sign(writer, add)?;
    writer.put(b"FLAGS (")?;
    writer.flags(flags)?;
    writer.put(b")")
}

// The flags are added, or taken away.
fn put_sign(writer: &mut Writer, add: bool) -> Result<(), AllocError>
    ensures { OnOk result (writer.new ≡ writer.old ⌢ sign add) }
{
    if add {
        writer.put(b"+")
    } else {
        writer.put(b"-")
    }
}

fn put_enable(writer: &mut Writer, rev2: bool) -> Result<(), AllocError>
    ensures { OnOk result (writer.new ≡ writer.old ⌢ command_parts (commands.Enable rev2)) }
{
    if rev2 {
        return writer.put(b"ENABLE IMAP4rev2 QRESYNC");
    }
    writer.put(b"ENABLE QRESYNC")
}

fn put_shift(writer: &mut Writer, uid: Uid, to: &BoxName) -> Result<(), AllocError>
    ensures { OnOk result (writer.new ≡ writer.old ⌢ command_parts (commands.Shift uid to.now)) }
{
    writer.put(b"UID MOVE ")?;
    writer.uid(uid)?;
    writer.put(b" ")?;
    writer.astring(to.as_bytes())
}

fn put_copy(writer: &mut Writer, uid: Uid, to: &BoxName) -> Result<(), AllocError>
    ensures { OnOk result (writer.new ≡ writer.old ⌢ command_parts (commands.Copy uid to.now)) }
{
    writer.put(b"UID COPY ")?;
    writer.uid(uid)?;
    writer.put(b" ")?;
    writer.astring(to.as_bytes())
}

fn put_expunge(writer: &mut Writer, uid: Uid) -> Result<(), AllocError>
    ensures { OnOk result (writer.new ≡ writer.old ⌢ command_parts (commands.Expunge uid)) }
{
    writer.put(b"UID EXPUNGE ")?;
    writer.uid(uid)
}

// Without flags the parentheses stand all the same.
fn put_append(
    writer: &mut Writer,
    to: &BoxName,
    flags: &FlagSet,
    text: &Bytes,
) -> Result<(), AllocError>
    ensures { OnOk result (writer.new ≡ writer.old ⌢ command_parts (commands.Append to.now flags.now text.now)) }
{
    writer.put(b"APPEND ")?;
    writer.astring(to.as_bytes())?;
    writer.put(b" (")?;
    writer.flags(flags)?;
    writer.put(b") ")?;
    writer.literal(text.as_slice())
}
