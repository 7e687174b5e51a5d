//! What the types of a command's values keep, told where each value is read (RFC 9051, section 9).

ghost use Rattle.std.specs.Str.{IsUtf8};
ghost use Rattle.flag_set.specs.FlagSet.{IsFlagSet};
ghost use Rattle.mail_base.specs.BoxName.{IsBoxName};
ghost use Rattle.uid_sets.specs.UidSet.{IsCanonical};
ghost use Rattle.imap_model.specs.Held.{IsHeld, IsHeldAccount, IsHeldMark, IsModSeq, IsNonzero32};
ghost use Rattle.imap_model.specs.OneText.{IsKeptTag, IsText};

use flag_set::FlagSet;
use imap_model::{Command, Mark};
use mail_base::{Account, BoxName, ModSeq, Tag, Validity};
use uid_sets::{Uid, UidSet};

// Nothing here changes anything: each function reads a value, and hands on what the value's type tells then.

/// A program can hold the command, since it holds it here.
pub fn command_fits(command: &Command)
    ensures { IsHeld command.now }
{
    match command {
        Command::Login { account } | Command::Plain { account } => account_fits(account),
        Command::Select { name, since } => {
            name_fits(name);
            mark_fits(*since);
        }
        Command::FetchRow { uid } | Command::FetchText { uid } | Command::Expunge { uid } => {
            uid_fits(*uid)
        }
        Command::Search { from, id } => {
            uid_fits(*from);
            text_fits(id.as_slice());
        }
        Command::FetchIds { uids } => uids_fit(uids),
        Command::Store {
            uid,
            since,
            flags,
            ..
        } => {
            uid_fits(*uid);
            modseq_fits(*since);
            flags_fit(flags);
        }
        Command::Shift { uid, to } | Command::Copy { uid, to } => {
            uid_fits(*uid);
            name_fits(to);
        }
        Command::Append { to, flags, text } => {
            name_fits(to);
            flags_fit(flags);
            text_fits(text.as_slice());
        }
        Command::Capability | Command::Enable { .. } | Command::FetchAll | Command::Logout => (),
    }
}

/// The tag's number is one of a `u32`.
pub fn tag_fits(tag: Tag)
    ensures { IsKeptTag tag }
{
    match tag {
        Tag::Play(_) => (),
        Tag::Again { .. } => (),
        Tag::Count(_) => (),
        Tag::Strange => (),
    }
}

fn account_fits(account: &Account)
    ensures { IsHeldAccount account.now }
{
    str_fits(account.user());
    str_fits(account.password());
}

fn str_fits(text: &str)
    ensures text { IsText text.now }
    ensures utf8 { IsUtf8 text.now }
{
    text_fits(text.as_bytes());
}

fn uid_fits(uid: Uid)
    ensures { IsNonzero32 uid }
{
    let _ = uid.number();
}

fn modseq_fits(modseq: ModSeq)
    ensures { IsModSeq modseq }
{
    let _ = modseq.number();
}

fn mark_fits(since: Option<Mark>)
    ensures { IsHeldMark since }
{
    let Some(mark) = since else {
        return;
    };
    validity_fits(mark.validity);
    modseq_fits(mark.modseq);
}

fn validity_fits(validity: Validity)
    ensures { IsNonzero32 validity }
{
    let _ = validity.number();
}

fn name_fits(name: &BoxName)
    ensures { IsBoxName name.now }
{
    let _ = name.as_bytes();
}

fn uids_fit(uids: &UidSet)
    ensures { IsCanonical uids.now }
{
    let _ = uids.ranges();
}

fn flags_fit(flags: &FlagSet)
    ensures { IsFlagSet flags.now }
{
    let _ = flags.keys();
}

fn text_fits(text: &[u8])
    ensures { IsText text.now }
{
    let _ = text.len();
}
