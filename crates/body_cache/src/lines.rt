//! The printed lines.

ghost use Rattle.std.specs.Fmt.{signed_decimal};
ghost use Rattle.std.specs.Prelude.{◌≡◌, ◌++◌, IfOk, OnOk, Some};
ghost use Rattle.body_cache.specs.Lines.{date_line, error_validity, kept_line, refused};

use crate::dates::date_of;
use crate::{Key, ReadReason};
use conflict_report::put_number;
use itoa::Buffer;
use mail_base::{Bytes, Validity};
use std::alloc::{AllocError, Global};
use uid_sets::Uid;

/// `kept N`: a text of so many bytes was fetched, and is kept.
pub fn kept_line(alloc: Global, text: &[u8]) -> Result<Bytes, AllocError>
    ensures { IfOk result (λ line. line ≡ kept_line text.now) }
{
    let mut line = Vec::new(alloc);
    line.extend_from_slice(b"kept ")?;
    put_number(&mut line, text.len() as u64)?;
    line.push(b'\n')?;
    Ok(Bytes::of(line))
}

/// `error validity BOX KEPT TOLD`: the mailbox has another UIDVALIDITY than its cache.
pub fn error_validity(alloc: Global, key: &Key, told: Validity) -> Result<Bytes, AllocError>
    ensures { IfOk result (λ line. line ≡ error_validity key.now.name key.now.validity told) }
{
    let mut line = Vec::new(alloc);
    line.extend_from_slice(b"error validity ")?;
    line.extend_from_slice(key.name.as_bytes())?;
    line.push(b' ')?;
    put_number(&mut line, u64::from(key.validity.number()))?;
    line.push(b' ')?;
    put_number(&mut line, u64::from(told.number()))?;
    line.push(b'\n')?;
    Ok(Bytes::of(line))
}

/// `refused REASON`: the text can't be had.
pub fn refused_line(reason: ReadReason) -> &'static [u8]
    ensures { result.now ≡ refused reason }
{
    match reason {
        ReadReason::NoMailbox => b"refused no-mailbox\n",
        ReadReason::NoMessage => b"refused no-message\n",
        ReadReason::NotKept => b"refused not-kept\n",
        ReadReason::Gone => b"refused gone\n",
    }
}

/// Adds the line of a message whose text is kept: its UID, and the seconds of the text's date or `-`. Fails for want of memory alone.
pub fn put_date_line(
    lines: &mut Vec<u8>,
    alloc: Global,
    uid: Uid,
    text: &[u8],
) -> Result<(), AllocError>
    ensures { OnOk result (lines.new.items ≡ lines.old.items ++ date_line uid (Some text.now)) }
{
    let date = date_of(alloc, text)?;
    put_number(lines, u64::from(uid.number()))?;
    lines.push(b' ')?;
    match date {
        Some(seconds) => put_signed(lines, seconds)?,
        None => lines.push(b'-')?,
    }
    lines.push(b'\n')?;
    Ok(())
}

// Adds a number with its sign.
fn put_signed(text: &mut Vec<u8>, number: i64) -> Result<(), AllocError>
    ensures { OnOk result (text.new.items ≡ text.old.items ++ signed_decimal number) }
{
    let mut buffer = Buffer::new();
    text.extend_from_slice(buffer.format(number).as_bytes())
}
