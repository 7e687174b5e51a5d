//! FETCH lines (RFC 9051, section 7.5.2; RFC 7162, section 3.1.4.2).
#![tactic(auto, using(crate::proofs::TextChains::text_assoc, crate::proofs::TextChains::text_nil))]

ghost use Rattle.std.specs.Prelude.{◌≡◌, ◌<◌, ◌^◌, Some, None, OnOk, length, codes, decimal};
ghost use Rattle.flag_set.specs.FlagSet.{IsFlagSet};
ghost use Rattle.imap_model.specs.Held.{IsModSeq, IsNonzero32};
ghost use Rattle.response_lines.specs.LineTexts.{◌⌢◌, flags_text, ids_front, items_text, literal_text, row_text, text_front};
ghost use Rattle.response_lines.specs.Tellable.{IsTellableRow, RowFits};

use crate::texts::{put, put_flags, put_flags_with, put_modseq, put_number, put_uid};
use flag_set::FlagSet;
use imap_model::Fetched;
use mail_base::{Bytes, ModSeq};
use std::alloc::AllocError;
use uid_sets::Uid;

/// Puts what stands behind the parenthesis of a FETCH behind the bytes. With `older` the flag `\Recent` comes last.
pub fn put_items(out: &mut Vec<u8>, older: bool, fetched: &Fetched) -> Result<(), AllocError>
    requires { IsTellableRow fetched.now.uid fetched.now.flags fetched.now.modseq fetched.now.ids fetched.now.text }
    ensures text { OnOk result (out.new.items ≡ out.old.items ⌢ items_text older fetched.now.uid fetched.now.flags fetched.now.modseq fetched.now.ids fetched.now.text) }
    ensures fits { OnOk result (RowFits fetched.now.uid fetched.now.flags fetched.now.modseq fetched.now.ids fetched.now.text) }
{
    match (
        &fetched.uid,
        &fetched.flags,
        &fetched.modseq,
        &fetched.ids,
        &fetched.text,
    ) {
        (Some(uid), Some(flags), Some(modseq), None, None) => {
            put_row(out, older, *uid, flags, *modseq)
        }
        (Some(uid), None, None, Some(ids), None) => put_ids(out, *uid, ids),
        (Some(uid), None, None, None, Some(text)) => put_whole(out, *uid, text),
        _ => unreachable!(),
    }
}

fn put_row(
    out: &mut Vec<u8>,
    older: bool,
    uid: Uid,
    flags: &FlagSet,
    modseq: ModSeq,
) -> Result<(), AllocError>
    ensures text { OnOk result (out.new.items ≡ out.old.items ⌢ row_text older uid flags.now modseq) }
    ensures fits { OnOk result (RowFits (Some uid) (Some flags.now) (Some modseq) None None) }
{
    put(out, b"UID ")?;
    put_uid(out, uid)?;
    put(out, b" FLAGS (")?;
    put_told_flags(out, older, flags)?;
    put_modseq_item(out, modseq)
}

// The mod-sequence, and the parenthesis that closes the row.
fn put_modseq_item(out: &mut Vec<u8>, modseq: ModSeq) -> Result<(), AllocError>
    ensures text { OnOk result (out.new.items ≡ out.old.items ⌢ (codes ") MODSEQ (" ⌢ decimal modseq ⌢ codes "))")) }
    ensures within { OnOk result (IsModSeq modseq) }
{
    put(out, b") MODSEQ (")?;
    put_modseq(out, modseq)?;
    put(out, b"))")
}

fn put_told_flags(out: &mut Vec<u8>, older: bool, flags: &FlagSet) -> Result<(), AllocError>
    ensures text { OnOk result (out.new.items ≡ out.old.items ⌢ flags_text older flags.now) }
    ensures set { IsFlagSet flags.now }
{
    if older {
        return put_flags_with(out, flags, b"\\Recent");
    }
    put_flags(out, flags)
}

fn put_ids(out: &mut Vec<u8>, uid: Uid, ids: &Bytes) -> Result<(), AllocError>
    ensures text { OnOk result (out.new.items ≡ out.old.items ⌢ (ids_front uid ⌢ literal_text ids.now ⌢ codes ")")) }
    ensures fits { OnOk result (RowFits (Some uid) None None (Some ids.now) None) }
{
    put_ids_front(out, uid)?;
    put_literal(out, ids.as_slice())?;
    put(out, b")")
}

fn put_ids_front(out: &mut Vec<u8>, uid: Uid) -> Result<(), AllocError>
    ensures text { OnOk result (out.new.items ≡ out.old.items ⌢ ids_front uid) }
    ensures nonzero { OnOk result (IsNonzero32 uid) }
{
    put(out, b"UID ")?;
    put_uid(out, uid)?;
    put(out, b" BODY[HEADER.FIELDS (MESSAGE-ID)] ")
}

fn put_whole(out: &mut Vec<u8>, uid: Uid, text: &Bytes) -> Result<(), AllocError>
    ensures text { OnOk result (out.new.items ≡ out.old.items ⌢ (text_front uid ⌢ literal_text text.now ⌢ codes ")")) }
    ensures fits { OnOk result (RowFits (Some uid) None None None (Some text.now)) }
{
    put_text_front(out, uid)?;
    put_literal(out, text.as_slice())?;
    put(out, b")")
}

fn put_text_front(out: &mut Vec<u8>, uid: Uid) -> Result<(), AllocError>
    ensures text { OnOk result (out.new.items ≡ out.old.items ⌢ text_front uid) }
    ensures nonzero { OnOk result (IsNonzero32 uid) }
{
    put(out, b"UID ")?;
    put_uid(out, uid)?;
    put(out, b" BODY[] ")
}

// A literal, whatever the octets are.
fn put_literal(out: &mut Vec<u8>, octets: &[u8]) -> Result<(), AllocError>
    ensures text { OnOk result (out.new.items ≡ out.old.items ⌢ literal_text octets.now) }
    ensures short { length octets.now < 2 ^ 64 }
{
    let count = octets.len() as u64;
    put(out, b"{")?;
    put_number(out, count)?;
    put(out, b"}\r\n")?;
    put(out, octets)
}
