//! What a search found (RFC 9051, section 7.3.4; RFC 3501, section 7.2.5).
#![tactic(auto, using(crate::proofs::TextChains::text_assoc, crate::proofs::TextChains::text_nil))]

ghost use Rattle.std.specs.Prelude.{◌≡◌, ◌+◌, ◌-◌, ◌≤◌, ◌<◌, ◌^◌, OnOk, codes, true, false};
ghost use Rattle.imap_model.specs.Lines.{IsSpelled};
ghost use Rattle.imap_model.specs.declared.response.Response.TheVariants as responses;
ghost use Rattle.uid_sets.specs.UidSet.{IsCanonical};
ghost use Rattle.response_lines.specs.LineTexts.{◌⌢◌, all_text, count_text, found_text, members_text};

use crate::texts::{put, put_number, put_set, put_tag};
use mail_base::Tag;
use std::alloc::AllocError;
use uid_sets::{UidRange, UidSet};

/// Puts SEARCH behind the bytes.
pub fn put_search(out: &mut Vec<u8>, tag: Tag, uids: &UidSet) -> Result<(), AllocError>
    ensures text { OnOk result (out.new.items ≡ out.old.items ⌢ found_text true tag uids.now) }
    ensures spelled { OnOk result (IsSpelled (responses.Found uids.now) (found_text true tag uids.now)) }
{
    put(out, b"* SEARCH")?;
    put_members(out, uids.ranges())
}

// Each member, a space before it.
fn put_members(out: &mut Vec<u8>, ranges: &[UidRange]) -> Result<(), AllocError>
    ensures { OnOk result (out.new.items ≡ out.old.items ⌢ members_text ranges.now) }
{
    for range in ranges {
        put_range(out, *range)?;
    }
    Ok(())
}

fn put_range(out: &mut Vec<u8>, range: UidRange) -> Result<(), AllocError>
    ensures { OnOk result (out.new.items ≡ out.old.items ⌢ count_text range.low (range.high + 1 - range.low)) }
{
    let least = u64::from(range.low);
    let behind = u64::from(range.high) + 1;
    put_count(out, least, behind.saturating_sub(least))
}

// So many numbers from this one on, a space before each.
fn put_count(out: &mut Vec<u8>, least: u64, count: u64) -> Result<(), AllocError>
    requires { least + count ≤ 2 ^ 32 }
    ensures { OnOk result (out.new.items ≡ out.old.items ⌢ count_text least count) }
{
    for step in 0..count {
        put(out, b" ")?;
        put_number(out, least + step)?;
    }
    Ok(())
}

/// Puts ESEARCH behind the bytes. An empty set isn't told (RFC 9051, section 7.3.4).
pub fn put_extended(out: &mut Vec<u8>, tag: Tag, uids: &UidSet) -> Result<(), AllocError>
    ensures text { OnOk result (out.new.items ≡ out.old.items ⌢ found_text false tag uids.now) }
    ensures spelled { OnOk result (IsSpelled (responses.Found uids.now) (found_text false tag uids.now)) }
{
    put(out, b"* ESEARCH (TAG \"")?;
    put_tag(out, tag)?;
    put(out, b"\") UID")?;
    put_all(out, uids)
}

fn put_all(out: &mut Vec<u8>, uids: &UidSet) -> Result<(), AllocError>
    ensures text { OnOk result (out.new.items ≡ out.old.items ⌢ all_text uids.now) }
    ensures canonical { IsCanonical uids.now }
{
    if uids.ranges().is_empty() {
        return Ok(());
    }
    put(out, b" ALL ")?;
    put_set(out, uids)
}
