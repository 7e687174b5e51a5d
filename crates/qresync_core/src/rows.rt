//! The rows that a reply tells, by UID (RFC 9051, section 7.5.2; RFC 7162, section 3.1.4.2).

ghost use Rattle.std.specs.Prelude.{◌≡◌, ◌+◌, ◌<◌, ◌^◌, ◌∷◌, [], ℕ, false, None, IsTrue, IfOk, IfErr, OnOk, OnErr, length};
ghost use Rattle.std.specs.Option.{option_map};
ghost use Rattle.mailbox_cache.specs.Rows.{Rises, row_at};
ghost use Rattle.qresync_core.specs.Behind.{closed_len, behind_closed};
ghost use Rattle.qresync_core.specs.Resync.{bare_in, IsBareFault};
ghost use Rattle.qresync_core.specs.ReadRows.{told_row, is_bare, row_in, rows_in, last_row, first_bare};

use crate::ResyncFault;
use crate::behind::closed_len;
use flag_set::FlagSet;
use imap_model::{Fetched, Replies, Response};
use mail_base::ModSeq;
use mailbox_cache::Row;
use std::alloc::{AllocError, Global};
use uid_sets::Uid;

/// The rows that the reply tells behind CLOSED, rising by UID: of several rows of a UID the last one.
pub(crate) fn rows_of(alloc: Global, read: &Replies) -> Result<Vec<(Uid, Row)>, ResyncFault>
    ensures rising { IfOk result (λ rows. Rises rows.items) }
    ensures rows { IfOk result (λ rows. (uid : ℕ) → row_at uid rows.items
        ≡ last_row uid (rows_in (behind_closed read.now.untagged))) }
    ensures whole { IfOk result (λ rows. bare_in read.now ≡ None) }
    ensures fault { IfErr result (IsBareFault (bare_in read.now)) }
{
    let responses = read.untagged.as_slice();
    let first = closed_len(responses);
    let told = told_rows(alloc, &responses[first..], first)?;
    Ok(in_order(told)?)
}

// The rows in the order in which they are told, where the first response has this number.
fn told_rows(alloc: Global, told: &[Response], first: usize) -> Result<Vec<(Uid, Row)>, ResyncFault>
    requires { first + length told.now < 2 ^ 64 }
    ensures rows { IfOk result (λ rows. rows.items ≡ rows_in told.now) }
    ensures whole { IfOk result (λ rows. first_bare first told.now ≡ None) }
    ensures fault { IfErr result (IsBareFault (first_bare first told.now)) }
{
    let mut rows = Vec::new(alloc);
    for (place, response) in told.iter().enumerate() {
        let Some(row) = told_row(response, first + place)? else {
            continue;
        };
        rows.push(row)?;
    }
    Ok(rows)
}

// The row that the response of this number tells, if it tells one.
fn told_row(response: &Response, index: usize) -> Result<Option<(Uid, Row)>, ResyncFault>
    ensures row { IfOk result (λ row. row ≡ told_row response.now) }
    ensures whole { IfOk result (λ row. is_bare response.now ≡ false) }
    ensures fault { IfErr result (IsBareFault (first_bare index (response.now ∷ []))) }
{
    let Response::Fetch(fetched) = response else {
        return Ok(None);
    };
    let Some((uid, flags, modseq)) = items_of(fetched) else {
        return Err(ResyncFault::BareRow { index });
    };
    let flags = flags.copy()?;
    Ok(Some((uid, Row { flags, modseq })))
}

// UID, FLAGS and MODSEQ, if all three are told.
fn items_of(fetched: &Fetched) -> Option<(Uid, &FlagSet, ModSeq)>
    ensures { option_map (λ items. (items.0, record { flags = items.1.now; modseq = items.2 })) result
        ≡ row_in fetched.now }
{
    let uid = fetched.uid?;
    let flags = fetched.flags.as_ref()?;
    let modseq = fetched.modseq?;
    Some((uid, flags, modseq))
}

/// Whether the response is a FETCH that is no row.
pub(crate) fn is_bare(response: &Response) -> bool
    ensures { result ≡ is_bare response.now }
{
    let Response::Fetch(fetched) = response else {
        return false;
    };
    items_of(fetched).is_none()
}

/// The row that the items of a FETCH are, if they are one. Its flags are theirs, and no copy.
pub(crate) fn row_of(fetched: Fetched) -> Option<(Uid, Row)>
    ensures { result ≡ row_in fetched }
{
    let Fetched {
        uid,
        flags,
        modseq,
        ids: _,
        text: _,
    } = fetched;
    let uid = uid?;
    let flags = flags?;
    let modseq = modseq?;
    Some((uid, Row { flags, modseq }))
}

/// Rows by UID, of several of a UID the last one.
pub(crate) fn in_order(mut rows: Vec<(Uid, Row)>) -> Result<Vec<(Uid, Row)>, AllocError>
    ensures rising { IfOk result (λ ordered. Rises ordered.items) }
    ensures rows { IfOk result (λ ordered. (uid : ℕ) → row_at uid ordered.items ≡ last_row uid rows.items) }
{
    put_in_order(&mut rows)?;
    Ok(rows)
}

/// Puts rows in order by UID, of several of a UID the last one. It costs a pass where they rise, as a server tells them as a
/// rule, and else a sort. On want of memory they stay as they are.
pub(crate) fn put_in_order(rows: &mut Vec<(Uid, Row)>) -> Result<(), AllocError>
    ensures rising { OnOk result (Rises rows.new.items) }
    ensures rows { OnOk result ((uid : ℕ) → row_at uid rows.new.items ≡ last_row uid rows.old.items) }
    ensures kept { OnErr result (rows.new.items ≡ rows.old.items) }
{
    if rises(rows) {
        return Ok(());
    }
    // The last one of a UID comes first, and a stable sort leaves it there.
    rows.reverse();
    match rows.sort_by_key(|row| row.0.number()) {
        Ok(()) => {
            rows.dedup_by_key(|row| row.0.number());
            Ok(())
        }
        Err(wanting) => {
            rows.reverse();
            Err(wanting)
        }
    }
}

// Whether each UID is above the one before it.
fn rises(rows: &[(Uid, Row)]) -> bool
    ensures { IsTrue result → Rises rows.now }
{
    let mut last = 0;
    for (uid, _) in rows {
        if uid.number() <= last {
            return false;
        }
        last = uid.number();
    }
    true
}
