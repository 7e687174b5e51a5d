//! The delta that the replies to a resynchronisation tell (RFC 7162, sections 3.2.5 and 3.2.5.1).

ghost use Rattle.std.specs.Prelude.{◌≡◌, ℕ, None, Some, IfOk, IfErr, OnOk};
ghost use Rattle.std.specs.Option.{option_copied};
ghost use Rattle.mailbox_cache.specs.Rows.{has_uid, row_at};
ghost use Rattle.qresync_core.specs.Fitting.{Fits};
ghost use Rattle.qresync_core.specs.Resync.{TellsDelta, HasFault};
ghost use Rattle.qresync_core.specs.Resync.{kept_fault, is_told_empty, gone_beside};
ghost use Rattle.qresync_core.specs.ToldGone.{tells_empty};

use crate::behind::behind_closed;
use crate::gone::gone_in;
use crate::rows::rows_of;
use crate::{Codes, ResyncFault, codes_of};
use imap_model::{Replies, Response};
use mail_base::List;
use mailbox_cache::{Cache, Delta, Row};
use std::alloc::{AllocError, Global};
use uid_sets::{Uid, UidSet};

/// What the replies to a SELECT tell of a mailbox, of which this cache was kept or nothing; `all` is the reply to the
/// FETCH of all rows, which is due where nothing was kept and the mailbox isn't told to be empty. It costs a few
/// passes over the replies, and a sort where the rows don't rise or many VANISHED are told.
pub fn delta_of(
    alloc: Global,
    kept: Option<&Cache>,
    selected: &Replies,
    all: Option<&Replies>,
) -> Result<Delta, ResyncFault>
    ensures value { IfOk result (TellsDelta (option_copied kept.entry) selected.now
        (option_copied all.entry)) }
    ensures fault { IfErr result (HasFault (option_copied kept.entry) selected.now
        (option_copied all.entry)) }
    // Whatever the server told, the delta is one for this cache.
    ensures fits { IfOk result (λ delta. Fits (option_copied kept.entry) delta) }
{
    let codes = codes_of(selected)?;
    check(kept, &codes)?;
    let rows = rows_of(alloc, all.unwrap_or(selected))?;
    let vanished = gone_since(alloc, kept, selected, &rows)?;
    Ok(Delta {
        whole: kept.is_none(),
        validity: codes.validity,
        highest: codes.highest,
        uidnext: codes.uidnext,
        vanished,
        rows: List::of(rows),
    })
}

/// Whether the reply to a SELECT tells that the mailbox is empty, so that no FETCH of its rows is due (EXISTS 0;
/// RFC 9051, section 7.4.1).
pub fn is_told_empty(selected: &Replies) -> bool
    ensures { result ≡ is_told_empty selected.now }
{
    behind_closed(selected.untagged.as_slice())
        .iter()
        .any(tells_empty)
}

/// EXISTS 0.
pub(crate) fn tells_empty(response: &Response) -> bool
    ensures { result ≡ tells_empty response.now }
{
    matches!(response, Response::Exists(0))
}

/// Whether the numbers that were told go on from those of the cache.
pub(crate) fn check(kept: Option<&Cache>, codes: &Codes) -> Result<(), ResyncFault>
    ensures fits { OnOk result (kept_fault (option_copied kept.entry) codes.now ≡ None) }
    ensures fault { IfErr result (λ fault. kept_fault (option_copied kept.entry) codes.now ≡ Some fault) }
{
    let Some(cache) = kept else {
        return Ok(());
    };
    if cache.validity.number() != codes.validity.number() {
        return Err(ResyncFault::Validity {
            kept: cache.validity,
            told: codes.validity,
        });
    }
    if codes.highest.number() < cache.highest.number() {
        return Err(ResyncFault::Unfit {
            kept: cache.highest,
            told: codes.highest,
        });
    }
    Ok(())
}

// The UIDs that are gone: none where nothing was kept.
fn gone_since(
    alloc: Global,
    kept: Option<&Cache>,
    selected: &Replies,
    rows: &[(Uid, Row)],
) -> Result<UidSet, AllocError>
    ensures { IfOk result (λ gone. (uid : ℕ) → has_uid gone uid
        ≡ gone_beside (option_copied kept.entry) selected.now (row_at uid rows.now) uid) }
{
    if kept.is_none() {
        return Ok(UidSet::none(alloc));
    }
    gone_in(alloc, behind_closed(selected.untagged.as_slice()), rows)
}
