//! The UIDs that a reply tells to be gone (RFC 7162, section 3.2.10).

ghost use Rattle.std.specs.Prelude.{◌≡◌, ◌&&◌, ℕ, IfOk, is_some, is_none};
ghost use Rattle.mailbox_cache.specs.Rows.{has_uid, row_at};
ghost use Rattle.qresync_core.specs.ToldGone.{is_told_gone, tells_gone};

use imap_model::Response;
use mailbox_cache::Row;
use std::alloc::{AllocError, Global};
use uid_sets::{Uid, UidSet};

/// The UIDs that are told to be gone, but those of the rows.
pub(crate) fn gone_in(
    alloc: Global,
    told: &[Response],
    rows: &[(Uid, Row)],
) -> Result<UidSet, AllocError>
    ensures { IfOk result (λ gone. (uid : ℕ) → has_uid gone uid
        ≡ (is_told_gone told.now uid && is_none (row_at uid rows.now))) }
{
    let gone = told_gone(alloc, told)?;
    gone.minus(&uids_of(alloc, rows)?)
}

// The UIDs that are told to be gone: those of either half, so that many lines of few UIDs each cost no walk over all.
fn told_gone(alloc: Global, told: &[Response]) -> Result<UidSet, AllocError>
    ensures { IfOk result (λ gone. (uid : ℕ) → has_uid gone uid ≡ is_told_gone told.now uid) }
{
    match told {
        [] => Ok(UidSet::none(alloc)),
        [response] => gone_by(alloc, response),
        _ => {
            let (front, back) = told.split_at(told.len() / 2);
            told_gone(alloc, front)?.union(&told_gone(alloc, back)?)
        }
    }
}

fn gone_by(alloc: Global, response: &Response) -> Result<UidSet, AllocError>
    ensures { IfOk result (λ gone. (uid : ℕ) → has_uid gone uid ≡ tells_gone uid response.now) }
{
    match response {
        Response::Vanished { uids, .. } => uids.copy(),
        _ => Ok(UidSet::none(alloc)),
    }
}

/// The UIDs of rows, each in constant time where they rise.
pub(crate) fn uids_of(alloc: Global, rows: &[(Uid, Row)]) -> Result<UidSet, AllocError>
    ensures { IfOk result (λ uids. (uid : ℕ) → has_uid uids uid ≡ is_some (row_at uid rows.now)) }
{
    let mut uids = UidSet::none(alloc);
    for (uid, _) in rows {
        uids.add(*uid)?;
    }
    Ok(uids)
}
