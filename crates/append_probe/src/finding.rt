//! The messages that a search for a lost append found (RFC 9051, sections 6.4.4 and 7.3.4).

ghost use Rattle.std.specs.Prelude.{◌↔◌, ℕ, IfOk};
ghost use Rattle.uid_sets.specs.UidSet.{Member};
ghost use Rattle.append_probe.specs.Candidates.{AreCandidates, Finds, IsFound};

use imap_model::{Replies, Response};
use std::alloc::{AllocError, Global};
use uid_sets::{Uid, UidSet};

/// The UIDs that were found, but those below `uidnext`: a search of `n:*` may find the last message, whichever UID it
/// has (RFC 9051, section 9, seq-range). Fails for want of memory alone.
pub fn candidates(alloc: Global, uidnext: Uid, replies: &Replies) -> Result<UidSet, AllocError>
    ensures { IfOk result (AreCandidates uidnext replies.now.untagged) }
{
    found_in(alloc, replies.untagged.as_slice())?.from(uidnext)
}

// The UIDs that are told to be found: those of either half, so that many lines of few UIDs each cost no walk over all.
fn found_in(alloc: Global, told: &[Response]) -> Result<UidSet, AllocError>
    ensures { IfOk result (λ found. (uid : ℕ) → Member found uid ↔ IsFound uid told.now) }
{
    match told {
        [] => Ok(UidSet::none(alloc)),
        [response] => found_by(alloc, response),
        _ => {
            let (front, back) = told.split_at(told.len() / 2);
            found_in(alloc, front)?.union(&found_in(alloc, back)?)
        }
    }
}

fn found_by(alloc: Global, response: &Response) -> Result<UidSet, AllocError>
    ensures { IfOk result (λ found. (uid : ℕ) → Member found uid ↔ Finds uid response.now) }
{
    match response {
        Response::Found(uids) => uids.copy(),
        _ => Ok(UidSet::none(alloc)),
    }
}
