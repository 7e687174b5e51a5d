//! Which candidates have exactly a Message-ID (RFC 9051, sections 6.4.5 and 7.5.2; RFC 5322, section 3.6.4).

ghost use Rattle.std.specs.Prelude.{◌≡◌, ◌↔◌, ◌⊎◌, ◌≤◌, ℕ, true, IsTrue, IfOk, IfSome, IfNone};
ghost use Rattle.uid_sets.specs.UidSet.{Member};
ghost use Rattle.append_probe.specs.Marked.{has_id, IsIdentifier};
ghost use Rattle.append_probe.specs.Verdict as spec;

use crate::has_its_id;
use imap_model::{Replies, Response};
use std::alloc::{AllocError, Global};
use uid_sets::{Uid, UidSet};

/// How many of the candidates have the Message-ID, and which.
#[derive(Clone, Copy, Debug, PartialEq, Eq)]
pub enum Verdict {
    /// None: the append had no effect.
    NotThere,
    /// This one.
    There { uid: Uid },
    /// Two or more, of which these have the least UIDs.
    Several { first: Uid, second: Uid },
}

/// Which of the candidates have exactly this Message-ID in the Message-ID fields that were fetched of them. Of several
/// FETCH responses of one UID the last that has fields counts, and a candidate of which none were told doesn't match.
///
/// It walks through the responses and never through the UIDs of a range, and costs a binary search for each where the
/// UIDs of those that match rise, as a server tells them. `id` has the form of an identifier; of other bytes nothing is
/// said. Fails for want of memory alone.
pub fn verdict_of(
    alloc: Global,
    candidates: &UidSet,
    replies: &Replies,
    id: &[u8],
) -> Result<Verdict, AllocError>
    ensures { IsIdentifier id.now → IfOk result (spec.IsVerdict (spec.Matches candidates.now replies.now.untagged id.now)) }
{
    let matching = matching_in(alloc, candidates, replies.untagged.as_slice(), id)?;
    counted(alloc, &matching)
}

// The UIDs that match.
fn matching_in(
    alloc: Global,
    candidates: &UidSet,
    told: &[Response],
    id: &[u8],
) -> Result<UidSet, AllocError>
    ensures { IsIdentifier id.now → IfOk result (λ matching. (uid : ℕ)
        → Member matching uid ↔ spec.Matches candidates.now told.now id.now uid) }
{
    let mut matching = UidSet::none(alloc);
    let mut rest = told;
    while let Some((response, behind)) = rest.split_first() {
        matching = heard(alloc, matching, candidates, response, id)?;
        rest = behind;
    }
    Ok(matching)
}

// The UIDs that match after one response more.
fn heard(
    alloc: Global,
    matching: UidSet,
    candidates: &UidSet,
    response: &Response,
    id: &[u8],
) -> Result<UidSet, AllocError>
    ensures { IsIdentifier id.now → IfOk result (λ after. (uid : ℕ) → Member after uid
        ↔ spec.MatchesBy candidates.now id.now uid (Member matching uid) (spec.ids_in uid response.now)) }
{
    let Response::Fetch(fetched) = response else {
        return Ok(matching);
    };
    let Some(uid) = fetched.uid else {
        return Ok(matching);
    };
    let Some(fields) = &fetched.ids else {
        return Ok(matching);
    };
    if is_match(alloc, candidates, uid, id, fields.as_slice())? {
        with(matching, uid)
    } else {
        without(alloc, matching, uid)
    }
}

// Whether the UID is a candidate's, and the fields have the Message-ID.
fn is_match(
    alloc: Global,
    candidates: &UidSet,
    uid: Uid,
    id: &[u8],
    fields: &[u8],
) -> Result<bool, AllocError>
    ensures { IsIdentifier id.now → IfOk result (λ is. IsTrue is ↔ (Member candidates.now uid × (has_id id.now fields.now ≡ true))) }
{
    if !candidates.contains(uid) {
        return Ok(false);
    }
    has_its_id(alloc, id, fields)
}

// The set with one UID more.
fn with(mut set: UidSet, uid: Uid) -> Result<UidSet, AllocError>
    ensures { IfOk result (λ more. (other : ℕ) → Member more other ↔ (Member set other ⊎ (other ≡ uid))) }
{
    set.add(uid)?;
    Ok(set)
}

// The set without one UID, which it lacks as a rule.
fn without(alloc: Global, set: UidSet, uid: Uid) -> Result<UidSet, AllocError>
    ensures { IfOk result (λ rest. (other : ℕ) → Member rest other ↔ (Member set other × ¬ (other ≡ uid))) }
{
    if !set.contains(uid) {
        return Ok(set);
    }
    let one = with(UidSet::none(alloc), uid)?;
    set.minus(&one)
}

// How many members there are, and which are the least.
fn counted(alloc: Global, set: &UidSet) -> Result<Verdict, AllocError>
    ensures { IfOk result (spec.IsVerdict (Member set.now)) }
{
    let Some(first) = least(set) else {
        return Ok(Verdict::NotThere);
    };
    let others = without(alloc, set.copy()?, first)?;
    let Some(second) = least(&others) else {
        return Ok(Verdict::There { uid: first });
    };
    Ok(Verdict::Several { first, second })
}

// The least member.
fn least(set: &UidSet) -> Option<Uid>
    ensures some { IfSome result (λ uid. Member set.now uid × ((other : ℕ) → Member set.now other → uid ≤ other)) }
    ensures none { IfNone result ((uid : ℕ) → ¬ Member set.now uid) }
{
    let range = set.ranges().first()?;
    Uid::new(range.low)
}
