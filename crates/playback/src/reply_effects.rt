//! How a command of an action ended, by its reply (RFC 9051, sections 6.3.12 and 6.4.8; RFC 7162, section 3.1.3;
//! RFC 4315, section 3).

ghost use Rattle.mailbox_cache.specs.Rows.{has_uid};
ghost use Rattle.playback.specs.Replying.{copied_code, copied_in, done_at, ended, last_copied, names_modified, one_of};
ghost use Rattle.playback.specs.Replying.{place_if, read_append, read_copied, read_move, read_store};
ghost use Rattle.std.specs.Option.{option_copied};
ghost use Rattle.std.specs.Prelude.{◌≡◌};
ghost use Rattle.action_queue.specs.declared.outcome.Outcome.TheVariants as outcomes;

use crate::Finding;
use crate::reply_rows::{last_fetch, names_uid};
use action_queue::{Kind, Outcome, Place};
use imap_model::{Code, Ending, Item, Replies, Response};
use mail_base::{ModSeq, Validity};
use uid_sets::{Uid, UidSet};

/// The reply to a STORE on condition of a mod-sequence. MODIFIED comes first, also in a NO or a BAD. An OK without a
/// row of the message says that it isn't there.
pub(crate) fn stored(uid: Uid, mark: ModSeq, resumed: bool, replies: &Replies) -> Finding
    ensures { result ≡ read_store uid mark resumed replies.now }
{
    if names_modified(uid, &replies.code) {
        return conflict(Kind::FlagsChanged { m: mark });
    }
    match replies.ending {
        Ending::No => conflict(Kind::RefusedNo),
        Ending::Bad => conflict(Kind::RefusedBad),
        Ending::Ok => {
            if last_fetch(uid, replies.untagged.as_slice()).is_some() {
                return Finding::Ended(Outcome::Done { place: None });
            }
            conflict(if resumed {
                Kind::GoneAfterLoss
            } else {
                Kind::MessageGone
            })
        }
    }
}

/// The reply to a MOVE. An OK without COPYUID says that the message isn't there.
pub(crate) fn moved(uid: Uid, resumed: bool, replies: &Replies) -> Result<Finding, Item>
    ensures { result ≡ read_move uid resumed replies.now }
{
    match replies.ending {
        Ending::No => Ok(conflict(Kind::RefusedNo)),
        Ending::Bad => Ok(conflict(Kind::RefusedBad)),
        Ending::Ok => match last_copied(replies.untagged.as_slice(), &replies.code) {
            Some(code) => copied(uid, code),
            None => Ok(conflict(if resumed {
                Kind::SourceGone
            } else {
                Kind::MessageGone
            })),
        },
    }
}

/// The reply to an APPEND. An OK tells in APPENDUID where the message is.
pub(crate) fn appended(replies: &Replies) -> Result<Finding, Item>
    ensures { result ≡ read_append replies.now }
{
    match replies.ending {
        Ending::No => Ok(conflict(Kind::RefusedNo)),
        Ending::Bad => Ok(conflict(Kind::RefusedBad)),
        Ending::Ok => match &replies.code {
            Code::AppendUid { validity, uid } => Ok(done_at(*validity, *uid)),
            _ => Err(Item::AppendUid),
        },
    }
}

fn conflict(kind: Kind) -> Finding
    ensures { result ≡ ended (outcomes.Conflict kind) }
{
    Finding::Ended(Outcome::Conflict(kind))
}

fn done_at(validity: Validity, uid: Uid) -> Finding
    ensures { result ≡ done_at validity uid }
{
    Finding::Ended(Outcome::Done {
        place: Some(Place { validity, uid }),
    })
}

// Whether the code is MODIFIED and names this UID.
fn names_modified(uid: Uid, code: &Code) -> bool
    ensures { result ≡ names_modified uid code.now }
{
    match code {
        Code::Modified(uids) => has_uid(uids, uid),
        _ => false,
    }
}

fn has_uid(uids: &UidSet, uid: Uid) -> bool
    ensures { result ≡ has_uid uids.now uid }
{
    uids.contains(uid)
}

// Of several COPYUIDs in untagged OKs and in the completion the one that is told last.
fn last_copied<'a>(told: &'a [Response], completion: &'a Code) -> Option<&'a Code>
    ensures { option_copied result ≡ last_copied told.now completion.now }
{
    let mut last = None;
    let mut rest = told;
    while let Some((response, behind)) = rest.split_first() {
        if let Some(code) = copied_in(response) {
            last = Some(code);
        }
        rest = behind;
    }
    match copied_code(completion) {
        Some(code) => Some(code),
        None => last,
    }
}

// The COPYUID of an untagged OK.
fn copied_in(response: &Response) -> Option<&Code>
    ensures { option_copied result ≡ copied_in response.now }
{
    match response {
        Response::Untagged {
            ending: Ending::Ok,
            code,
        } => copied_code(code),
        _ => None,
    }
}

fn copied_code(code: &Code) -> Option<&Code>
    ensures { option_copied result ≡ copied_code code.now }
{
    match code {
        Code::CopyUid { .. } => Some(code),
        _ => None,
    }
}

// Where the one message went, where the source is this UID alone.
fn copied(uid: Uid, code: &Code) -> Result<Finding, Item>
    ensures { result ≡ read_copied uid code.now }
{
    match code {
        Code::CopyUid {
            validity,
            source,
            target,
        } => place_if(names_uid(uid, one_of(source)), *validity, one_of(target)),
        _ => Err(Item::CopyUid),
    }
}

// The one UID of a set, if it has one.
fn one_of(uids: &UidSet) -> Option<Uid>
    ensures { result ≡ one_of uids.now }
{
    let _canonical = uids.ranges();
    uids.only()
}

// The place of the one message that was copied, where the source is its UID alone.
fn place_if(is_source: bool, validity: Validity, target: Option<Uid>) -> Result<Finding, Item>
    ensures { result ≡ place_if is_source validity target }
{
    if !is_source {
        return Err(Item::CopyUid);
    }
    match target {
        Some(uid) => Ok(done_at(validity, uid)),
        None => Err(Item::CopyUid),
    }
}
