//! The row of a message in a reply (RFC 9051, section 7.5.2).

ghost use Rattle.playback.specs.Replying.{fetch_of, last_fetch, names_uid};
ghost use Rattle.std.specs.Option.{option_copied};
ghost use Rattle.std.specs.Prelude.{◌≡◌};

use imap_model::{Fetched, Response};
use uid_sets::Uid;

/// Of several FETCH responses that name this UID the one that is told last.
pub(crate) fn last_fetch(uid: Uid, told: &[Response]) -> Option<&Fetched>
    ensures { option_copied result ≡ last_fetch uid told.now }
{
    let mut last = None;
    let mut rest = told;
    while let Some((response, behind)) = rest.split_first() {
        if let Some(fetched) = fetch_of(uid, response) {
            last = Some(fetched);
        }
        rest = behind;
    }
    last
}

// The FETCH of this UID that the response is, if it is one.
fn fetch_of(uid: Uid, response: &Response) -> Option<&Fetched>
    ensures { option_copied result ≡ fetch_of uid response.now }
{
    match response {
        Response::Fetch(fetched) => {
            if names_uid(uid, fetched.uid) {
                Some(fetched)
            } else {
                None
            }
        }
        _ => None,
    }
}

/// Whether it is this UID that was told.
pub(crate) fn names_uid(uid: Uid, told: Option<Uid>) -> bool
    ensures { result ≡ names_uid uid told }
{
    match told {
        None => false,
        Some(other) => other.number() == uid.number(),
    }
}
