//! What of a reply to SELECT speaks of the mailbox that is selected by it (RFC 9051, section 6.3.2; RFC 7162,
//! section 3.2.11).

ghost use Rattle.std.specs.Prelude.{◌≡◌, ◌≤◌, length};
ghost use Rattle.qresync_core.specs.Behind.{is_closed, closed_len, behind_closed};

use imap_model::{Code, Response};

/// What stands behind the last CLOSED, and all where there is none.
pub(crate) fn behind_closed(told: &[Response]) -> &[Response]
    ensures { result.now ≡ behind_closed told.now }
{
    &told[closed_len(told)..]
}

/// How many responses stand up to the last CLOSED, itself among them.
pub(crate) fn closed_len(told: &[Response]) -> usize
    ensures value { result ≡ closed_len told.now }
    ensures within { result ≤ length told.now }
{
    let mut len = 0;
    for (place, response) in told.iter().enumerate() {
        if !is_closed(response) {
            continue;
        }
        len = place + 1;
    }
    len
}

/// Whether the response is CLOSED, the code of an untagged OK, NO or BAD.
pub(crate) fn is_closed(response: &Response) -> bool
    ensures { result ≡ is_closed response.now }
{
    matches!(
        response,
        Response::Untagged {
            code: Code::Closed,
            ..
        }
    )
}
