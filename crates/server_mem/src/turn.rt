//! What a command comes to, before anything changes.

ghost use Rattle.std.specs.Prelude.{◌≡◌, [], IfOk};
ghost use Rattle.imap_model.specs.PlainServer as plain;

use imap_model::{Code, Deed, Ending, Mailbox, Replies, Response};
use mail_base::{BoxName, List};
use std::alloc::Global;

/// The mailboxes after a change, and the change as the history keeps it.
#[derive(Drop)]
pub struct Made {
    pub boxes: List<Mailbox>,
    pub deed: Deed,
}

/// The replies to a command, the change that it makes, if any, and what is selected then.
#[derive(Drop)]
pub struct Turn {
    pub replies: Replies,
    pub made: Option<Made>,
    pub selected: Option<BoxName>,
}

/// An OK.
pub fn accepted(untagged: List<Response>, code: Code) -> Replies
    ensures { result ≡ plain.accepted untagged code }
{
    Replies {
        untagged,
        ending: Ending::Ok,
        code,
    }
}

/// A NO without more.
pub fn denied(alloc: Global, code: Code) -> Replies
    ensures { result ≡ plain.denied code }
{
    Replies {
        untagged: List::new(alloc),
        ending: Ending::No,
        code,
    }
}
