//! Which messages have exactly a Message-ID (RFC 5322, section 3.6.4): the plain way, which reads each text.

ghost use Rattle.std.specs.Prelude.{◌≡◌, IfOk};
ghost use Rattle.append_probe.specs.Marked.{IsIdentifier};
ghost use Rattle.book_laws.specs.PlainOpen as plain;

use append_probe::has_its_id;
use imap_model::Message;
use mail_base::List;
use std::alloc::{AllocError, Global};
use uid_sets::Uid;

// The UIDs from this one on of the messages that have it.
pub(crate) fn marked_from(
    alloc: Global,
    low: Uid,
    id: &[u8],
    messages: &[Message],
) -> Result<List<Uid>, AllocError>
    requires { IsIdentifier id.now }
    ensures { IfOk result (λ uids. uids ≡ plain.marked_from low id.now messages.now) }
{
    let mut uids = List::new(alloc);
    let mut rest = messages;
    while let Some((message, behind)) = rest.split_first() {
        if is_marked(alloc, low, id, message)? {
            uids.push(message.uid)?;
        }
        rest = behind;
    }
    Ok(uids)
}

// Whether a message has it, and a UID from this one on.
fn is_marked(alloc: Global, low: Uid, id: &[u8], message: &Message) -> Result<bool, AllocError>
    requires { IsIdentifier id.now }
    ensures { IfOk result (λ answer. answer ≡ plain.is_marked low id.now message.now) }
{
    if !has_its_id(alloc, id, message.text.as_slice())? {
        return Ok(false);
    }
    Ok(low.number() <= message.uid.number())
}
