//! What is heard of a reply while it comes.

ghost use Rattle.std.specs.Prelude.{◌≡◌, ◌++◌, List, OnOk, OnErr};
ghost use Rattle.imap_model.specs.Small.{IsSmall};
ghost use Rattle.imap_model.specs.declared.response.Response.{Response};
ghost use Rattle.imap_session.specs.Permanent.{behind};
ghost use Rattle.imap_session.specs.Hearing.{told_by};

use crate::permits::{Permits, behind};
use imap_model::{Listen, Response};
use std::alloc::AllocError;

/// Hands the next response of a reply to the listener, and keeps the PERMANENTFLAGS that counts behind it. A `+` asks for
/// a part of the command, and tells nothing.
pub fn hear<H: Listen>(
    heard: &mut H,
    permits: &mut Option<Permits>,
    response: Response,
) -> Result<(), AllocError>
    requires small { IsSmall response }
    ensures stands { (list : List Response) → H.Stands heard.old list
        → OnOk result (H.Stands heard.new (list ++ told_by response)) }
    ensures permits { OnOk result (permits.new ≡ behind permits.old response) }
    ensures kept { OnErr result (heard.new ≡ heard.old) }
{
    if let Response::Go = response {
        drop(response);
        return Ok(());
    }
    let before = permits.take();
    match behind(before, &response) {
        Ok(counts) => {
            *permits = counts;
            heard.take(response)
        }
        Err(fault) => {
            drop(response);
            Err(fault)
        }
    }
}
