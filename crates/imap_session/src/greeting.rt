//! The first line of a connection (RFC 9051, section 7.1).

ghost use Rattle.std.specs.Prelude.{◌≡◌, IfOk, IsErrOf, IsTrue, ◌↔◌};
ghost use Rattle.imap_model.specs.declared.response.Response.TheVariants as responses;
ghost use Rattle.imap_session.specs.Faults.{HelloUnfit, IsHello};
ghost use Rattle.imap_session.specs.Greeting.{is_preauth};
ghost use Rattle.imap_session.specs.declared.fault.SessionFault.{SessionFault};
ghost use Rattle.imap_session.specs.declared.fault.SessionFault.TheVariants as faults;

use crate::SessionFault;
use crate::listening::Line;
use imap_model::{Ending, Response};

/// The greeting, where the first line is one.
pub fn hello(line: Line) -> Result<Response, SessionFault>
    ensures value { IfOk result (λ r. r ≡ line.response) }
    ensures greets { IfOk result IsHello }
    ensures why { (fault : SessionFault) → IsErrOf result fault → HelloUnfit line.frame line.response fault }
{
    let Line { frame, response } = line;
    if is_hello(&response) {
        return Ok(response);
    }
    if is_bye(&response) {
        return Err(SessionFault::Refused { line: frame.bytes });
    }
    Err(SessionFault::BadReply { at: frame.at })
}

fn is_hello(response: &Response) -> bool
    ensures { IsTrue result ↔ IsHello response.now }
{
    match response {
        Response::Untagged { ending, .. } => *ending == Ending::Ok,
        Response::Preauth { .. } => true,
        _ => false,
    }
}

fn is_bye(response: &Response) -> bool
    ensures { IsTrue result ↔ (response.now ≡ responses.Bye) }
{
    match response {
        Response::Bye => true,
        _ => false,
    }
}

/// Whether a greeting says that the user is logged in already.
pub fn is_preauth(greeting: &Response) -> bool
    ensures { result ≡ is_preauth greeting.now }
{
    match greeting {
        Response::Preauth { .. } => true,
        _ => false,
    }
}
