//! Which flags a mailbox keeps for good (RFC 9051, section 7.1, PERMANENTFLAGS).

ghost use Rattle.std.specs.Prelude.{◌≡◌, IfOk};
ghost use Rattle.std.specs.List.{list_all};
ghost use Rattle.imap_session.specs.Permanent.{behind_code, behind, keeps};

use flag_set::{FlagKey, FlagSet};
use imap_model::{Code, Response};
use std::alloc::AllocError;

/// The code PERMANENTFLAGS: the flags that can be changed for good, and whether new keywords can be made (`\*`).
#[derive(Drop)]
pub struct Permits {
    pub flags: FlagSet,
    pub any: bool,
}

/// What counts behind a code.
pub fn behind_code(permits: Option<Permits>, code: &Code) -> Result<Option<Permits>, AllocError>
    ensures { IfOk result (λ told. told ≡ behind_code permits code.now) }
{
    let Code::PermanentFlags { flags, any } = code else {
        return Ok(permits);
    };
    Ok(Some(Permits {
        flags: flags.copy()?,
        any: *any,
    }))
}

/// What counts behind an untagged response: at CLOSED it begins anew.
pub fn behind(permits: Option<Permits>, response: &Response) -> Result<Option<Permits>, AllocError>
    ensures { IfOk result (λ told. told ≡ behind permits response.now) }
{
    let Response::Untagged { code, .. } = response else {
        return Ok(permits);
    };
    if let Code::Closed = code {
        return Ok(None);
    }
    behind_code(permits, code)
}

/// Whether each of the flags is kept for good. Where no PERMANENTFLAGS was told, all are (RFC 9051, section 6.3.2).
pub fn keeps_all(permits: &Option<Permits>, flags: &FlagSet) -> bool
    ensures { result ≡ list_all (keeps permits.now) flags.now }
{
    match permits {
        Some(permits) => keeps_each(permits, flags.keys()),
        None => true,
    }
}

fn keeps_each(permits: &Permits, keys: &[FlagKey]) -> bool
    ensures { result ≡ list_all (keeps (Some permits.now)) keys.now }
{
    keys.iter().all(|key| keeps_one(permits, key))
}

// A flag is kept where it is told, and a keyword also where new ones can be made.
fn keeps_one(permits: &Permits, key: &FlagKey) -> bool
    ensures { result ≡ keeps (Some permits.now) key.now }
{
    permits.flags.holds(key) || permits.any && key.is_keyword()
}
