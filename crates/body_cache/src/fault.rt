//! Why no text was fetched.

ghost use Rattle.std.specs.Prelude.{◌≡◌};
ghost use Rattle.body_cache.specs.Fetching.{of_code};

use imap_model::Item;
use imap_session::SessionFault;
use mail_base::Validity;
use play_driver::{PlayFault, Why};
use qresync_core::CodeFault;

/// Why no text was fetched.
#[derive(Drop)]
pub enum TextFault {
    /// The session ended early.
    Stopped(PlayFault),
    /// The mailbox has this UIDVALIDITY, which isn't that of its cache.
    Renewed(Validity),
    /// The message isn't in its mailbox any more.
    Gone,
}

impl From<SessionFault> for TextFault {
    ghost use Rattle.std.specs.Prelude.{◌≡◌};
    ghost use Rattle.play_driver.specs.Faults.{of_session};
    ghost use Rattle.body_cache.specs.declared.fault.TextFault.TheVariants as faults;

    ghost from_gives = { λ session fault. fault ≡ faults.Stopped (of_session session) };

    fn from(fault: SessionFault) -> TextFault {
        TextFault::Stopped(PlayFault::from(fault))
    }
}

impl From<CodeFault> for TextFault {
    ghost use Rattle.std.specs.Prelude.{◌≡◌};
    ghost use Rattle.body_cache.specs.Fetching.{of_code};
    ghost use Rattle.body_cache.specs.declared.fault.TextFault.TheVariants as faults;

    ghost from_gives = { λ code fault. fault ≡ faults.Stopped (of_code code) };

    fn from(fault: CodeFault) -> TextFault {
        TextFault::Stopped(of_code(fault))
    }
}

// The mailbox has no mod-sequences, or doesn't keep its UIDs; or the reply to SELECT lacks a number.
fn of_code(fault: CodeFault) -> PlayFault
    ensures { result ≡ of_code fault }
{
    match fault {
        CodeFault::NoModSeq => PlayFault::Lacking {
            what: Item::ModSeqs,
        },
        CodeFault::NotSticky => PlayFault::Lacking { what: Item::Sticky },
        CodeFault::NoCode { which } => PlayFault::BadReply {
            why: Why::Lacks(which),
        },
    }
}
