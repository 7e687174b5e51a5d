//! What the user asks for.

ghost use Rattle.std.specs.Prelude.{◌≡◌, IfOk};

use crate::Target;
use flag_set::FlagSet;
use mail_base::{BoxName, Bytes};
use std::alloc::AllocError;

/// A change that the user asks for, to be played on the server later (RFC 4549, section 4.2).
#[derive(Drop)]
pub enum Action {
    /// Adds flags to a message, or takes them away (RFC 9051, section 6.4.6).
    Flag {
        target: Target,
        add: bool,
        flags: FlagSet,
    },
    /// Moves a message to another mailbox (RFC 9051, section 6.4.8).
    Move {
        target: Target,
        to: BoxName,
    },
    /// Puts a message into a mailbox (RFC 9051, section 6.3.12). `id` is the Message-ID of its text.
    Append {
        to: BoxName,
        flags: FlagSet,
        text: Bytes,
        id: Bytes,
    },
}

impl Action {
    /// The same action once more. Fails for want of memory alone.
    pub fn copy(&self) -> Result<Action, AllocError>
        ensures { IfOk result (λ action. action ≡ self.now) }
    {
        match self {
            Action::Flag { target, add, flags } => {
                let flags = flags.copy()?;
                Ok(Action::Flag {
                    target: target.copy(),
                    add: *add,
                    flags,
                })
            }
            Action::Move { target, to } => Ok(Action::Move {
                target: target.copy(),
                to: to.copy(),
            }),
            Action::Append {
                to,
                flags,
                text,
                id,
            } => copy_of_append(to, flags, text, id),
        }
    }
}

// The same append once more.
fn copy_of_append(
    to: &BoxName,
    flags: &FlagSet,
    text: &Bytes,
    id: &Bytes,
) -> Result<Action, AllocError>
    ensures { IfOk result (λ action. action ≡ Action.Append to.now flags.now text.now id.now) }
{
    let flags = flags.copy()?;
    let text = text.copy()?;
    let id = id.copy()?;
    Ok(Action::Append {
        to: to.copy(),
        flags,
        text,
        id,
    })
}
