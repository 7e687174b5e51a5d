//! Carrying out a command (RFC 9051, section 6).

ghost use Rattle.std.specs.Prelude.{◌≡◌, IfOk, OnOk, OnErr, false};
ghost use Rattle.imap_model.specs.CarriedOut.{CarriesOut, told_in};
ghost use Rattle.server_mem.specs.States.{turn_at, after_turn, muted_code};
ghost use Rattle.server_mem.specs.Turns.{after};
ghost use Rattle.server_mem.specs.Well.{Well};

use crate::MemServer;
use crate::turn::{Made, Turn};
use imap_model::{Code, Command, Mailbox, Replies, Response};
use mail_base::{BoxName, Tag};
use std::alloc::AllocError;

// The code that is told in place of one: a muted server leaves APPENDUID out.
fn muted_code(muted: bool, code: Code) -> Code
    ensures { result ≡ muted_code muted code }
{
    let left_out = muted && matches!(&code, Code::AppendUid { .. });
    if left_out { Code::None } else { code }
}

// All that is told in a reply, by a server that is muted or not.
fn told_in(muted: bool, tag: Tag, replies: Replies) -> Result<Vec<Response>, AllocError>
    ensures { IfOk result (λ told. told.items ≡ told_in tag (record replies { code = muted_code muted replies.code })) }
{
    let Replies {
        untagged,
        ending,
        code,
    } = replies;
    let code = muted_code(muted, code);
    let mut told = untagged.into_vec();
    told.push(Response::Done { tag, ending, code })?;
    Ok(told)
}

/// What a command comes to, before anything changes: all that is told, the change that it makes, if any, and what is
/// selected then.
#[derive(Drop)]
pub(crate) struct Outcome {
    pub told: Vec<Response>,
    pub made: Option<Made>,
    pub selected: Option<BoxName>,
}

impl MemServer {
    /// What a command comes to.
    pub(crate) fn outcome(&self, tag: Tag, command: &Command) -> Result<Outcome, AllocError>
        ensures told { IfOk result (λ o. o.told.items ≡ told_in tag (turn_at self.now tag command.now).replies) }
        ensures server { IfOk result (λ o. after o.made self.now.server ≡ (turn_at self.now tag command.now).server) }
        ensures selected { IfOk result (λ o. o.selected ≡ (turn_at self.now tag command.now).selected) }
        ensures well { IfOk result (λ o. Well self.now.server.boxes) }
    {
        // What the server keeps true is known once it is read.
        let _server = &self.server;
        let Turn {
            replies,
            made,
            selected,
        } = self.turn(tag, command)?;
        let told = told_in(self.muted, tag, replies)?;
        Ok(Outcome {
            told,
            made,
            selected,
        })
    }

    /// The mailboxes behind a change, if one is made.
    pub(crate) fn boxes_behind<'a>(&'a self, made: &'a Option<Made>) -> &'a [Mailbox]
        ensures { result.now ≡ (after made.now self.now.server).boxes }
    {
        match made {
            None => self.server.boxes.as_slice(),
            Some(made) => made.boxes.as_slice(),
        }
    }

    /// Takes the change that a command makes, and what is selected behind it.
    pub(crate) fn enter(
        &mut self,
        made: Option<Made>,
        selected: Option<BoxName>,
    ) -> Result<(), AllocError>
        requires { Well (after made self.old.server).boxes }
        ensures done { OnOk result (self.new ≡ record self.old { server = after made self.old.server; selected = selected }) }
        ensures kept { OnErr result (self.new ≡ self.old) }
    {
        if let Some(made) = made {
            self.commit(made)?;
        }
        self.selected = selected;
        Ok(())
    }

    /// Carries out one command, and gives what is told: the untagged responses, and the completion. Any account is accepted,
    /// and no order of commands is asked for. A server that is muted isn't lawful.
    ///
    /// Fails for want of memory alone, and then nothing changes.
    pub fn carry(&mut self, tag: Tag, command: &Command) -> Result<Vec<Response>, AllocError>
        ensures told { IfOk result (λ told. told.items ≡ told_in tag (turn_at self.old tag command.now).replies) }
        ensures done { OnOk result (self.new ≡ after_turn self.old (turn_at self.old tag command.now)) }
        ensures lawful { self.old.muted ≡ false → OnOk result (CarriesOut (record { selected = self.old.selected; tag = tag; command = command.now }) self.old.server
            (turn_at self.old tag command.now).replies self.new.server self.new.selected) }
        ensures kept { OnErr result (self.new ≡ self.old) }
    {
        let Outcome {
            told,
            made,
            selected,
        } = self.outcome(tag, command)?;
        self.enter(made, selected)?;
        Ok(told)
    }
}
