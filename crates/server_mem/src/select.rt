//! SELECT, and what is told as a mailbox is selected (RFC 9051, section 6.3.2; RFC 7162, section 3.2.5).

ghost use Rattle.std.specs.Prelude.{◌≡◌, ◌++◌, IfOk, OnOk, length, nat_lt, ◌≤◌};
ghost use Rattle.imap_model.specs.Lookups.{box_at};
ghost use Rattle.imap_model.specs.PlainServer as plain;
ghost use Rattle.imap_model.specs.ToldRows as told;
ghost use Rattle.imap_model.specs.declared.code.Code.TheVariants as codings;
ghost use Rattle.server_mem.specs.Turns.{comes_to, state_of};

use crate::MemServer;
use crate::lookups::box_of;
use crate::replies::coded;
use crate::rows::{rows_above, told_flags};
use crate::sets::set_of;
use crate::turn::{Turn, accepted, denied};
use imap_model::{Code, Gone, Mailbox, Mark, Response};
use mail_base::{BoxName, List, ModSeq};
use std::alloc::{AllocError, Global};
use uid_sets::Uid;

// Whether a mod-sequence is above another.
fn is_above(modseq: ModSeq, other: ModSeq) -> bool
    ensures { result ≡ nat_lt modseq other }
{
    modseq.number() < other.number()
}

// The UIDs that went above a mod-sequence.
fn gone_above(alloc: Global, modseq: ModSeq, gone: &[Gone]) -> Result<Vec<Uid>, AllocError>
    ensures { IfOk result (λ uids. uids.items ≡ plain.gone_above modseq gone.now) }
{
    let mut uids = Vec::new(alloc);
    for one in gone {
        if is_above(modseq, one.modseq) {
            uids.push(one.uid)?;
        }
    }
    Ok(uids)
}

// VANISHED, where a UID went.
fn vanished_of(alloc: Global, uids: &[Uid]) -> Result<List<Response>, AllocError>
    ensures { IfOk result (λ told. told ≡ plain.vanished_of uids.now) }
{
    let mut told = List::new(alloc);
    if uids.is_empty() {
        return Ok(told);
    }
    told.push(Response::Vanished {
        earlier: true,
        uids: set_of(alloc, uids)?,
    })?;
    Ok(told)
}

/// Adds responses at the end.
pub fn append(told: &mut List<Response>, more: List<Response>) -> Result<(), AllocError>
    ensures { OnOk result (told.new ≡ told.old ++ more) }
{
    for response in more.into_vec() {
        told.push(response)?;
    }
    Ok(())
}

// All that went and changed above a mod-sequence.
fn told_above(
    alloc: Global,
    modseq: ModSeq,
    mailbox: &Mailbox,
) -> Result<List<Response>, AllocError>
    ensures { IfOk result (λ told. told ≡ plain.told_above modseq mailbox.now) }
{
    let gone = gone_above(alloc, modseq, mailbox.gone.as_slice())?;
    let mut told = vanished_of(alloc, &gone)?;
    append(
        &mut told,
        rows_above(alloc, modseq, mailbox.messages.as_slice())?,
    )?;
    Ok(told)
}

/// What is told of the time since a mark, which counts only under the mailbox's UIDVALIDITY.
pub fn told_since(
    alloc: Global,
    since: Option<Mark>,
    mailbox: &Mailbox,
) -> Result<List<Response>, AllocError>
    ensures { IfOk result (λ told. told ≡ plain.told_since since mailbox.now) }
{
    match since {
        Some(mark) if mark.validity == mailbox.validity => told_above(alloc, mark.modseq, mailbox),
        _ => Ok(List::new(alloc)),
    }
}

// How many messages there are: each has a UID of its own below UIDNEXT, so that the count fits.
fn count(mailbox: &Mailbox) -> u32
    requires { length mailbox.now.messages ≤ mailbox.now.uidnext }
    ensures { result ≡ length mailbox.now.messages }
{
    let most = u64::from(mailbox.uidnext.number());
    (mailbox.messages.len() as u64).min(most) as u32
}

impl MemServer {
    // RECENT, FLAGS and a line that no standard knows, where IMAP4rev2 isn't offered.
    fn add_older(&self, told: &mut List<Response>) -> Result<(), AllocError>
        ensures { OnOk result (told.new ≡ told.old ++ plain.older_told self.now.choices) }
    {
        if !self.has_rev2() {
            told.push(Response::Other)?;
            told.push(Response::Other)?;
            told.push(Response::Other)?;
        }
        Ok(())
    }

    // PERMANENTFLAGS.
    fn permanent(&self) -> Result<Response, AllocError>
        ensures { IfOk result (λ response. response ≡ plain.coded (codings.PermanentFlags (told.told_flags self.now.choices.flags) self.now.choices.any)) }
    {
        let flags = told_flags(self.alloc, &self.flags)?;
        Ok(coded(Code::PermanentFlags {
            flags,
            any: self.any,
        }))
    }

    // Adds the state of a mailbox.
    fn add_state(&self, told: &mut List<Response>, mailbox: &Mailbox) -> Result<(), AllocError>
        requires { length mailbox.now.messages ≤ mailbox.now.uidnext }
        ensures { OnOk result (told.new ≡ told.old ++ state_of self.now.choices mailbox.now) }
    {
        told.push(Response::Exists(count(mailbox)))?;
        told.push(self.permanent()?)?;
        told.push(coded(Code::UidValidity(mailbox.validity)))?;
        told.push(coded(Code::UidNext(mailbox.uidnext)))?;
        told.push(coded(Code::HighestModSeq(mailbox.highest)))
    }

    // CLOSED, where a mailbox was selected.
    fn closed_told(&self) -> Result<List<Response>, AllocError>
        ensures { IfOk result (λ told. told ≡ plain.closed_told self.now.selected) }
    {
        let mut told = List::new(self.alloc);
        if self.selected.is_some() {
            told.push(coded(Code::Closed))?;
        }
        Ok(told)
    }

    // All that is told as a mailbox is selected.
    fn select_told(
        &self,
        since: Option<Mark>,
        mailbox: &Mailbox,
    ) -> Result<List<Response>, AllocError>
        requires { length mailbox.now.messages ≤ mailbox.now.uidnext }
        ensures { IfOk result (λ told. told ≡ ((plain.closed_told self.now.selected ++ state_of self.now.choices mailbox.now) ++ plain.older_told self.now.choices) ++ plain.told_since since mailbox.now) }
    {
        let mut told = self.closed_told()?;
        self.add_state(&mut told, mailbox)?;
        self.add_older(&mut told)?;
        let more = told_since(self.alloc, since, mailbox)?;
        append(&mut told, more)?;
        Ok(told)
    }

    /// SELECT.
    pub(crate) fn select(&self, name: &BoxName, since: Option<Mark>) -> Result<Turn, AllocError>
        ensures { IfOk result (λ turn. comes_to turn self.now.server ≡ plain.select_turn self.now.choices self.now.selected name.now since self.now.server (box_at name.now self.now.server.boxes)) }
    {
        let Some((_, mailbox)) = box_of(self.server.boxes.as_slice(), name) else {
            return Ok(Turn {
                replies: denied(self.alloc, Code::Other),
                made: None,
                selected: None,
            });
        };
        let told = self.select_told(since, mailbox)?;
        Ok(Turn {
            replies: accepted(told, Code::Other),
            made: None,
            selected: Some(name.copy()),
        })
    }
}
