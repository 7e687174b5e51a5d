//! The numbers that the codes of a reply to SELECT tell (RFC 9051, sections 6.3.2 and 7.1; RFC 7162, section 3.1.2).

ghost use Rattle.std.specs.Prelude.{◌≡◌};
ghost use Rattle.std.specs.Option.{option_to_list};
ghost use Rattle.qresync_core.specs.Hearing.{nothing_told, heard, heard_all, numbers_told};
ghost use Rattle.qresync_core.specs.ToldCodes.{told_codes, code_of};
ghost use Rattle.qresync_core.specs.declared.fault.CodeFault.TheVariants.{NoCode};

use crate::CodeFault;
use crate::behind::behind_closed;
use imap_model::{Code, Item, Replies, Response};
use mail_base::{ModSeq, Validity};
use uid_sets::Uid;

/// UIDVALIDITY, UIDNEXT and HIGHESTMODSEQ of a mailbox that was selected, each as it was told last.
#[derive(Clone, Copy, Debug, PartialEq, Eq)]
pub struct Codes {
    pub validity: Validity,
    pub uidnext: Uid,
    pub highest: ModSeq,
}

/// What a reply to SELECT tells of its mailbox in codes, or the first fault of these. Of a reply that holds CLOSED only
/// what stands behind the last one is read. It takes no memory.
pub fn codes_of(selected: &Replies) -> Result<Codes, CodeFault>
    ensures { result ≡ told_codes selected.now }
{
    let responses = behind_closed(selected.untagged.as_slice());
    let mut told = Told::nothing();
    for response in responses {
        told.hear_in(response);
    }
    told.hear(&selected.code);
    told.numbers()
}

// What the codes have told so far.
#[derive(Clone, Copy)]
pub(crate) struct Told {
    no_modseq: bool,
    not_sticky: bool,
    validity: Option<Validity>,
    uidnext: Option<Uid>,
    highest: Option<ModSeq>,
}

impl Told {
    pub(crate) fn nothing() -> Told
        ensures { result ≡ nothing_told }
    {
        Told {
            no_modseq: false,
            not_sticky: false,
            validity: None,
            uidnext: None,
            highest: None,
        }
    }

    // The code of an untagged OK, NO or BAD.
    pub(crate) fn hear_in(&mut self, response: &Response)
        ensures { self.new ≡ heard_all self.old (option_to_list (code_of response.now)) }
    {
        if let Response::Untagged { code, .. } = response {
            self.hear(code);
        }
    }

    // One more code. A number that was told before gives way.
    pub(crate) fn hear(&mut self, code: &Code)
        ensures { self.new ≡ heard self.old code.now }
    {
        match code {
            Code::NoModSeq => self.no_modseq = true,
            Code::UidNotSticky => self.not_sticky = true,
            Code::UidValidity(validity) => self.validity = Some(*validity),
            Code::UidNext(uid) => self.uidnext = Some(*uid),
            Code::HighestModSeq(modseq) => self.highest = Some(*modseq),
            _ => {}
        }
    }

    // The three numbers, or the first fault.
    pub(crate) fn numbers(&self) -> Result<Codes, CodeFault>
        ensures { result ≡ numbers_told self.now }
    {
        if self.no_modseq {
            return Err(CodeFault::NoModSeq);
        }
        if self.not_sticky {
            return Err(CodeFault::NotSticky);
        }
        let validity = self.validity.ok_or(lacking(Item::UidValidity))?;
        let uidnext = self.uidnext.ok_or(lacking(Item::UidNext))?;
        let highest = self.highest.ok_or(lacking(Item::HighestModSeq))?;
        Ok(Codes {
            validity,
            uidnext,
            highest,
        })
    }
}

fn lacking(which: Item) -> CodeFault
    ensures { result ≡ NoCode which }
{
    CodeFault::NoCode { which }
}
