//! The server in memory as an object.

ghost use Rattle.std.specs.Prelude.{◌≡◌, ◌++◌, [], ◌∷◌, Some, None, IfOk, OnOk, OnErr, IsErrOf, ℕ, is_some, true, ◌↔◌};
ghost use Rattle.imap_model.specs.Changes.{Changes, deed_of, receiver};
ghost use Rattle.imap_model.specs.Lookups.{box_at, validity_of};
ghost use Rattle.imap_model.specs.Lawful.{broken_rule};
ghost use Rattle.imap_model.specs.PlainChanges.{with_change};
ghost use Rattle.server_mem.specs.Offers.{AreAtoms, AreAtoms-prop, atoms};
ghost use Rattle.server_mem.specs.States.{usual_flags, fresh, disconnected, is_named};
ghost use Rattle.server_mem.specs.Turns.{after};
ghost use Rattle.imap_model.specs.WellFormed.{IsWellFormed};
ghost use Rattle.server_mem.specs.Well.{Well, Well-prop};
ghost use Rattle.imap_model.specs.declared.deed.Author.TheVariants.{Other};

use crate::capabilities::atoms;
use crate::lookups::box_of;
use crate::rules::broken_rule;
use crate::turn::Made;
use flag_set::FlagSet;
use imap_model::{Author, Change, Deed, Mailbox, Server};
use mail_base::{BoxName, Bytes, List, Validity, Words};
use std::alloc::{AllocError, Global};
use std::marker::Model;
use thiserror::Error;

/// Why a change by another client isn't made.
#[derive(Clone, Copy, Debug, PartialEq, Eq, Drop, Error)]
pub enum ForeignFault {
    /// The change breaks a rule, of which this is the number of the first: 1, a mailbox is missing, or a message would go to
    /// where it is; 2, the UID isn't free; 3, the message is missing; 4, no mod-sequence is left; 5, the text holds a NUL;
    /// 7, the new UIDVALIDITY isn't above the old one; 8, the new UIDs don't rise, aren't below UIDNEXT, or aren't as many as
    /// the messages. (No change breaks rule 6, that others alone renew a mailbox.)
    #[error("the change breaks a rule")]
    NotLawful { rule: u8 },
    /// There isn't memory enough.
    #[error("memory is wanting")]
    Memory,
}

impl From<AllocError> for ForeignFault {
    ghost use Rattle.std.specs.Prelude.{◌≡◌};
    ghost use Rattle.server_mem.specs.declared.mem_server.ForeignFault.TheVariants.{Memory};

    ghost from_gives = { λ _ fault. fault ≡ Memory };

    fn from(_: AllocError) -> ForeignFault {
        ForeignFault::Memory
    }
}

/// A lawful server in memory with one connection.
#[derive(Drop)]
pub struct MemServer {
    pub(crate) alloc: Global,
    pub(crate) server: Server,
    pub(crate) selected: Option<BoxName>,
    pub(crate) offers: Words,
    pub(crate) flags: FlagSet,
    pub(crate) any: bool,
    pub(crate) closed: Option<BoxName>,
    /// APPENDUID is left out.
    pub(crate) muted: bool,
    /// The whole parts of the text that is arriving.
    pub(crate) parts: List<Bytes>,
    /// The bytes behind them.
    pub(crate) begun: Bytes,
    /// Memory was wanting in the midst of what came.
    pub(crate) failed: bool,
    ghost well: { Well server.boxes } by { Well-prop server.boxes },
    ghost offered: { AreAtoms offers } by { AreAtoms-prop offers },
}

impl Model for MemServer {
    ghost use Rattle.server_mem.specs.States.{State};

    ghost Value = { State };

    ghost view = { λ m. record {
      choices = record { offers = m.offers; flags = m.flags; any = m.any; closed = m.closed };
      muted = m.muted;
      selected = m.selected;
      server = m.server;
      parts = m.parts;
      begun = m.begun;
      failed = m.failed;
    } };
}

/// The UIDVALIDITY of a mailbox that is there.
pub fn validity_of(boxes: &[Mailbox], name: &BoxName) -> Validity
    requires { is_some (box_at name.now boxes.now) ≡ true }
    ensures { result ≡ validity_of (box_at name.now boxes.now) }
{
    match box_of(boxes, name) {
        Some((_, mailbox)) => mailbox.validity,
        None => unreachable!(),
    }
}

// The UIDVALIDITY of the mailbox that a change puts a message in, or of the changed one.
fn received_of(boxes: &[Mailbox], name: &BoxName, change: &Change) -> Validity
    requires { is_some (box_at (receiver name.now change.now) boxes.now) ≡ true }
    ensures { result ≡ validity_of (box_at (receiver name.now change.now) boxes.now) }
{
    match change {
        Change::Shift { to, .. } => validity_of(boxes, to),
        Change::Add { .. } | Change::SetFlags { .. } | Change::Drop { .. } | Change::Reset { .. } =>
            validity_of(boxes, name),
    }
}

/// A change as the history keeps it, with the mailboxes after it.
pub fn deed_of(
    author: Author,
    name: &BoxName,
    change: &Change,
    boxes: &[Mailbox],
) -> Result<Deed, AllocError>
    requires named { is_some (box_at name.now boxes.now) ≡ true }
    requires receiver { is_some (box_at (receiver name.now change.now) boxes.now) ≡ true }
    ensures { IfOk result (λ deed. deed ≡ deed_of author name.now change.now boxes.now) }
{
    Ok(Deed {
        author,
        name: name.copy(),
        validity: validity_of(boxes, name),
        received: received_of(boxes, name, change),
        change: change.copy()?,
    })
}

// The flags that PERMANENTFLAGS tells at first.
fn usual_flags(alloc: Global) -> Result<FlagSet, AllocError>
    ensures { IfOk result (λ flags. flags ≡ usual_flags) }
{
    match FlagSet::read_list(alloc, b"\\Answered \\Flagged \\Deleted \\Seen \\Draft") {
        Ok(flags) => Ok(flags),
        Err(_) => Err(AllocError),
    }
}

impl MemServer {
    /// A server of these mailboxes, with an empty history and nothing selected, that offers those of the names that are atoms:
    /// no line can tell another (RFC 9051, section 9, capability).
    pub fn new(alloc: Global, boxes: Vec<Mailbox>, offers: Words) -> Result<MemServer, AllocError>
        requires { IsWellFormed boxes.items }
        ensures { IfOk result (λ m. m ≡ fresh boxes.items (atoms offers)) }
    {
        Ok(MemServer {
            alloc,
            server: Server {
                boxes: List::of(boxes),
                history: List::new(alloc),
            },
            selected: None,
            offers: atoms(alloc, offers.as_slice())?,
            flags: usual_flags(alloc)?,
            any: true,
            closed: None,
            muted: false,
            parts: List::new(alloc),
            begun: Bytes::new(alloc),
            failed: false,
        })
    }

    /// The server with its mailboxes and its history.
    pub fn server(&self) -> &Server
        ensures value { result.now ≡ self.now.server }
        ensures well { IsWellFormed result.now.boxes }
    {
        &self.server
    }

    /// Sets what PERMANENTFLAGS tells from now on: these flags, and with `any` that new keywords can be made. It takes no
    /// memory.
    pub fn permit(&mut self, flags: FlagSet, any: bool)
        ensures { self.new ≡ record self.old { choices = record self.old.choices { flags = flags; any = any } } }
    {
        self.flags = flags;
        self.any = any;
    }

    /// Makes each later APPEND to this mailbox be refused, in place of another one that was. It takes no memory.
    pub fn refuse(&mut self, name: BoxName)
        ensures { self.new ≡ record self.old { choices = record self.old.choices { closed = Some name } } }
    {
        self.closed = Some(name);
    }

    /// Makes each later completion of an APPEND leave out its code APPENDUID, as no lawful server does (RFC 4315, section 3).
    /// It takes no memory.
    pub fn mute(&mut self)
        ensures { self.new ≡ record self.old { muted = true } }
    {
        self.muted = true;
    }

    /// Whether this mailbox is selected.
    pub fn is_selected(&self, name: &BoxName) -> bool
        ensures { result ≡ is_named name.now self.now.selected }
    {
        match &self.selected {
            None => false,
            Some(selected) => *selected == *name,
        }
    }

    /// Ends the present connection: in the next one nothing is selected, and what has come of a text that isn't complete
    /// is dropped. It takes no memory.
    pub fn lose(&mut self)
        ensures { self.new ≡ disconnected self.old }
    {
        self.selected = None;
        self.drop_text();
        self.failed = false;
    }

    // Drops what has come of a text.
    pub(crate) fn drop_text(&mut self)
        ensures { self.new ≡ record self.old { parts = []; begun = [] } }
    {
        self.parts = List::new(self.alloc);
        self.begun = Bytes::new(self.alloc);
    }

    // Takes the mailboxes and the deed of a change.
    pub(crate) fn commit(&mut self, made: Made) -> Result<(), AllocError>
        requires { Well made.boxes }
        ensures done { OnOk result (self.new ≡ record self.old { server = after (Some made) self.old.server }) }
        ensures kept { OnErr result (self.new ≡ self.old) }
    {
        let Made { boxes, deed } = made;
        self.server.history.push(deed)?;
        self.server.boxes = boxes;
        Ok(())
    }

    /// Makes a change by another client, which tells nothing. Each change copies the mailboxes first.
    ///
    /// Refuses a change that breaks a rule, and then nothing changes, as for want of memory.
    pub fn foreign(&mut self, name: &BoxName, change: &Change) -> Result<(), ForeignFault>
        ensures done { OnOk result (self.new ≡ record self.old { server = with_change Other name.now change.now self.old.server }) }
        ensures lawful { OnOk result (Changes self.old.server.boxes Other name.now change.now self.old.server self.new.server) }
        ensures rule { (number : ℕ) → IsErrOf result (ForeignFault.NotLawful number) ↔ (broken_rule self.old.server.boxes name.now change.now ≡ Some number) }
        ensures kept { OnErr result (self.new ≡ self.old) }
    {
        if let Some(rule) = broken_rule(self.server.boxes.as_slice(), name, change) {
            return Err(ForeignFault::NotLawful { rule });
        }
        let made = self.made(Author::Other, name, change)?;
        self.commit(made)?;
        Ok(())
    }
}
