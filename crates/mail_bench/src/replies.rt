//! The replies to a resynchronisation, line by line: what a delta is made of is kept as they come, or they all are.

ghost use Rattle.std.specs.Prelude.{◌≡◌, true, IfSome};
ghost use Rattle.mail_bench.specs.Names.{name_of_keeper, name_of_kind};

use imap_model::{Code, Ending, Last, Listen, Replies, Response};
use imap_response::{ResponseFault, read};
use mail_base::{Bytes, Frame, List, ModSeq, Status, Validity};
use mailbox_cache::{Cache, Delta};
use qresync_core::{DeltaMaker, ResyncFault, delta_of};
use std::alloc::{AllocError, Global};
use uid_sets::{Uid, UidSet};

/// What is kept of the replies.
#[derive(Clone, Copy, Debug, PartialEq, Eq)]
pub enum Keeper {
    /// What a delta is made of.
    Make,
    /// All of them.
    Gather,
}

impl Keeper {
    /// The word that names it.
    pub fn name(&self) -> &'static str
        ensures text { result.now ≡ name_of_keeper self.now }
    {
        match *self {
            Keeper::Make => "make",
            Keeper::Gather => "gather",
        }
    }
}

/// Which lines come.
#[derive(Clone, Copy, Debug, PartialEq, Eq)]
pub enum Kind {
    /// Rows whose UIDs rise.
    Rising,
    /// Rows whose UIDs come in no order.
    Mixed,
    /// Rows of one UID.
    Same,
    /// VANISHED with one UID each, in no order.
    Vanished,
    /// CAPABILITY, which tells nothing of a mailbox.
    Idle,
}

impl Kind {
    /// The word that names it.
    pub fn name(&self) -> &'static str
        ensures text { result.now ≡ name_of_kind self.now }
    {
        match *self {
            Kind::Rising => "rising",
            Kind::Mixed => "mixed",
            Kind::Same => "same",
            Kind::Vanished => "vanished",
            Kind::Idle => "idle",
        }
    }

    // The line of a place. An odd factor takes no two places to one UID.
    fn line(&self, alloc: Global, place: u32) -> Result<Vec<u8>, AllocError> {
        let rising = place.wrapping_add(1);
        let mixed = rising.wrapping_mul(2_654_435_761);
        let line = match *self {
            Kind::Rising => row(alloc, rising, rising)?,
            Kind::Mixed => row(alloc, mixed, rising)?,
            Kind::Same => row(alloc, 1, rising)?,
            Kind::Vanished => format!(in alloc; "* VANISHED (EARLIER) {mixed}")?,
            Kind::Idle => format!(in alloc; "* CAPABILITY IMAP4rev1 QRESYNC")?,
        };
        Ok(line.into_bytes())
    }
}

// The line of a row.
fn row(alloc: Global, uid: u32, modseq: u32) -> Result<String, AllocError> {
    format!(in alloc; "* 1 FETCH (UID {uid} FLAGS (\\Seen) MODSEQ ({modseq}))")
}

/// Reads so many lines of a kind, behind those of the codes, and makes the delta of them for a mailbox of which no message was
/// known. Gives how many rows it tells.
pub(crate) fn rows_told(
    alloc: Global,
    keeper: Keeper,
    kind: Kind,
    lines: u32,
) -> Result<usize, Status> {
    let Some(delta) = nothing(alloc) else {
        return Err(Status::Reply);
    };
    let kept = Cache::of(delta);
    let told = match keeper {
        Keeper::Make => made(alloc, &kept, kind, lines),
        Keeper::Gather => gathered(alloc, &kept, kind, lines),
    };
    drop(kept);
    let delta = told?;
    Ok(delta.rows.len())
}

// A mailbox without messages.
fn nothing(alloc: Global) -> Option<Delta>
    ensures { IfSome result (λ delta. delta.whole ≡ true) }
{
    let validity = Validity::new(1)?;
    let highest = ModSeq::new(1)?;
    let uidnext = Uid::new(1)?;
    Some(Delta {
        whole: true,
        validity,
        highest,
        uidnext,
        vanished: UidSet::none(alloc),
        rows: List::new(alloc),
    })
}

// The delta of lines that a maker took.
fn made(alloc: Global, kept: &Cache, kind: Kind, lines: u32) -> Result<Delta, Status> {
    let mut maker = DeltaMaker::new(alloc);
    match hear(alloc, kind, lines, &mut maker) {
        Ok(()) => finished(kept, maker),
        Err(status) => {
            drop(maker);
            Err(status)
        }
    }
}

fn finished(kept: &Cache, maker: DeltaMaker) -> Result<Delta, Status> {
    let last = Last {
        ending: Ending::Ok,
        code: Code::None,
    };
    let delta = maker.finish(Some(kept), &last, None);
    drop(last);
    delta.map_err(unmade)
}

// The delta of a list of lines.
fn gathered(alloc: Global, kept: &Cache, kind: Kind, lines: u32) -> Result<Delta, Status> {
    let mut reply = Reply {
        responses: List::new(alloc),
    };
    match hear(alloc, kind, lines, &mut reply) {
        Ok(()) => told(alloc, kept, reply),
        Err(status) => {
            drop(reply);
            Err(status)
        }
    }
}

fn told(alloc: Global, kept: &Cache, reply: Reply) -> Result<Delta, Status> {
    let selected = Replies {
        untagged: reply.responses,
        ending: Ending::Ok,
        code: Code::None,
    };
    let delta = delta_of(alloc, Some(kept), &selected, None);
    drop(selected);
    delta.map_err(unmade)
}

// Keeps all responses.
#[derive(Drop)]
struct Reply {
    responses: List<Response>,
}

impl Listen for Reply {
    ghost Stands = { λ reply told. reply.responses ≡ told };

    fn take(&mut self, response: Response) -> Result<(), AllocError> {
        self.responses.push(response)
    }
}

// Reads the lines, and hands each response on.
fn hear<H: Listen>(alloc: Global, kind: Kind, lines: u32, listener: &mut H) -> Result<(), Status> {
    hear_text(alloc, b"* OK [UIDVALIDITY 1]", listener)?;
    hear_text(alloc, b"* OK [UIDNEXT 4294967295]", listener)?;
    hear_text(alloc, b"* OK [HIGHESTMODSEQ 4294967296]", listener)?;
    for place in 0..lines {
        let line = kind.line(alloc, place).map_err(wanting)?;
        hear_line(alloc, line, listener)?;
    }
    Ok(())
}

fn hear_text<H: Listen>(alloc: Global, text: &[u8], listener: &mut H) -> Result<(), Status> {
    hear_line(alloc, text.to_vec(alloc).map_err(wanting)?, listener)
}

// Reads a line, and hands its response on.
fn hear_line<H: Listen>(alloc: Global, line: Vec<u8>, listener: &mut H) -> Result<(), Status> {
    let frame = Frame {
        bytes: Bytes::of(line),
        literals: List::new(alloc),
        at: 0,
    };
    let response = read(alloc, &frame);
    drop(frame);
    match response {
        Ok(response) => listener.take(response).map_err(wanting),
        Err(fault) => Err(unread(fault)),
    }
}

fn wanting(_refused: AllocError) -> Status {
    Status::Memory
}

fn unread(fault: ResponseFault) -> Status {
    match fault {
        ResponseFault::Memory => Status::Memory,
        _ => Status::Reply,
    }
}

fn unmade(fault: ResyncFault) -> Status {
    match fault {
        ResyncFault::Memory => Status::Memory,
        _ => Status::Reply,
    }
}
