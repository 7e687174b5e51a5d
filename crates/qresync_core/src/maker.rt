//! A delta that is made of replies as they come, response by response (RFC 7162, sections 3.2.5 and 3.2.5.1).

ghost use Rattle.std.specs.Prelude.{◌≡◌, ◌<◌, ◌+◌, ◌^◌, ◌||◌, ℕ, [], IfOk, IfErr, OnOk, OnErr, Option};
ghost use Rattle.std.specs.Option.{option_copied, option_or, unwrap_or};
ghost use Rattle.mailbox_cache.specs.Rows.{has_uid, row_at};
ghost use Rattle.imap_model.specs.declared.replies.Replies.{Replies};
ghost use Rattle.qresync_core.specs.Fitting.{Fits};
ghost use Rattle.qresync_core.specs.Hearing.{heard, numbers_told};
ghost use Rattle.qresync_core.specs.Making.{StandsFor, StandForReplies, Takes, HasMade};
ghost use Rattle.qresync_core.specs.Making.{anew, bare_with, made_judged, row_by};
ghost use Rattle.qresync_core.specs.Resync.{HasFault, TellsDelta, is_told_empty};
ghost use Rattle.qresync_core.specs.ToldCodes.{told_codes};
ghost use Rattle.qresync_core.specs.ToldGone.{tells_gone};

use crate::behind::is_closed;
use crate::codes::Told;
use crate::gone_sets::GoneSets;
use crate::latest::Latest;
use crate::resync::{check, tells_empty};
use crate::rows::is_bare;
use crate::{CodeFault, Codes, ResyncFault};
use imap_model::{Last, Listen, Response};
use mail_base::List;
use mailbox_cache::{Cache, Delta};
use std::alloc::{AllocError, Global};

/// Takes the reply to a SELECT, or to the FETCH of all rows, and keeps of it what a delta is made of.
///
/// It needs the memory of the rows and of the vanished UIDs, however many responses tell them. A row costs a push where the
/// rows rise, and else its part of a sort each time that their number doubled; each VANISHED is joined with others some twenty
/// times.
#[derive(Drop)]
pub struct DeltaMaker {
    // How many responses were taken; all else is of those behind the last CLOSED.
    count: usize,
    // What the codes of untagged OK, NO and BAD told.
    told: Told,
    // The last row of each UID.
    rows: Latest,
    // The UIDs that are gone.
    gone: GoneSets,
    // Whether EXISTS 0 was told.
    empty: bool,
    // The number of the first FETCH that is no row.
    bare: Option<usize>,
}

impl DeltaMaker {
    /// Nothing was taken yet. It takes no memory.
    pub fn new(alloc: Global) -> DeltaMaker
        ensures { StandsFor result [] }
    {
        DeltaMaker::anew(alloc, 0)
    }

    // Nothing was taken, behind so many responses.
    fn anew(alloc: Global, count: usize) -> DeltaMaker
        ensures { result ≡ anew count }
    {
        DeltaMaker {
            count,
            told: Told::nothing(),
            rows: Latest::new(alloc),
            gone: GoneSets::new(alloc),
            empty: false,
            bare: None,
        }
    }

    /// Whether the reply tells that the mailbox is empty, as `is_told_empty` does.
    pub fn empty(&self) -> bool
        ensures { (selected : Replies) → StandsFor self.now selected.untagged → result ≡ is_told_empty selected }
    {
        self.empty
    }

    /// What `delta_of` gives of the replies: this maker took that to SELECT, whose completion is `last`, and `every` that to
    /// the FETCH of all rows. No row is copied.
    pub fn finish(
        self,
        kept: Option<&Cache>,
        last: &Last,
        every: Option<DeltaMaker>,
    ) -> Result<Delta, ResyncFault>
        ensures value { IfOk result (λ delta. (selected : Replies) (all : Option Replies)
            → StandForReplies self last.now.code every selected all
            → TellsDelta (option_copied kept.entry) selected all delta) }
        ensures fault { IfErr result (λ fault. (selected : Replies) (all : Option Replies)
            → StandForReplies self last.now.code every selected all
            → HasFault (option_copied kept.entry) selected all fault) }
        ensures fits { IfOk result (λ delta. Fits (option_copied kept.entry) delta) }
    {
        match self.judged(kept, last, every.as_ref()) {
            Ok(codes) => Ok(self.made(kept, codes, every)?),
            Err(fault) => {
                drop(self);
                drop(every);
                Err(fault)
            }
        }
    }

    /// What `codes_of` gives of the reply to SELECT, whose completion is `last`.
    pub fn codes(&self, last: &Last) -> Result<Codes, CodeFault>
        ensures told { (selected : Replies) → StandsFor self.now selected.untagged → selected.code ≡ last.now.code
            → result ≡ told_codes selected }
        ensures value { result ≡ numbers_told (heard self.now.told last.now.code) }
    {
        let mut told = self.told;
        told.hear(&last.code);
        told.numbers()
    }

    // The numbers that the delta has, or the first fault.
    fn judged(
        &self,
        kept: Option<&Cache>,
        last: &Last,
        every: Option<&DeltaMaker>,
    ) -> Result<Codes, ResyncFault>
        ensures { result ≡ made_judged (option_copied kept.entry) self.now last.now.code (option_copied every.entry) }
    {
        let codes = self.codes(last)?;
        check(kept, &codes)?;
        match every.unwrap_or(self).bare {
            None => Ok(codes),
            Some(index) => Err(ResyncFault::BareRow { index }),
        }
    }

    // The delta with these numbers.
    fn made(
        self,
        kept: Option<&Cache>,
        codes: Codes,
        every: Option<DeltaMaker>,
    ) -> Result<Delta, AllocError>
        ensures { IfOk result (HasMade (option_copied kept.entry) self every codes) }
    {
        let read = self.read(every);
        let (latest, gone) = read;
        let rows = latest.in_order()?;
        let vanished = gone.beside(kept, &rows)?;
        Ok(Delta {
            whole: kept.is_none(),
            validity: codes.validity,
            highest: codes.highest,
            uidnext: codes.uidnext,
            vanished,
            rows: List::of(rows),
        })
    }

    // The rows that count, and what is gone.
    fn read(self, every: Option<DeltaMaker>) -> (Latest, GoneSets)
        ensures rows { result.0 ≡ (unwrap_or every self).rows }
        ensures gone { result.1 ≡ self.gone }
    {
        let DeltaMaker { rows, gone, .. } = self;
        match every {
            Some(maker) => (maker.rows, gone),
            None => (rows, gone),
        }
    }

    // CLOSED: what was told before it speaks of another mailbox.
    fn begin_anew(&mut self)
        requires { self.old.count + 1 < 2 ^ 64 }
        ensures { self.new ≡ anew (self.old.count + 1) }
    {
        *self = DeltaMaker::anew(self.rows.allocator(), self.count + 1);
    }

    // A response that isn't CLOSED.
    fn note(&mut self, response: Response) -> Result<(), AllocError>
        requires { self.old.count + 1 < 2 ^ 64 }
        ensures taken { OnOk result (Takes response self.old self.new) }
        ensures kept { OnErr result (self.new ≡ self.old) }
    {
        let mut told = self.told;
        told.hear_in(&response);
        let empty = self.empty || tells_empty(&response);
        let bare = self.bare_with(&response);
        hand_on(response, &mut self.rows, &mut self.gone)?;
        self.count += 1;
        self.told = told;
        self.empty = empty;
        self.bare = bare;
        Ok(())
    }

    // The number of the first FETCH that is no row, with the next response.
    fn bare_with(&self, response: &Response) -> Option<usize>
        ensures { result ≡ bare_with response.now self.now }
    {
        self.bare.or(is_bare(response).then_some(self.count))
    }
}

impl Listen for DeltaMaker {
    ghost use Rattle.qresync_core.specs.Making.{StandsFor};

    ghost Stands = { λ maker told. StandsFor maker told };

    // Where no more responses can be counted, it answers as if memory were wanting.
    fn take(&mut self, response: Response) -> Result<(), AllocError> {
        if self.count == usize::MAX {
            drop(response);
            return Err(AllocError);
        }
        if is_closed(&response) {
            drop(response);
            self.begin_anew();
            return Ok(());
        }
        self.note(response)
    }
}

// Keeps the row that a response tells, or the UIDs that are gone. Nothing of it is copied.
fn hand_on(response: Response, rows: &mut Latest, gone: &mut GoneSets) -> Result<(), AllocError>
    ensures rows { OnOk result ((uid : ℕ) → row_at uid rows.new ≡ option_or (row_by response uid) (row_at uid rows.old)) }
    ensures gone { OnOk result ((uid : ℕ) → has_uid gone.new uid ≡ (has_uid gone.old uid || tells_gone uid response)) }
    ensures kept { OnErr result ((rows.new ≡ rows.old) × (gone.new ≡ gone.old)) }
{
    match response {
        Response::Fetch(fetched) => rows.note(fetched),
        Response::Vanished { earlier: _, uids } => gone.push(uids),
        other => {
            drop(other);
            Ok(())
        }
    }
}
