//! The player: what playback needs next, by the book and by what was told (this client's profile of
//! RFC 4549, section 4.2).

ghost use Rattle.action_queue.specs.Book.{Meaning, after, cache_at, learned, meaning};
ghost use Rattle.action_queue.specs.Queues.{due_action};
ghost use Rattle.action_queue.specs.declared.event.Event.{Event};
ghost use Rattle.imap_model.specs.declared.item.Item.{Item};
ghost use Rattle.imap_model.specs.declared.server.Server.{Server};
ghost use Rattle.mailbox_cache.specs.declared.delta.Delta.{Delta};
ghost use Rattle.playback.specs.Allowed.{IsAllowed, IsGathered, IsReply, PermitsTruly, Records, WhyNotChosen};
ghost use Rattle.playback.specs.Choosing.{FitsWanted, IsChosen, IsChosenFault, IsEntered, begun_with, box_fault};
ghost use Rattle.playback.specs.Choosing.{chosen_box, chosen_due, committed, is_below, is_many, rows_fault};
ghost use Rattle.playback.specs.Choosing.{reset_in, reset_of, target_fault, wanted};
ghost use Rattle.book_laws.specs.Kept.{KeptBook};
ghost use Rattle.playback.specs.Knows.{Knows};
ghost use Rattle.playback.specs.Left.{Awaits, left};
ghost use Rattle.playback.specs.Needs.{IsBeside, IsFinished, IsLawfulNeed, NeedsNoMemory, need_learn, need_of};
ghost use Rattle.playback.specs.Replying.{IsHeard, IsHeardFault};
ghost use Rattle.book_laws.specs.Sound.{IsSound};
ghost use Rattle.playback.specs.Taken.{with_kept};
ghost use Rattle.playback.specs.Worlds.{World, begins, given};
ghost use Rattle.qresync_core.specs.Fitting.{Fits};
ghost use Rattle.std.specs.Option.{is_some, option_copied};
ghost use Rattle.std.specs.Prelude.{IfErr, IfOk, IsErrOf, List, None, Ok, OnErr, OnOk, Some, length, true, ℕ, ◌<◌, ◌↔◌, ◌≡◌};
ghost use Rattle.playback.specs.declared.need.Need.TheVariants as needs;
ghost use Rattle.playback.specs.declared.need.Unheard.TheVariants as unheards;

use crate::heard::heard_of;
use crate::{Finding, Need, Resynced, Selected, Step, Unheard};
use action_queue::{Action, Book, Event};
use imap_model::Replies;
use mail_base::{BoxName, MAX_ROWS, Validity};
use mailbox_cache::{Cache, Delta};
use qresync_core::ResyncFault;
use std::alloc::{AllocError, Global};

/// What the player knows in one run and one connection: what is selected, what was found out about the action that is
/// due, and what is still to be recorded. It touches nothing: it is told the book and the replies, and answers what is
/// needed next.
#[derive(Drop)]
pub struct Player {
    pub(crate) alloc: Global,
    /// An earlier run recorded the intent that is pending.
    pub(crate) resumed: bool,
    pub(crate) selected: Option<Selected>,
    pub(crate) told: Finding,
    pub(crate) learns: Option<Resynced>,
    /// How many mailboxes, in the book's order, were resynchronised since every action was settled.
    pub(crate) resynced: usize,
}

impl Player {
    /// A player as a connection begins: nothing is selected, nothing was told. It takes no memory.
    pub fn begin(alloc: Global, book: &Book) -> Player
        ensures value { result ≡ begun_with alloc (meaning book.now) }
        ensures beside { IsBeside result (meaning book.now) }
        ensures entered { IsEntered (meaning book.now) result (meaning book.now) }
        ensures knows { (s : Server) → KeptBook (meaning book.now) s None → Knows result (meaning book.now) (begins s) }
    {
        Player::begun(alloc, book)
    }

    /// What is needed next. What a resynchronisation told is recorded first, and the actions are settled in order; then
    /// each mailbox is resynchronised once more. Fails for want of memory alone; `Settle`, `Withdraw` and `Finished` take none.
    pub fn next(&self, book: &Book) -> Result<Need, AllocError>
        ensures value { IfOk result (λ need. need ≡ need_of self.now (meaning book.now)) }
        ensures at_hand { NeedsNoMemory (need_of self.now (meaning book.now)) → result ≡ Ok (need_of self.now (meaning book.now)) }
        ensures finished { (need_of self.now (meaning book.now) ≡ needs.Finished) ↔ IsFinished self.now (meaning book.now) }

        // Whatever the replies were, what it needs recorded may come next in the book, and has a record.
        ensures lawful { IsSound (meaning book.now) → IsBeside self.now (meaning book.now)
            → IfOk result (λ need. IsLawfulNeed need self.now (meaning book.now)) }

        // Beside a kept book and server, at any later moment of the connection at which no reply is owed, what it needs
        // may be done, and what is recorded is true.
        ensures allowed { IfOk result (λ need. (w : World) → KeptBook (meaning book.now) w.course.now w.waiting → w.owed ≡ None
            → Knows self.now (meaning book.now) w → IsAllowed need self.now (meaning book.now) w) }
    {
        self.need(book)
    }

    /// Takes what a SELECT told, and the FETCH of all rows where that was sent: the delta, or why there is none.
    ///
    /// `Resync` where the replies make no delta; `Target` where the mailbox has a UIDVALIDITY below that of the message
    /// of the action that is due, or of the action's intent (RFC 9051, section 2.3.1.1); `Rows` where its cache would
    /// have too many rows; the first of them that holds, or `Memory`. Then the player is as before.
    pub fn chosen(&mut self, book: &Book, told: Result<Delta, ResyncFault>) -> Result<(), Unheard>
        requires { FitsWanted self.old (meaning book.now) told }
        ensures value { OnOk result (IsChosen self.old (meaning book.now) told self.new) }
        ensures same { OnErr result (self.new ≡ self.old) }
        ensures fault { IfErr result (IsChosenFault self.old (meaning book.now) told) }
        ensures falls { OnOk result ((name : List ℕ) → IsSound (meaning book.now) → need_of self.old (meaning book.now) ≡ needs.Select name
            → left self.new (meaning book.now) < left self.old (meaning book.now)) }
        ensures why { IfErr result (λ fault. WhyNotChosen fault told self.old (meaning book.now)) }

        // A lawful server's SELECT tells no lower UIDVALIDITY.
        ensures honest { (w : World) (delta : Delta) (old now : ℕ) → told ≡ Ok delta → KeptBook (meaning book.now) w.course.now w.waiting
            → IsGathered delta (meaning book.now) w → Knows self.old (meaning book.now) w → IsErrOf result (unheards.Target old now) → ⊥ }
        ensures beside { OnOk result (IsSound (meaning book.now) → IsBeside self.old (meaning book.now)
            → IsBeside self.new (meaning book.now)) }
        ensures knows { OnOk result ((delta : Delta) (w : World) → told ≡ Ok delta
            → KeptBook (meaning book.now) w.course.now w.waiting → IsGathered delta (meaning book.now) w
            → Knows self.old (meaning book.now) w → Knows self.new (meaning book.now) (given w)) }
    {
        self.choose(book, told)
    }

    /// Where the SELECT that it needed told a UIDVALIDITY above that of the mailbox's cache: the event that takes the cache away. Behind
    /// its record the player is as before, and what the SELECT and the FETCH of all rows told is handed over then.
    pub fn outdated(&self, book: &Book, told: Validity) -> Option<Event>
        ensures { result ≡ reset_in (meaning book.now) told (wanted self.now (meaning book.now)) }
    {
        let Step::Select { name, .. } = self.step(book) else {
            return None;
        };
        reset_of(&name, cache_in(book, &name), told)
    }

    /// Takes the reply to the question or the command that it needed. `permits` says whether the mailbox keeps the
    /// flags of the action that is due, where that is a flag action.
    ///
    /// `Lacks` where the reply lacks FLAGS or MODSEQ of the row, a COPYUID of the one message, or APPENDUID; or
    /// `Memory`. Then the player is as before.
    pub fn heard(&mut self, book: &Book, replies: &Replies, permits: bool) -> Result<(), Unheard>
        ensures value { OnOk result (IsSound (meaning book.now) → IsHeard self.old (meaning book.now) permits replies.now self.new) }
        ensures same { OnErr result (self.new ≡ self.old) }
        ensures fault { IfErr result (IsHeardFault self.old (meaning book.now) permits replies.now) }
        ensures falls { OnOk result (IsSound (meaning book.now) → Awaits (need_of self.old (meaning book.now))
            → left self.new (meaning book.now) < left self.old (meaning book.now)) }
        ensures beside { OnOk result (IsSound (meaning book.now) → IsBeside self.old (meaning book.now)
            → IsBeside self.new (meaning book.now)) }

        // The reply to what was asked, where a server carried it out, lacks nothing.
        ensures honest { (w : World) (item : Item) → KeptBook (meaning book.now) w.course.now w.waiting → IsReply replies.now w
            → Knows self.old (meaning book.now) w → IsErrOf result (unheards.Lacks item) → ⊥ }
        ensures knows { OnOk result ((w : World) → KeptBook (meaning book.now) w.course.now w.waiting → IsReply replies.now w
            → PermitsTruly permits (meaning book.now) w → Knows self.old (meaning book.now) w → Knows self.new (meaning book.now) (given w)) }
    {
        self.hear(book, replies, permits)
    }

    /// Goes on behind the record of what it needed, a `Commit`, a `Settle` or a `Withdraw`; `book` is the book as it is then.
    pub fn committed(&mut self, book: &Book)
        ensures value { self.new ≡ committed self.old (meaning book.now) }
        ensures beside { (before : Meaning) (event : Event) → meaning book.now ≡ after before event
            → Records (need_of self.old before) event → IsBeside self.old before → IsBeside self.new (meaning book.now) }
        ensures falls { (before : Meaning) (event : Event) → meaning book.now ≡ after before event
            → Records (need_of self.old before) event → IsSound before → IsBeside self.old before
            → left self.new (meaning book.now) < left self.old before }
        ensures entered { (entry before : Meaning) (event : Event) → meaning book.now ≡ after before event
            → Records (need_of self.old before) event → IsSound before → IsEntered entry self.old before
            → IsEntered entry self.new (meaning book.now) }
        ensures knows { (before : Meaning) (event : Event) (w : World) → meaning book.now ≡ after before event
            → Records (need_of self.old before) event → KeptBook before w.course.now w.waiting
            → KeptBook (meaning book.now) w.course.now w.waiting → w.owed ≡ None → Knows self.old before w
            → Knows self.new (meaning book.now) w }
    {
        drop(self.go_on(book));
    }

    /// Whether what a resynchronisation told waits to be recorded. It is needed next then, and `learn` gives it.
    pub fn has_delta(&self) -> bool
        ensures { result ≡ is_some self.now.learns }
    {
        self.learns.is_some()
    }

    /// Moves what a resynchronisation told out into the event that is needed, and goes on as `committed` does behind its
    /// record; `book` is the book before that. No row is copied, and no memory is taken. Where the event isn't recorded
    /// then, the player isn't used again.
    pub fn learn(&mut self, book: &Book) -> Event
        requires { is_some self.old.learns ≡ true }
        ensures value { need_of self.old (meaning book.now) ≡ needs.Commit result }
        ensures goes { self.new ≡ committed self.old (after (meaning book.now) result) }
        ensures beside { IsBeside self.old (meaning book.now) → IsBeside self.new (after (meaning book.now) result) }
        ensures falls { IsSound (meaning book.now) → IsBeside self.old (meaning book.now)
            → left self.new (after (meaning book.now) result) < left self.old (meaning book.now) }
        ensures entered { (entry : Meaning) → IsSound (meaning book.now) → IsEntered entry self.old (meaning book.now)
            → IsEntered entry self.new (after (meaning book.now) result) }
        ensures knows { (w : World) → KeptBook (meaning book.now) w.course.now w.waiting
            → KeptBook (after (meaning book.now) result) w.course.now w.waiting → w.owed ≡ None → Knows self.old (meaning book.now) w
            → Knows self.new (after (meaning book.now) result) w }
    {
        self.move_out(book)
    }

    // The player as a connection begins.
    fn begun(alloc: Global, book: &Book) -> Player
        ensures { result ≡ begun_with alloc (meaning book.now) }
    {
        Player {
            alloc,
            resumed: book.pending.is_some(),
            selected: None,
            told: Finding::Nothing,
            learns: None,
            resynced: 0,
        }
    }

    // Takes what a SELECT told.
    fn choose(&mut self, book: &Book, told: Result<Delta, ResyncFault>) -> Result<(), Unheard>
        requires { FitsWanted self.old (meaning book.now) told }
        ensures value { OnOk result (IsChosen self.old (meaning book.now) told self.new) }
        ensures same { OnErr result (self.new ≡ self.old) }
        ensures fault { IfErr result (IsChosenFault self.old (meaning book.now) told) }
    {
        let delta = told?;
        let Step::Select { name, under } = self.step(book) else {
            return Ok(());
        };
        if let Some(fault) = box_fault(self.alloc, book, &name, under, &delta)? {
            return Err(fault);
        }
        self.select(book, name, delta);
        Ok(())
    }

    // The mailbox is selected under the UIDVALIDITY that was told, and what was told is to be recorded.
    fn select(&mut self, book: &Book, name: BoxName, delta: Delta)
        ensures { self.new ≡ chosen_box self.old (meaning book.now) delta name }
    {
        self.told = chosen_due(book, &delta);
        self.selected = Some(Selected {
            name: name.copy(),
            validity: delta.validity,
        });
        self.learns = Some(Resynced { name, delta });
    }

    // Takes the reply to the question or the command that is due.
    fn hear(&mut self, book: &Book, replies: &Replies, permits: bool) -> Result<(), Unheard>
        ensures value { OnOk result (IsSound (meaning book.now) → IsHeard self.old (meaning book.now) permits replies.now self.new) }
        ensures same { OnErr result (self.new ≡ self.old) }
        ensures fault { IfErr result (IsHeardFault self.old (meaning book.now) permits replies.now) }
    {
        let told = heard_of(self, book, replies, permits)?;
        self.keep(told);
        Ok(())
    }

    // What was told is kept, where something was.
    fn keep(&mut self, told: Option<Finding>)
        ensures { self.new ≡ with_kept self.old told }
    {
        if let Some(told) = told {
            self.told = told;
        }
    }

    // Goes on behind a record, and hands out what of a resynchronisation was recorded.
    fn go_on(&mut self, book: &Book) -> Option<Resynced>
        ensures value { self.new ≡ committed self.old (meaning book.now) }
        ensures told { result ≡ self.old.learns }
    {
        match &self.learns {
            None => self.told = Finding::Nothing,
            Some(_) => {
                if book.queue.due().is_none() && self.resynced < book.boxes.len() {
                    self.resynced += 1;
                }
            }
        }
        self.resumed = self.resumed && book.pending.is_some();
        self.learns.take()
    }

    // What a resynchronisation told moves into its event.
    fn move_out(&mut self, book: &Book) -> Event
        requires { is_some self.old.learns ≡ true }
        ensures value { need_learn self.old.learns ≡ needs.Commit result }
        ensures goes { self.new ≡ committed self.old (meaning book.now) }
    {
        let told = self.go_on(book).unwrap();
        Event::Learn {
            name: told.name,
            delta: told.delta,
        }
    }
}

// Why the delta of the mailbox that is to be selected isn't taken: the first that holds.
fn box_fault(
    alloc: Global,
    book: &Book,
    name: &BoxName,
    under: Option<Validity>,
    delta: &Delta,
) -> Result<Option<Unheard>, AllocError>
    requires { Fits (cache_at name.now (meaning book.now).boxes) delta.now }
    ensures { IfOk result (λ fault. fault ≡ box_fault (meaning book.now) delta.now (Some (record { name = name.now; under = under }))) }
{
    if let Some(fault) = target_fault(under, delta.validity) {
        return Ok(Some(fault));
    }
    rows_fault(alloc, cache_in(book, name), delta)
}

// The mailbox has a UIDVALIDITY below the one that it is to have.
fn target_fault(under: Option<Validity>, told: Validity) -> Option<Unheard>
    ensures { result ≡ target_fault (is_below under told) None }
{
    match under {
        None => None,
        Some(kept) => {
            if told.number() < kept.number() {
                Some(Unheard::Target { kept, told })
            } else {
                None
            }
        }
    }
}

// The cache is to be taken away where the UIDVALIDITY that was told is above its own.
fn reset_of(name: &BoxName, kept: Option<&Cache>, told: Validity) -> Option<Event>
    ensures { result ≡ reset_of name.now (option_copied kept.entry) told }
{
    let Some(cache) = kept else {
        return None;
    };
    if cache.validity.number() < told.number() {
        Some(Event::Reset {
            name: name.copy(),
            kept: cache.validity,
            told,
        })
    } else {
        None
    }
}

// The cache that the book has of this name, if it has one.
fn cache_in<'a>(book: &'a Book, name: &BoxName) -> Option<&'a Cache>
    ensures { option_copied result ≡ cache_at name.now book.now.boxes }
{
    let known = book.known(name)?;
    known.cache.as_ref()
}

// The mailbox's cache would have too many rows.
fn rows_fault(
    alloc: Global,
    kept: Option<&Cache>,
    delta: &Delta,
) -> Result<Option<Unheard>, AllocError>
    requires { Fits (option_copied kept) delta.now }
    ensures { IfOk result (λ fault. fault ≡ rows_fault (is_many (length (learned (option_copied kept.entry) delta.now).rows))) }
{
    let Some(cache) = kept else {
        return Ok(many_fault(delta.rows.len()));
    };
    if !cache.would_exceed(MAX_ROWS, delta) {
        return Ok(None);
    }
    let cache = cache.apply(alloc, delta)?;
    Ok(many_fault(cache.rows.len()))
}

fn many_fault(count: usize) -> Option<Unheard>
    ensures { result ≡ rows_fault (is_many count) }
{
    if count > MAX_ROWS {
        Some(Unheard::Rows {
            count: count as u64,
        })
    } else {
        None
    }
}

// Of an append the UIDNEXT is kept.
fn chosen_due(book: &Book, delta: &Delta) -> Finding
    ensures { result ≡ chosen_due (due_action book.now.queue.items) delta.now }
{
    let Some(queued) = book.queue.due() else {
        return Finding::Nothing;
    };
    match &queued.action {
        Action::Flag { .. } | Action::Move { .. } => Finding::Nothing,
        Action::Append { .. } => Finding::Next {
            validity: delta.validity,
            uidnext: delta.uidnext,
        },
    }
}
