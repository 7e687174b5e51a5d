//! What is due next, which is found without memory: by the book, by what is selected, and by what was found out about
//! the action that is due (this client's profile of RFC 4549, section 4.2).

ghost use Rattle.action_queue.specs.Book.{meaning};
ghost use Rattle.std.specs.Prelude.{◌≡◌};
ghost use Rattle.playback.specs.Steps as spec;

use crate::{Finding, Player, Selected, Spot};
use action_queue::{Action, Book, Found, Intent, Kind, Outcome, Place, Target};
use append_probe::Verdict;
use dummy_ids::resolve;
use mail_base::{BoxName, ModSeq, Validity};
use uid_sets::Uid;

/// What is due next. What a command or a delta holds is looked up as it is needed.
#[derive(Drop)]
pub enum Step {
    /// What was told of the selected mailbox is recorded.
    Learn,
    /// The mailbox is selected anew. Where `under` is given, it is to have this UIDVALIDITY.
    Select {
        name: BoxName,
        under: Option<Validity>,
    },
    /// The row of the message is asked for.
    AskRow(Uid),
    /// The append's Message-ID is searched for from this UID on.
    Search(Uid),
    /// The Message-ID fields of the candidates are asked for.
    AskIds,
    /// The intent is recorded.
    Intend(Intent),
    /// The action that is due ends so; or its try does, where that had no effect and another one may follow.
    Settle(Outcome),
    /// The command of the pending intent is sent.
    Send,
    /// Nothing is left to do.
    Finished,
}

impl Player {
    /// What is due next. What a resynchronisation told is recorded first, and the actions are settled in order; then
    /// each mailbox is resynchronised once more.
    pub(crate) fn step(&self, book: &Book) -> Step
        ensures { result ≡ spec.step_of self.now (meaning book.now) }
    {
        if self.learns.is_some() {
            return Step::Learn;
        }
        match book.queue.due() {
            None => self.step_last(book),
            Some(queued) => self.step_action(book, &queued.action),
        }
    }

    // Every action is settled: the next mailbox is resynchronised.
    fn step_last(&self, book: &Book) -> Step
        ensures { result ≡ spec.step_last self.now.resynced (meaning book.now) }
    {
        match book.boxes.as_slice().get(self.resynced) {
            None => Step::Finished,
            Some(known) => Step::Select {
                name: known.name.copy(),
                under: None,
            },
        }
    }

    // The action that is due.
    fn step_action(&self, book: &Book, action: &Action) -> Step
        ensures { result ≡ spec.step_action self.now (meaning book.now) action.now }
    {
        match action {
            Action::Flag { target, .. } => self.step_flag(book, target),
            Action::Move { target, to } => self.step_move(book, target, to),
            Action::Append { to, .. } => self.step_append(&book.pending, to),
        }
    }

    // A flag action. A message that is never made ends it.
    fn step_flag(&self, book: &Book, target: &Target) -> Step
        ensures { result ≡ spec.step_flag self.now (meaning book.now) target.now }
    {
        match resolve(book, target) {
            Found::Real {
                name,
                validity,
                uid,
            } => {
                let spot = Spot {
                    name,
                    validity,
                    uid,
                };
                self.step_flag_at(&book.pending, &spot)
            }
            Found::NotYet { by } | Found::Never { by } => conflict(Kind::TargetUnknown { k: by }),
        }
    }

    // A flag action on a message that is known.
    fn step_flag_at(&self, pending: &Option<Intent>, spot: &Spot) -> Step
        ensures { result ≡ spec.step_flag_at self.now pending.now spot.now }
    {
        match pending {
            None => self.in_box(false, spot, flag_first(&self.told, spot)),
            Some(Intent::Store { modseq, .. }) => match &self.told {
                Finding::Ended(outcome) => Step::Settle(*outcome),
                Finding::Nothing
                | Finding::NoRow
                | Finding::Row { .. }
                | Finding::Barred
                | Finding::Next { .. }
                | Finding::Candidates(_)
                | Finding::Probed(_) => {
                    self.in_box(
                        true,
                        spot,
                        flag_again(self.resumed, *modseq, &self.told, spot),
                    )
                }
            },
            Some(Intent::Shift { .. }) | Some(Intent::Put { .. }) => select_box(spot),
        }
    }

    // A move. A message that is never made ends it.
    fn step_move(&self, book: &Book, target: &Target, to: &BoxName) -> Step
        ensures { result ≡ spec.step_move self.now (meaning book.now) target.now to.now }
    {
        match resolve(book, target) {
            Found::Real {
                name,
                validity,
                uid,
            } => {
                let spot = Spot {
                    name,
                    validity,
                    uid,
                };
                self.step_move_at(&book.pending, &spot, to)
            }
            Found::NotYet { by } | Found::Never { by } => conflict(Kind::TargetUnknown { k: by }),
        }
    }

    // A move of a message that is known.
    fn step_move_at(&self, pending: &Option<Intent>, spot: &Spot, to: &BoxName) -> Step
        ensures { result ≡ spec.step_move_at self.now pending.now spot.now to.now }
    {
        match pending {
            None => self.in_box(false, spot, move_first(&self.told, spot, to)),
            Some(Intent::Shift { .. }) => match &self.told {
                Finding::Ended(outcome) => Step::Settle(*outcome),
                Finding::Nothing
                | Finding::NoRow
                | Finding::Row { .. }
                | Finding::Barred
                | Finding::Next { .. }
                | Finding::Candidates(_)
                | Finding::Probed(_) => self.in_box(
                    true,
                    spot,
                    move_again(self.resumed, &self.told, spot),
                ),
            },
            Some(Intent::Store { .. }) | Some(Intent::Put { .. }) => select_box(spot),
        }
    }

    // An append.
    fn step_append(&self, pending: &Option<Intent>, to: &BoxName) -> Step
        ensures { result ≡ spec.step_append self.now pending.now to.now }
    {
        match pending {
            None => append_first(&self.selected, &self.told, to),
            Some(
                Intent::Put {
                    validity,
                    uidnext,
                    ..
                },
            ) => self.step_put(to, *validity, *uidnext),
            Some(Intent::Store { .. }) | Some(Intent::Shift { .. }) => Step::Select {
                name: to.copy(),
                under: None,
            },
        }
    }

    // An append whose intent is pending.
    fn step_put(&self, to: &BoxName, validity: Validity, uidnext: Uid) -> Step
        ensures { result ≡ spec.step_put self.now to.now validity uidnext }
    {
        match &self.told {
            Finding::Ended(outcome) => Step::Settle(*outcome),
            Finding::Nothing
            | Finding::NoRow
            | Finding::Row { .. }
            | Finding::Barred
            | Finding::Next { .. }
            | Finding::Candidates(_)
            | Finding::Probed(_) => {
                if is_selected_at(&self.selected, to, validity) {
                    append_again(self.resumed, &self.told, to, validity, uidnext)
                } else {
                    elsewhere(true, above_at(&self.selected, to, validity), to, validity)
                }
            }
        }
    }

    // The step, where the mailbox of the message is selected under its UIDVALIDITY. Else the action ends, or the mailbox is
    // selected first.
    fn in_box(&self, meant: bool, spot: &Spot, step: Step) -> Step
        ensures { result ≡ spec.in_box self.now.selected meant spot.now step }
    {
        if is_selected_at(&self.selected, &spot.name, spot.validity) {
            step
        } else {
            let above = above_at(&self.selected, &spot.name, spot.validity);
            elsewhere(meant, above, &spot.name, spot.validity)
        }
    }
}

// Whether this mailbox is selected under this UIDVALIDITY.
fn is_selected_at(selected: &Option<Selected>, name: &BoxName, validity: Validity) -> bool
    ensures { result ≡ spec.is_selected_at selected.now name.now validity }
{
    match selected {
        None => false,
        Some(selected) => {
            selected.name == *name && selected.validity.number() == validity.number()
        }
    }
}

// The UIDVALIDITY under which this mailbox is selected, where that is above this one.
fn above_at(selected: &Option<Selected>, name: &BoxName, validity: Validity) -> Option<Validity>
    ensures { result ≡ spec.above_at selected.now name.now validity }
{
    match selected {
        None => None,
        Some(selected) => {
            if selected.name == *name && validity.number() < selected.validity.number() {
                Some(selected.validity)
            } else {
                None
            }
        }
    }
}

// The mailbox is selected under a greater UIDVALIDITY, and the action ends; or it is selected first.
fn elsewhere(meant: bool, above: Option<Validity>, name: &BoxName, validity: Validity) -> Step
    ensures { result ≡ spec.elsewhere meant above name.now validity }
{
    match above {
        None => select_under(name, validity),
        Some(told) => conflict(renewed_as(meant, validity, told)),
    }
}

fn renewed_as(meant: bool, o: Validity, n: Validity) -> Kind
    ensures { result ≡ spec.renewed_as meant o n }
{
    if meant {
        Kind::ResetAfterLoss { o, n }
    } else {
        Kind::ValidityChanged { o, n }
    }
}

fn conflict(kind: Kind) -> Step
    ensures { result ≡ spec.conflict kind }
{
    Step::Settle(Outcome::Conflict(kind))
}

fn select_under(name: &BoxName, validity: Validity) -> Step
    ensures { result ≡ spec.select_under name.now validity }
{
    Step::Select {
        name: name.copy(),
        under: Some(validity),
    }
}

fn select_box(spot: &Spot) -> Step
    ensures { result ≡ spec.select_box spot.now }
{
    select_under(&spot.name, spot.validity)
}

// A flag action without an intent.
fn flag_first(told: &Finding, spot: &Spot) -> Step
    ensures { result ≡ spec.flag_first told.now spot.now }
{
    match told {
        Finding::NoRow => conflict(Kind::MessageGone),
        Finding::Row { modseq, so } => flag_new(*modseq, *so, spot),
        Finding::Barred => conflict(Kind::NotPermanent),
        Finding::Nothing
        | Finding::Ended(_)
        | Finding::Next { .. }
        | Finding::Candidates(_)
        | Finding::Probed(_) => Step::AskRow(spot.uid),
    }
}

// The row is known: the STORE is meant, unless the flags are as asked.
fn flag_new(modseq: ModSeq, so: bool, spot: &Spot) -> Step
    ensures { result ≡ spec.flag_new modseq so spot.now }
{
    if so {
        return conflict(Kind::AlreadySo);
    }
    Step::Intend(Intent::Store {
        name: spot.name.copy(),
        validity: spot.validity,
        uid: spot.uid,
        modseq,
    })
}

// A flag action whose intent is pending with this mod-sequence: of this run, or of an earlier one.
fn flag_again(resumed: bool, mark: ModSeq, told: &Finding, spot: &Spot) -> Step
    ensures { result ≡ spec.flag_again resumed mark told.now spot.now }
{
    if resumed {
        flag_open(mark, told, spot)
    } else {
        Step::Send
    }
}

// A flag action whose intent an earlier run recorded.
fn flag_open(mark: ModSeq, told: &Finding, spot: &Spot) -> Step
    ensures { result ≡ spec.flag_open mark told.now spot.now }
{
    match told {
        Finding::NoRow => conflict(Kind::GoneAfterLoss),
        Finding::Row { modseq, so } => flag_judged(mark, *modseq, *so),
        Finding::Nothing
        | Finding::Barred
        | Finding::Ended(_)
        | Finding::Next { .. }
        | Finding::Candidates(_)
        | Finding::Probed(_) => Step::AskRow(spot.uid),
    }
}

// The row has the mod-sequence of the intent, so the STORE had no effect; or another one, and then it may have
// had its effect.
fn flag_judged(mark: ModSeq, modseq: ModSeq, so: bool) -> Step
    ensures { result ≡ spec.flag_judged mark modseq so }
{
    if modseq.number() == mark.number() {
        return Step::Send;
    }
    if so {
        return conflict(Kind::FoundSo);
    }
    conflict(Kind::StoreUnsure { m: mark, f: modseq })
}

// A move without an intent.
fn move_first(told: &Finding, spot: &Spot, to: &BoxName) -> Step
    ensures { result ≡ spec.move_first told.now spot.now to.now }
{
    match told {
        Finding::NoRow => conflict(Kind::MessageGone),
        Finding::Row { .. } => Step::Intend(Intent::Shift {
            from: spot.name.copy(),
            validity: spot.validity,
            uid: spot.uid,
            to: to.copy(),
        }),
        Finding::Nothing
        | Finding::Barred
        | Finding::Ended(_)
        | Finding::Next { .. }
        | Finding::Candidates(_)
        | Finding::Probed(_) => Step::AskRow(spot.uid),
    }
}

// A move whose intent is pending: of this run, or of an earlier one.
fn move_again(resumed: bool, told: &Finding, spot: &Spot) -> Step
    ensures { result ≡ spec.move_again resumed told.now spot.now }
{
    if resumed {
        move_open(told, spot)
    } else {
        Step::Send
    }
}

// A move whose intent an earlier run recorded: as long as the message is there, it had no effect.
fn move_open(told: &Finding, spot: &Spot) -> Step
    ensures { result ≡ spec.move_open told.now spot.now }
{
    match told {
        Finding::NoRow => conflict(Kind::SourceGone),
        Finding::Row { .. } => Step::Send,
        Finding::Nothing
        | Finding::Barred
        | Finding::Ended(_)
        | Finding::Next { .. }
        | Finding::Candidates(_)
        | Finding::Probed(_) => Step::AskRow(spot.uid),
    }
}

// An append without an intent: its mailbox is selected anew, and then the intent names the UIDNEXT that was told.
fn append_first(selected: &Option<Selected>, told: &Finding, to: &BoxName) -> Step
    ensures { result ≡ spec.append_first selected.now told.now to.now }
{
    match told {
        Finding::Next { validity, uidnext } => append_new(selected, to, *validity, *uidnext),
        Finding::Nothing
        | Finding::NoRow
        | Finding::Row { .. }
        | Finding::Barred
        | Finding::Ended(_)
        | Finding::Candidates(_)
        | Finding::Probed(_) => Step::Select {
            name: to.copy(),
            under: None,
        },
    }
}

fn append_new(selected: &Option<Selected>, to: &BoxName, validity: Validity, uidnext: Uid) -> Step
    ensures { result ≡ spec.append_new selected.now to.now validity uidnext }
{
    if is_selected_at(selected, to, validity) {
        return Step::Intend(Intent::Put {
            to: to.copy(),
            validity,
            uidnext,
        });
    }
    Step::Select {
        name: to.copy(),
        under: None,
    }
}

// An append whose intent is pending: of this run, or of an earlier one.
fn append_again(
    resumed: bool,
    told: &Finding,
    to: &BoxName,
    validity: Validity,
    uidnext: Uid,
) -> Step
    ensures { result ≡ spec.append_again resumed told.now to.now validity uidnext }
{
    if resumed {
        append_open(told, to, validity, uidnext)
    } else {
        Step::Send
    }
}

// An append whose intent an earlier run recorded: its message is searched for, and sent again where it isn't there.
fn append_open(told: &Finding, to: &BoxName, validity: Validity, uidnext: Uid) -> Step
    ensures { result ≡ spec.append_open told.now to.now validity uidnext }
{
    match told {
        Finding::Next { .. } => Step::Search(uidnext),
        Finding::Candidates(_) => Step::AskIds,
        Finding::Probed(verdict) => append_judged(*verdict, validity),
        Finding::Nothing
        | Finding::NoRow
        | Finding::Row { .. }
        | Finding::Barred
        | Finding::Ended(_) => select_under(to, validity),
    }
}

fn append_judged(verdict: Verdict, validity: Validity) -> Step
    ensures { result ≡ spec.append_judged verdict validity }
{
    match verdict {
        Verdict::NotThere => Step::Send,
        Verdict::There { uid } => Step::Settle(Outcome::Done {
            place: Some(Place { validity, uid }),
        }),
        Verdict::Several { first, second } => conflict(Kind::Ambiguous {
            u: first,
            v: second,
        }),
    }
}
