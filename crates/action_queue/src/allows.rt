//! Which events may come: each rule as a test of its own, tried in their order.

ghost use Rattle.std.specs.Prelude.{◌≡◌, cond, Some, None};
ghost use Rattle.action_queue.specs.Book.{meaning};
ghost use Rattle.action_queue.specs.Rules as spec;
ghost use Rattle.action_queue.specs.declared.rule.Rule.TheVariants as rule;

use crate::{
    Action, Book, Event, Found, Intent, Kind, Outcome, Place, Queued, Rule, Target, Version,
};
use mail_base::{ActionId, BoxName, MAX_ACTIONS, MAX_ROWS, ModSeq, Validity};
use mailbox_cache::{Cache, Delta};

impl Book {
    /// The first rule that the event breaks in a journal of this version. `None` exactly where it is lawful.
    pub fn allows(&self, event: &Event, version: Version) -> Option<Rule>
        ensures { result ≡ spec.first_broken version (meaning self.now) event.now }
    {
        match event {
            Event::Begin { .. } => Some(Rule::BeginAgain),
            Event::Accept { id, action } => self.refuses_accept(*id, action),
            Event::Intend { id, intent } => self.refuses_intend(*id, intent),
            Event::Settle { id, outcome } => self.refuses_settle(version, *id, outcome),
            Event::Learn { name, delta } => self.refuses_learn(name, delta),
            Event::Old {
                id,
                action,
                outcome,
            } => self.refuses_old(*id, action, outcome),
            Event::Reset { name, kept, told } => self.refuses_reset(name, *kept, *told),
            Event::Withdraw { id, tries } => self.refuses_withdraw(version, *id, *tries),
        }
    }

    // The first rule that an accepted action breaks.
    fn refuses_accept(&self, id: ActionId, action: &Action) -> Option<Rule>
        ensures { result ≡ spec.first_of (spec.breaks_accept (meaning self.now) id action.now) spec.rules_in_order }
    {
        if id.number() as usize != self.queue.len() + 1 {
            return Some(Rule::WrongNumber);
        }
        if self.is_unknown_action(action) {
            return Some(Rule::UnknownBox);
        }
        if self.is_bad_action(action) {
            return Some(Rule::BadTarget);
        }
        if self.queue.len() >= MAX_ACTIONS {
            return Some(Rule::TooMany);
        }
        None
    }

    // The first rule that an action that ended breaks.
    fn refuses_old(&self, id: ActionId, action: &Action, outcome: &Outcome) -> Option<Rule>
        ensures { result ≡ spec.first_of (spec.breaks_old (meaning self.now) id action.now outcome.now) spec.rules_in_order }
    {
        let next = self.queue.len() + 1;
        if id.number() as usize != next {
            return Some(Rule::WrongNumber);
        }
        if self.is_unknown_action(action) {
            return Some(Rule::UnknownBox);
        }
        if self.is_bad_action(action) {
            return Some(Rule::BadTarget);
        }
        if self.queue.len() >= MAX_ACTIONS {
            return Some(Rule::TooMany);
        }
        if self.queue.due().is_some() {
            return Some(Rule::NotAllSettled);
        }
        if is_misplaced(action, outcome) {
            return Some(Rule::WrongPlace);
        }
        if self.is_misfit_old(action, outcome) {
            return Some(Rule::WrongKind);
        }
        None
    }

    // Whether the outcome of an action that ended is a conflict of a kind that isn't one for it.
    fn is_misfit_old(&self, action: &Action, outcome: &Outcome) -> bool
        ensures { result ≡ spec.is_misfit_old (meaning self.now) action.now outcome.now }
    {
        match outcome {
            Outcome::Done { .. } => false,
            Outcome::Conflict(kind) => !self.fits_old(action, kind),
        }
    }

    // Whether an action may have ended as a conflict of this kind, whatever was sent.
    fn fits_old(&self, action: &Action, kind: &Kind) -> bool
        ensures { result ≡ spec.fits_old (meaning self.now) action.now kind.now }
    {
        match action {
            Action::Flag { target, .. } => self.fits_old_flag(target, kind),
            Action::Move { target, .. } => self.fits_old_move(target, kind),
            Action::Append { .. } => fits_old_append(kind),
        }
    }

    // Whether a flag action may.
    fn fits_old_flag(&self, target: &Target, kind: &Kind) -> bool
        ensures { result ≡ spec.fits_old_flag (meaning self.now) target.now kind.now }
    {
        match kind {
            Kind::TargetUnknown { k } => self.resolved(target).is_never(*k),
            Kind::ValidityChanged { o, n } => {
                is_found_under(&self.resolved(target), *o) && o.number() < n.number()
            }
            Kind::ResetAfterLoss { o, n } => o.number() < n.number(),
            Kind::SourceGone | Kind::Ambiguous { .. } => false,
            _ => true,
        }
    }

    // Whether a move may.
    fn fits_old_move(&self, target: &Target, kind: &Kind) -> bool
        ensures { result ≡ spec.fits_old_move (meaning self.now) target.now kind.now }
    {
        match kind {
            Kind::TargetUnknown { k } => self.resolved(target).is_never(*k),
            Kind::ValidityChanged { o, n } => {
                is_found_under(&self.resolved(target), *o) && o.number() < n.number()
            }
            Kind::ResetAfterLoss { o, n } => o.number() < n.number(),
            Kind::MessageGone | Kind::RefusedNo | Kind::RefusedBad | Kind::SourceGone => true,
            _ => false,
        }
    }

    // The first rule that an intent breaks.
    fn refuses_intend(&self, id: ActionId, intent: &Intent) -> Option<Rule>
        ensures { result ≡ spec.first_of (spec.breaks_intend (meaning self.now) id intent.now) spec.rules_in_order }
    {
        if self.is_unknown_intent(intent) {
            return Some(Rule::UnknownBox);
        }
        if self.pending.is_some() {
            return Some(Rule::PendingAlready);
        }
        let Some(queued) = self.queue.due() else {
            return Some(Rule::NothingWaiting);
        };
        if id.number() as usize != self.queue.settled() + 1 {
            return Some(Rule::WrongAction);
        }
        if !self.suits(&queued.action, intent) {
            return Some(Rule::WrongIntent);
        }
        None
    }

    // The first rule that an outcome breaks.
    fn refuses_settle(&self, version: Version, id: ActionId, outcome: &Outcome) -> Option<Rule>
        ensures { result ≡ spec.first_of (spec.breaks_settle version (meaning self.now) id outcome.now) spec.rules_in_order }
    {
        let Some(queued) = self.queue.due() else {
            return Some(Rule::NothingWaiting);
        };
        if id.number() as usize != self.queue.settled() + 1 {
            return Some(Rule::WrongAction);
        }
        if self.pending.is_none() && rests_on_intent(outcome) {
            return Some(Rule::NeedsIntent);
        }
        if self.pending.is_some() && comes_before_intent(outcome) {
            return Some(Rule::NoIntentDue);
        }
        if is_misplaced(&queued.action, outcome) {
            return Some(Rule::WrongPlace);
        }
        if self.is_misfit(&queued.action, outcome) || is_early(version, queued, outcome) {
            return Some(Rule::WrongKind);
        }
        None
    }

    // The first rule that a command that is taken back breaks.
    fn refuses_withdraw(&self, version: Version, id: ActionId, tries: u8) -> Option<Rule>
        ensures { result ≡ spec.first_of (spec.breaks_withdraw version (meaning self.now) id tries) spec.rules_in_order }
    {
        let Some(queued) = self.queue.due() else {
            return Some(Rule::NothingWaiting);
        };
        if id.number() as usize != self.queue.settled() + 1 {
            return Some(Rule::WrongAction);
        }
        if !matches!(queued.action, Action::Flag { .. }) {
            return Some(Rule::WrongIntent);
        }
        if version == Version::First || is_wrong_turn(queued.tries, &self.pending, tries) {
            return Some(Rule::WrongTries);
        }
        None
    }

    // Whether the outcome is a conflict of a kind that isn't one for the action.
    fn is_misfit(&self, action: &Action, outcome: &Outcome) -> bool
        ensures { result ≡ spec.is_misfit_of (meaning self.now) action.now outcome.now }
    {
        match outcome {
            Outcome::Done { .. } => false,
            Outcome::Conflict(kind) => !self.fits(action, kind),
        }
    }

    // The first rule that what a resynchronisation told breaks.
    fn refuses_learn(&self, name: &BoxName, delta: &Delta) -> Option<Rule>
        ensures { result ≡ spec.first_of (spec.breaks_learn (meaning self.now) name.now delta.now) spec.rules_in_order }
    {
        match self.known(name) {
            None => Some(Rule::UnknownBox),
            Some(known) => refuses_delta(&known.cache, delta),
        }
    }

    // The first rule that taking a cache away breaks.
    fn refuses_reset(&self, name: &BoxName, kept: Validity, told: Validity) -> Option<Rule>
        ensures { result ≡ spec.first_of (spec.breaks_reset (meaning self.now) name.now kept told) spec.rules_in_order }
    {
        match self.known(name) {
            None => Some(Rule::UnknownBox),
            Some(known) => refuses_taking(&known.cache, kept, told),
        }
    }

    // Whether the name isn't one of the book's.
    fn is_unknown(&self, name: &BoxName) -> bool
        ensures { result ≡ spec.is_unknown self.now.boxes name.now }
    {
        self.known(name).is_none()
    }

    // Whether the target's mailbox isn't one of the book's.
    fn is_unknown_target(&self, target: &Target) -> bool
        ensures { result ≡ spec.is_unknown_target self.now.boxes target.now }
    {
        match target {
            Target::Real { name, .. } => self.is_unknown(name),
            Target::Dummy(_) => false,
        }
    }

    // Whether a mailbox of the action isn't one of the book's.
    fn is_unknown_action(&self, action: &Action) -> bool
        ensures { result ≡ spec.is_unknown_action self.now.boxes action.now }
    {
        match action {
            Action::Flag { target, .. } => self.is_unknown_target(target),
            Action::Move { target, to } => self.is_unknown_target(target) || self.is_unknown(to),
            Action::Append { to, .. } => self.is_unknown(to),
        }
    }

    // Whether a mailbox of the intent isn't one of the book's.
    fn is_unknown_intent(&self, intent: &Intent) -> bool
        ensures { result ≡ spec.is_unknown_intent self.now.boxes intent.now }
    {
        match intent {
            Intent::Store { name, .. } => self.is_unknown(name),
            Intent::Shift { from, to, .. } => self.is_unknown(from) || self.is_unknown(to),
            Intent::Put { to, .. } => self.is_unknown(to),
        }
    }

    // Whether a dummy names no move or append of the queue.
    fn is_bad_target(&self, target: &Target) -> bool
        ensures { result ≡ spec.is_bad_target self.now.queue.items target.now }
    {
        match target {
            Target::Real { .. } => false,
            Target::Dummy(id) => match self.action(*id) {
                Some(queued) => !makes(&queued.action),
                None => true,
            },
        }
    }

    // The same of the action's target.
    fn is_bad_action(&self, action: &Action) -> bool
        ensures { result ≡ spec.is_bad_action self.now.queue.items action.now }
    {
        match action {
            Action::Flag { target, .. } => self.is_bad_target(target),
            Action::Move { target, .. } => self.is_bad_target(target),
            Action::Append { .. } => false,
        }
    }

    // Whether the intent is one for this action.
    fn suits(&self, action: &Action, intent: &Intent) -> bool
        ensures { result ≡ spec.suits self.now.queue.items action.now intent.now }
    {
        match (action, intent) {
            (
                Action::Flag { target, .. },
                Intent::Store {
                    name,
                    validity,
                    uid,
                    ..
                },
            ) => self.resolved(target).is_at(name, *validity, *uid),
            (
                Action::Move { target, to },
                Intent::Shift {
                    from,
                    validity,
                    uid,
                    to: other,
                },
            ) => self.resolved(target).is_at(from, *validity, *uid) && *other == *to,
            (Action::Append { to, .. }, Intent::Put { to: other, .. }) => *other == *to,
            _ => false,
        }
    }

    // Whether an action may end as a conflict of this kind.
    fn fits(&self, action: &Action, kind: &Kind) -> bool
        ensures { result ≡ spec.fits (meaning self.now) action.now kind.now }
    {
        match action {
            Action::Flag { target, .. } => self.fits_flag(target, kind),
            Action::Move { target, .. } => self.fits_move(target, kind),
            Action::Append { .. } => self.fits_append(kind),
        }
    }

    // Whether a flag action may.
    fn fits_flag(&self, target: &Target, kind: &Kind) -> bool
        ensures { result ≡ spec.fits_flag (meaning self.now) target.now kind.now }
    {
        match kind {
            Kind::FlagsChanged { m } | Kind::StoreUnsure { m, .. } => names_mark(&self.pending, *m),
            Kind::TargetUnknown { k } => self.resolved(target).is_never(*k),
            Kind::ValidityChanged { o, n } => {
                is_found_under(&self.resolved(target), *o) && o.number() < n.number()
            }
            Kind::ResetAfterLoss { o, n } => {
                names_validity(&self.pending, *o) && o.number() < n.number()
            }
            Kind::SourceGone | Kind::Ambiguous { .. } => false,
            _ => true,
        }
    }

    // Whether a move may.
    fn fits_move(&self, target: &Target, kind: &Kind) -> bool
        ensures { result ≡ spec.fits_move (meaning self.now) target.now kind.now }
    {
        match kind {
            Kind::TargetUnknown { k } => self.resolved(target).is_never(*k),
            Kind::ValidityChanged { o, n } => {
                is_found_under(&self.resolved(target), *o) && o.number() < n.number()
            }
            Kind::ResetAfterLoss { o, n } => {
                names_validity(&self.pending, *o) && o.number() < n.number()
            }
            Kind::MessageGone | Kind::RefusedNo | Kind::RefusedBad | Kind::SourceGone => true,
            _ => false,
        }
    }

    // Whether an append may.
    fn fits_append(&self, kind: &Kind) -> bool
        ensures { result ≡ spec.fits_append (meaning self.now) kind.now }
    {
        match kind {
            Kind::ResetAfterLoss { o, n } => {
                names_validity(&self.pending, *o) && o.number() < n.number()
            }
            Kind::RefusedNo | Kind::RefusedBad | Kind::Ambiguous { .. } => true,
            _ => false,
        }
    }
}

// Whether the action puts a message into a mailbox.
fn makes(action: &Action) -> bool
    ensures { result ≡ spec.makes action.now }
{
    matches!(action, Action::Move { .. } | Action::Append { .. })
}

// Whether an append may have ended as a conflict of this kind, whatever was sent.
fn fits_old_append(kind: &Kind) -> bool
    ensures { result ≡ spec.fits_old_append kind.now }
{
    match kind {
        Kind::ResetAfterLoss { o, n } => o.number() < n.number(),
        Kind::RefusedNo | Kind::RefusedBad | Kind::Ambiguous { .. } => true,
        _ => false,
    }
}

// Whether a further try of the action that is due may come before this outcome.
fn is_early(version: Version, queued: &Queued, outcome: &Outcome) -> bool
    ensures { result ≡ spec.is_early version (Some queued.now) outcome.now }
{
    match (version, outcome) {
        (Version::Second, Outcome::Conflict(Kind::FlagsChanged { .. })) => queued.tries != 2,
        _ => false,
    }
}

// Whether this number of tries may not come next, in a second version.
fn is_wrong_turn(old: u8, pending: &Option<Intent>, tries: u8) -> bool
    ensures { result ≡ spec.is_wrong_number pending.now old tries }
{
    if tries != 1 && tries != 2 {
        return true;
    }
    match pending {
        Some(_) => tries - 1 != old,
        None => old != 0,
    }
}

// Whether what a target resolved to has this UIDVALIDITY.
fn is_found_under(found: &Found, o: Validity) -> bool
    ensures { result ≡ spec.is_found_under found.now o }
{
    match found {
        Found::Real { validity, .. } => validity.number() == o.number(),
        Found::NotYet { .. } | Found::Never { .. } => false,
    }
}

// Whether the pending intent names this UIDVALIDITY.
fn names_validity(pending: &Option<Intent>, o: Validity) -> bool
    ensures { result ≡ spec.names_validity pending.now o }
{
    match pending {
        None => false,
        Some(intent) => intent_validity(intent).number() == o.number(),
    }
}

fn intent_validity(intent: &Intent) -> Validity
    ensures { result ≡ spec.intent_validity intent.now }
{
    match intent {
        Intent::Store { validity, .. } => *validity,
        Intent::Shift { validity, .. } => *validity,
        Intent::Put { validity, .. } => *validity,
    }
}

// The first rule that taking this cache away breaks.
fn refuses_taking(cache: &Option<Cache>, kept: Validity, told: Validity) -> Option<Rule>
    ensures { result ≡ cond (spec.is_wrong_reset cache.now kept told) (Some rule.WrongValidity) None }
{
    let Some(cache) = cache else {
        return Some(Rule::WrongValidity);
    };
    if cache.validity.number() != kept.number() {
        return Some(Rule::WrongValidity);
    }
    if told.number() <= kept.number() {
        return Some(Rule::WrongValidity);
    }
    None
}

// Whether the pending intent is a STORE that names this mod-sequence.
fn names_mark(pending: &Option<Intent>, m: ModSeq) -> bool
    ensures { result ≡ spec.names_mark pending.now m }
{
    match pending {
        Some(Intent::Store { modseq, .. }) => modseq.number() == m.number(),
        _ => false,
    }
}

// Whether the outcome is one of a command that was sent.
fn rests_on_intent(outcome: &Outcome) -> bool
    ensures { result ≡ spec.rests_on_intent outcome.now }
{
    match outcome {
        Outcome::Done { .. } => true,
        Outcome::Conflict(kind) => follows_intent(kind),
    }
}

// Whether the outcome is one that is told before anything is sent.
fn comes_before_intent(outcome: &Outcome) -> bool
    ensures { result ≡ spec.comes_before_intent outcome.now }
{
    match outcome {
        Outcome::Done { .. } => false,
        Outcome::Conflict(kind) => precedes_intent(kind),
    }
}

// Whether a command's reply, or its loss, gives the kind.
fn follows_intent(kind: &Kind) -> bool
    ensures { result ≡ spec.follows_intent kind.now }
{
    !matches!(
        kind,
        Kind::MessageGone
            | Kind::AlreadySo
            | Kind::NotPermanent
            | Kind::TargetUnknown { .. }
            | Kind::ValidityChanged { .. }
    )
}

// Whether the kind is told before anything is sent.
fn precedes_intent(kind: &Kind) -> bool
    ensures { result ≡ spec.precedes_intent kind.now }
{
    matches!(
        kind,
        Kind::AlreadySo
            | Kind::NotPermanent
            | Kind::TargetUnknown { .. }
            | Kind::ValidityChanged { .. }
    )
}

// Whether a flag action is done with a place, or a move or an append without.
fn is_misplaced(action: &Action, outcome: &Outcome) -> bool
    ensures { result ≡ spec.is_misplaced_of action.now outcome.now }
{
    match outcome {
        Outcome::Done { place } => lacks_its_place(action, place),
        Outcome::Conflict(_) => false,
    }
}

// Whether an action done so has a place that it may not have, or lacks one.
fn lacks_its_place(action: &Action, place: &Option<Place>) -> bool
    ensures { result ≡ spec.is_misplaced_by action.now place.now }
{
    match action {
        Action::Flag { .. } => place.is_some(),
        Action::Move { .. } | Action::Append { .. } => place.is_none(),
    }
}

// The first rule that a delta breaks, on this cache.
fn refuses_delta(cache: &Option<Cache>, delta: &Delta) -> Option<Rule>
    ensures { result ≡ spec.delta_of cache.now delta.now }
{
    match cache {
        None => refuses_first(delta),
        Some(cache) => refuses_later(cache, delta),
    }
}

// The same where there is no cache.
fn refuses_first(delta: &Delta) -> Option<Rule>
    ensures { result ≡ spec.delta_of None delta.now }
{
    if !delta.whole {
        return Some(Rule::WrongWhole);
    }
    if delta.rows.len() > MAX_ROWS {
        return Some(Rule::TooManyRows);
    }
    None
}

// The same where there is one.
fn refuses_later(cache: &Cache, delta: &Delta) -> Option<Rule>
    ensures { result ≡ spec.delta_of (Some cache.now) delta.now }
{
    if delta.whole {
        return Some(Rule::WrongWhole);
    }
    if cache.validity.number() != delta.validity.number() {
        return Some(Rule::WrongValidity);
    }
    if delta.highest.number() < cache.highest.number() {
        return Some(Rule::LowerMark);
    }
    if cache.would_exceed(MAX_ROWS, delta) {
        return Some(Rule::TooManyRows);
    }
    None
}
