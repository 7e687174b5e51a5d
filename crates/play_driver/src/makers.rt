//! What a resynchronisation makes of the replies that it heard (RFC 7162, section 3.2.5).

ghost use Rattle.std.specs.Prelude.{◌≡◌, IfOk, IfErr, is_some};
ghost use Rattle.std.specs.Option.{option_copied};
ghost use Rattle.imap_model.specs.declared.replies.Replies.{Replies};
ghost use Rattle.qresync_core.specs.Fitting.{Fits};
ghost use Rattle.qresync_core.specs.Making.{StandsFor};
ghost use Rattle.qresync_core.specs.Resync.{TellsDelta, HasFault};
ghost use Rattle.play_driver.specs.Gathering.{StandFor};
ghost use Rattle.play_driver.specs.Resynchronising.{Gathered, fetches};

use imap_model::Last;
use mailbox_cache::{Cache, Delta};
use qresync_core::{DeltaMaker, ResyncFault};

/// Whether all rows are to be fetched behind the reply to SELECT that this maker took: nothing is kept of the mailbox, and it
/// isn't told to be empty.
pub(crate) fn is_fetch_due(kept: Option<&Cache>, selected: &DeltaMaker) -> bool
    ensures { (replies : Replies) → StandsFor selected.now replies.untagged
        → result ≡ fetches (option_copied kept.entry) replies }
{
    if kept.is_some() {
        return false;
    }
    !selected.empty()
}

/// What the replies that these makers took make of the cache, or the first of their faults. The second maker took that to the FETCH of
/// all rows, where it was due. No row is copied.
pub(crate) fn finish(
    kept: Option<&Cache>,
    selected: DeltaMaker,
    last: &Last,
    all: DeltaMaker,
) -> Result<Delta, ResyncFault>
    ensures value { IfOk result (λ delta. (gathered : Gathered)
        → StandFor selected last.now all gathered
        → is_some gathered.all ≡ fetches (option_copied kept.entry) gathered.selected
        → TellsDelta (option_copied kept.entry) gathered.selected gathered.all delta) }
    ensures fault { IfErr result (λ fault. (gathered : Gathered)
        → StandFor selected last.now all gathered
        → is_some gathered.all ≡ fetches (option_copied kept.entry) gathered.selected
        → HasFault (option_copied kept.entry) gathered.selected gathered.all fault) }
    ensures fits { IfOk result (λ delta. Fits (option_copied kept.entry) delta) }
{
    if is_fetch_due(kept, &selected) {
        return selected.finish(kept, last, Some(all));
    }
    drop(all);
    selected.finish(kept, last, None)
}
