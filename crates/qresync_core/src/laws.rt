//! What a resynchronisation makes of a cache, where the replies are a lawful server's (RFC 7162, section 3.2.5).

ghost use Rattle.qresync_core.specs.Laws.{SelectHasBox, FetchHasBox, CodesMirror};
ghost use Rattle.qresync_core.specs.Laws.{FaultlessMemory, KeptLevels, FirstMirrors};
ghost use Rattle.qresync_core.specs.Laws.{EmptyMirrors, UnchangedStays, NothingStays};
ghost use Rattle.qresync_core.specs.MakerLaws.{EmptyAlike, JudgesAlike, MakesTold, StandsAnew, StandsAtFirst, StandsOn};
ghost use Rattle.qresync_core.specs.Laws.{RowsAreSmall, FreshGoesOn, FactsGoOn, OneDelta};

/// A mailbox of which a SELECT is answered OK is there.
pub fn select_has_box()
    ensures { SelectHasBox }
{}

/// A selected mailbox of which the FETCH of all rows is answered OK is there.
pub fn fetch_has_box()
    ensures { FetchHasBox }
{}

/// Where replies have no fault, `delta_of` fails for want of memory alone.
pub fn faultless_memory()
    ensures { FaultlessMemory }
{}

/// The codes that a lawful server's reply to SELECT tells are the mailbox's numbers at that moment.
pub fn codes_mirror()
    ensures { CodesMirror }
{}

/// Where the cache that was kept is fresh, a lawful server's reply to the SELECT with its mark has no fault, and the
/// delta makes the cache's rows the server's at that moment; the new cache is fresh.
pub fn kept_levels()
    ensures { KeptLevels }
{}

/// Where nothing was kept, a lawful server's replies to SELECT and to the FETCH of all rows have no fault, and the first
/// cache has the server's rows at the moment of the second, and is fresh.
pub fn first_mirrors()
    ensures { FirstMirrors }
{}

/// So it is with the reply to SELECT alone where that tells the mailbox to be empty; the first cache then has no rows.
pub fn empty_mirrors()
    ensures { EmptyMirrors }
{}

/// Where nothing changed above the cache's mark, its rows and its mark stay.
pub fn unchanged_stays()
    ensures { UnchangedStays }
{}

/// A delta that tells no row and nothing gone leaves the rows.
pub fn nothing_stays()
    ensures { NothingStays }
{}

/// Where the flags that are told are few enough, those of the delta's rows are, so that it can be recorded.
pub fn rows_are_small()
    ensures { RowsAreSmall }
{}

/// A fresh cache stays so, however the mailbox goes on under its UIDVALIDITY.
pub fn fresh_goes_on()
    ensures { FreshGoesOn }
{}

/// What a cache knows of its mailbox up to its mark stays so, however the mailbox goes on.
pub fn facts_go_on()
    ensures { FactsGoOn }
{}

/// Replies tell one delta at most, so the contract of `delta_of` pins its answer.
pub fn one_delta()
    ensures { OneDelta }
{}

/// A maker that took nothing stands for no responses.
pub fn maker_at_first()
    ensures { StandsAtFirst }
{}

/// A maker that took one response more stands for one more; at CLOSED it begins anew.
pub fn maker_on()
    ensures on { StandsOn }
    ensures anew { StandsAnew }
{}

/// What a maker makes is what the whole replies tell, and so is its first fault.
pub fn maker_makes()
    ensures told { MakesTold }
    ensures fault { JudgesAlike }
    ensures empty { EmptyAlike }
{}
