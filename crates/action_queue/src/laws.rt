//! A book is told anew by the events of which it is the fold.

ghost use Rattle.action_queue.specs.Restating.{BookFolds, CacheFolds, QueueFolds, RowsFollow, WellAtFirst, WellInSecond, WellStays};

/// A queue whose actions are well and in order is the fold of the events that tell it anew.
pub fn queue_folds()
    ensures { QueueFolds }
{}

/// Rows that rise, put behind others, follow them.
pub fn rows_follow()
    ensures { RowsFollow }
{}

/// A cache that is told anew, in parts of any size, is the mailbox's again.
pub fn cache_folds()
    ensures { CacheFolds }
{}

/// A book that is told anew is the fold of the events that tell it.
pub fn book_folds()
    ensures { BookFolds }
{}

/// Lawful events that have a record make books that can be told anew.
pub fn books_are_well()
    ensures first { WellAtFirst }
    ensures stays { WellStays }
    ensures second { WellInSecond }
{}
