//! What is so of a book and a server beside one another, over every list of steps (this client's profile of RFC 4549).

ghost use Rattle.book_laws.specs.ByBook.{KeptByBook};
ghost use Rattle.book_laws.specs.Concluding.{HadItsEffect, HadNoEffect, IntentsFollow, OutcomesFit};
ghost use Rattle.book_laws.specs.Connection.{StepsOfConnection, StepsOfWriting};
ghost use Rattle.book_laws.specs.EachKind.{EachKindTakesEffect};
ghost use Rattle.book_laws.specs.Example.{TakesEffect};
ghost use Rattle.book_laws.specs.Laws.{KeptAlways, LeavesTheRest, NeverTwice};
ghost use Rattle.book_laws.specs.Needed.{ConditionsAreNeeded};
ghost use Rattle.book_laws.specs.Past.{GoesOnLater};
ghost use Rattle.book_laws.specs.Plain.{PlainDecides};
ghost use Rattle.book_laws.specs.Resolved.{TargetsResolve};
ghost use Rattle.book_laws.specs.Sound.{SoundStays};
ghost use Rattle.book_laws.specs.Table.{CountsByAction};
ghost use Rattle.book_laws.specs.WorkedRows.{WorkedRows};

/// From a kept state, whatever steps follow, the state stays kept.
pub fn kept_always()
    ensures { KeptAlways }
{}

/// So no action's number ever has two changes in the server's history.
pub fn never_twice()
    ensures { NeverTwice }
{}

/// Each step keeps each book.
pub fn kept_by_book()
    ensures { KeptByBook }
{}

/// What each step leaves as it was.
pub fn leaves_the_rest()
    ensures { LeavesTheRest }
{}

/// What happens at a connection is a step, or changes nothing that the machine speaks of.
pub fn steps_of_connection()
    ensures { StepsOfConnection }
{}

/// Each phase in which an event is written is a step.
pub fn steps_of_writing()
    ensures { StepsOfWriting }
{}

/// The two ways to count an action's deeds are one.
pub fn counts_by_action()
    ensures { CountsByAction }
{}

/// What was so at an earlier server goes on to a later one.
pub fn goes_on_later()
    ensures { GoesOnLater }
{}

/// A row, or a UIDNEXT, that was told makes the facts of an intent, also later.
pub fn intents_follow()
    ensures { IntentsFollow }
{}

/// What shows that an open intent had no effect, so that its command may be sent again.
pub fn had_no_effect()
    ensures { HadNoEffect }
{}

/// The one message that a search finds is the append's.
pub fn had_its_effect()
    ensures { HadItsEffect }
{}

/// Which outcome fits once the waiting command was carried out, with its effect or without.
pub fn outcomes_fit()
    ensures { OutcomesFit }
{}

/// A run from a kept state in which an action takes effect.
pub fn takes_effect()
    ensures { TakesEffect }
{}

/// An action of each kind can take effect.
pub fn each_kind_takes_effect()
    ensures { EachKindTakesEffect }
{}

/// The plain programs tell the truth.
pub fn plain_decides()
    ensures { PlainDecides }
{}

/// The plain programs tell right states from wrong ones.
pub fn worked_rows()
    ensures { WorkedRows }
{}

/// What lawful events keep of a book.
pub fn sound_stays()
    ensures { SoundStays }
{}

/// So the target of an action that is due is a message of a mailbox of the book, or one that never comes.
pub fn targets_resolve()
    ensures { TargetsResolve }
{}

/// Each condition of the law is needed: an example each, in which it alone is passed over.
pub fn conditions_are_needed()
    ensures { ConditionsAreNeeded }
{}
