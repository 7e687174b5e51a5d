//! What holds of a ledger's books and a server together, at every moment of calls of the disk and of the link.

ghost use Rattle.play_driver.specs.KnownAt.{KnownGoesOn};
ghost use Rattle.play_driver.specs.Machine.{Withstands};
ghost use Rattle.play_driver.specs.Played.{played};
ghost use Rattle.book_laws.specs.Kept.{Kept};
ghost use Rattle.store_core.specs.Mail.{mail};
ghost use Rattle.std.specs.Prelude.{Option};
ghost use Rattle.imap_model.specs.Talking.{Peer};
ghost use Rattle.store_core.specs.Keeping.{Keeping};
ghost use Rattle.store_core.proofs.Folding.{OneEvent};
ghost use Rattle.play_driver.specs.Laws.{RecordingKeeps, OpeningKeeps, StopKeeps, LinkKeeps};
ghost use Rattle.play_driver.specs.Laws.{RecordingJoins, OpeningJoins, StopJoins, LinkJoins, EnquiryJoins, SendingJoins};
ghost use Rattle.play_driver.specs.Laws.{RecordingGoesOn, OpeningGoesOn, StopGoesOn, LinkStays, BooksKeep};
ghost use Rattle.play_driver.specs.Laws.{ChoosingJoins, BeginningJoins, ChoosingGoesOn, BeginningGoesOn};
ghost use Rattle.play_driver.specs.Levelling.{LinkFaultless, LinkLevels, ResyncsFaultless, ResyncsLevel};
ghost use Rattle.play_driver.specs.Machine.{Machine, Relation, Withstands};
ghost use Rattle.play_driver.specs.MayServe.{MayServe};

/// A ledger on a journal, a relation of its book, or of none, with a server and the command that waits there, and how a server
/// with its connection goes on in a call. An impl fixes them, and the laws hold for each; a caller whose call has what was told
/// just now in it cites the lemma of the law, which takes them as arguments.
pub trait Related {
    /// The ledger: its events, and the book that they make.
    ghost ledger: { Keeping };

    /// No body spells two of its events.
    ghost one_event: { OneEvent ledger };

    /// The relation.
    ghost relation: { Relation ledger };

    /// What is said of a book alone.
    ghost property: { Option ledger.Book → Type 0 };

    /// The steps of a server with its connection.
    ghost moves: { Peer → Peer → Type 0 };
}

/// A ledger on a journal; what may be done with it beside a server, and what is assumed of other clients; and a relation of both
/// that withstands all of it. As with `Related`, a caller may cite the lemmas in place of an impl.
pub trait Steady {
    /// The ledger: its events, and the book that they make.
    ghost ledger: { Keeping };

    /// No body spells two of its events.
    ghost one_event: { OneEvent ledger };

    /// What may be done, and what is assumed of others.
    ghost machine: { Machine ledger };

    /// The relation.
    ghost relation: { Relation ledger };

    /// Each step keeps the relation.
    ghost withstands: { Withstands ledger machine relation };

    /// The steps of a server with its connection in a call.
    ghost moves: { Peer → Peer → Type 0 };

    /// What is known of a server with its connection during the call.
    ghost known: { Peer → Type 0 };
}

/// The joining law for any relation. As an event is recorded, the relation is kept at each moment where it holds for the books
/// before and after it; as a journal is opened, and at a stop, it is kept; and as the link is called, where each change of
/// the server and of what waits keeps it for each book.
pub fn calls_keep_relations<R: Related>()
    ensures recording { RecordingKeeps R.ledger R.relation }
    ensures opening { OpeningKeeps R.ledger R.relation }
    ensures stopping { StopKeeps R.ledger R.relation }
    ensures linking { LinkKeeps R.ledger R.relation R.moves }
{}

/// The joining law for a relation that withstands a machine. Where a moment is kept and others are fair, each moment of a call
/// is kept, and joined to the one before it by a step: as the disk is called while the link stands still, and as the link is
/// called while the files stand still.
pub fn calls_stay_joined<J: Steady>()
    ensures recording { RecordingJoins J.ledger J.relation J.machine }
    ensures opening { OpeningJoins J.ledger J.relation J.machine }
    ensures choosing { ChoosingJoins J.ledger J.relation J.machine }
    ensures beginning { BeginningJoins J.ledger J.relation J.machine }
    ensures stopping { StopJoins J.ledger J.machine }
    ensures linking { LinkJoins J.ledger J.relation J.machine J.moves J.known }
    ensures asking { EnquiryJoins J.ledger J.relation J.machine }
    ensures sending { SendingJoins J.ledger J.relation J.machine }
{}

/// Whatever becomes of the server, the books that a stop may leave stay from moment to moment, or an event is begun or made
/// firm, or either book is chosen; and what each event keeps of a book is kept.
pub fn books_go_on<R: Related>()
    ensures recording { RecordingGoesOn R.ledger }
    ensures opening { OpeningGoesOn R.ledger }
    ensures choosing { ChoosingGoesOn R.ledger }
    ensures beginning { BeginningGoesOn R.ledger }
    ensures stopping { StopGoesOn R.ledger }
    ensures linking { LinkStays R.ledger R.moves }
    ensures keeping { BooksKeep R.ledger R.property }
{}

/// What a resynchronisation makes of a cache. At first the server is well formed, no command that changes a mailbox waits, and
/// what is kept of the mailbox is fresh; and others leave its UIDVALIDITY. Then the cache is the server's at a moment of the
/// resynchronisation, and fresh at its end; and none fails to make a delta but for want of memory. Where no command waits at first and
/// no text arrives, that moment is the last one at which the mailbox is read. Beside a kept book it is so where nothing waits at first
/// and others are fair.
pub fn resyncs_level()
    ensures over_link { LinkLevels }
    ensures faultless { LinkFaultless }
    ensures beside_book { ResyncsLevel }
    ensures faultless_beside_book { ResyncsFaultless }
{}

/// What the player knows goes on with a run: as it begins, as what it needs is asked, and as it is recorded; and the book beside
/// the server withstands each step of the machine.
pub fn known_goes_on()
    ensures knows { KnownGoesOn }
    ensures withstands { Withstands mail played Kept }
{}

/// What `complete` of `play` asks of server and others can be met, from any moment on and whatever the book, where one of the server's
/// mailboxes is empty and its SELECT is one part: moments may follow in which a lawful server answers the questions of a whole
/// connection, others are fair, and the server serves.
pub fn a_server_may_serve()
    ensures { MayServe }
{}
