//! What holds of many runs, one behind another.

ghost use Rattle.std.specs.Prelude.{◌≡◌, ◌⊎◌, ◌<◌, ◌≤◌, ℕ, List, None, codes, if◌then◌else◌, length};
ghost use Rattle.mail_base.specs.Account.{Credentials};
ghost use Rattle.mail_base.specs.declared.status.Status.{Status};
ghost use Rattle.imap_model.specs.Ours.{ours};
ghost use Rattle.world_traits.specs.Files.{Files, Stored};
ghost use Rattle.world_traits.specs.Moments.{Moment, MayLeave, Clock, Images, OneSideAtRest, restarted};
ghost use Rattle.journal_core.specs.OneSide.{EachOneSide};
ghost use Rattle.store_core.specs.HeldActions.{IsHeld};
ghost use Rattle.action_queue.specs.Book.{Meaning};
ghost use Rattle.action_queue.specs.Writable.{IsWritable};
ghost use Rattle.action_queue.specs.declared.action.Action.{Action};
ghost use Rattle.action_queue.specs.declared.outcome.Kind.{Kind};
ghost use Rattle.action_queue.specs.declared.outcome.Outcome.{Outcome};
ghost use Rattle.conflict_report.specs.ReportLines.{effect_text};
ghost use Rattle.book_laws.specs.Once.{is_unsure};
ghost use Rattle.play_driver.specs.Joining.{Grows};
ghost use Rattle.mail_top.specs.Actions.{Becomes, accepts};
ghost use Rattle.mail_top.specs.Course.{Course};
ghost use Rattle.mail_top.specs.FairRuns.{FollowsFairly};
ghost use Rattle.mail_top.specs.FromNothing.{FromNothing};
ghost use Rattle.mail_top.specs.Going.{Goes};
ghost use Rattle.mail_top.specs.Headline.{IsOwnedNow};
ghost use Rattle.mail_top.specs.KeptNow.{IsKeptNow};
ghost use Rattle.mail_top.specs.Leaving.{LosesNone};
ghost use Rattle.mail_top.specs.Renewals.{MayBeRenewed, RenewsSelected};
ghost use Rattle.mail_top.specs.Runs.{CutOff, Follows, BeginsWith, AcceptsAt, AreUnbegunOrBook, IsReady, HasNames, AnyBook};
ghost use Rattle.mail_top.specs.Saying.{SaysAccepted};
ghost use Rattle.mail_top.specs.TruePlay.{PlaysTruly};
ghost use Rattle.mail_top.specs.TrueRuns.{AllTrue, EndsInOne, MayHaveEnded};
ghost use Rattle.mail_top.specs.Weighing.{Admits};
ghost use Rattle.mail_top.specs.Words.{Request, Wanted, Asks, AsksAction};

/// Whatever runs come one behind another, wherever each is cut off, whatever image each stop leaves, and whatever happens at
/// the server between two runs: no action that every image held is lost, with its outcome, and the n-th that was accepted
/// stays in the queue behind n - 1 others. Where the book is kept at first, and others are fair, no action takes effect twice.
pub fn runs_one_behind_another()
    // What a stop leaves is where the next run begins.
    ensures begins { (m : Moment) (files : Files) → MayLeave m files → BeginsWith files m (restarted files m) }

    // A run that goes as `run` promises, by `goes` and `journal.sides.each_one_side`, may be cut off at each of its moments.
    ensures cut_off { (account : Credentials) (words : List (List ℕ)) (input : List ℕ) (k : Course) (s : Status) (text : List ℕ) →
        Goes account words input k s text → (OneSideAtRest k.old.now → EachOneSide k.old k.new) → (at : Clock) →
        Grows k.old at → Grows at k.new → CutOff words input k.seen k.old at k.new }

    // The action that each image holds at a place, with its outcome, each image of each later moment holds there.
    ensures held { (first last : Moment) → Follows first last → LosesNone first last }

    // So an accepted action stays in the queue at the place of its number, and a later one gets a higher number.
    ensures accepted { (wanted : Wanted) (k : Course) (text : List ℕ) (is : SaysAccepted wanted k text) → (last : Moment) →
        Follows k.new.now last → IsHeld (length is.book.queue) is.action None last }
    ensures numbered { (wanted : Wanted) (k : Course) (text : List ℕ) (is : SaysAccepted wanted k text) → (last : Moment) →
        Follows k.new.now last → (later : AcceptsAt last) → length is.book.queue < length later.is.book.queue }

    // Files without a journal, and those that hold a book, stay such: no run and no stop leaves a journal that a later run
    // finds broken, not even where it is being set up.
    ensures whole { (first last : Moment) → Images AreUnbegunOrBook first → Follows first last → Images AreUnbegunOrBook last }

    // Where one side is at rest and the books are known they stay so, and a book keeps its mailboxes.
    ensures ready { (first last : Moment) → IsReady AnyBook first → Follows first last → IsReady AnyBook last }
    ensures journal { (names : List (List ℕ)) (first last : Moment) → IsReady (HasNames names) first → Follows first last →
        IsReady (HasNames names) last }

    // Where others are fair all this is so too, and a book that is kept stays kept: at every moment of each run, behind each stop,
    // and between the runs.
    ensures fair { (first last : Moment) → FollowsFairly first last → Follows first last }
    ensures kept { (first last : Moment) → IsReady AnyBook first → IsKeptNow first → FollowsFairly first last → IsKeptNow last }

    // So over all of them no action's number has two changes in the server's history.
    ensures twice { (first last : Moment) → IsReady AnyBook first → IsKeptNow first → FollowsFairly first last → (n : ℕ) →
        length (ours n last.outside.server.history) ≤ 1 }

    // And each change that is this client's is one that an action wants of the book that a stop leaves.
    ensures owned { (first last : Moment) → IsReady AnyBook first → IsKeptNow first → FollowsFairly first last → IsOwnedNow last }
{}

/// From new files, at a server in whose history no change is this client's, every run is entered with a book that is kept, and with one
/// side at rest: so what `run` promises of those rests on the disk, the server and other clients alone. And over all runs no action takes
/// effect twice, and nothing is changed that no action wants.
pub fn from_nothing()
    ensures begins { (first : Moment) → FromNothing first → IsKeptNow first × IsReady AnyBook first }
    ensures kept { (first last : Moment) → FromNothing first → FollowsFairly first last → IsKeptNow last × IsReady AnyBook last }
    ensures twice { (first last : Moment) → FromNothing first → FollowsFairly first last → (n : ℕ) →
        length (ours n last.outside.server.history) ≤ 1 }
    ensures owned { (first last : Moment) → FromNothing first → FollowsFairly first last → IsOwnedNow last }
{}

/// What `server.truly` says of a `play` it says of it up to each moment on its way. So over all runs each outcome that a stop may leave, and
/// could not have left at first, was recorded in one of them with its reason: in one that was cut off, too.
pub fn outcomes_have_their_reasons()
    ensures so_far { (seen : Files) (old at new : Clock) → PlaysTruly seen old new → Grows old at → Grows at new →
        PlaysTruly seen old at }
    ensures truly { (place : ℕ) (outcome : Outcome) (first last : Moment) (runs : FollowsFairly first last) → AllTrue first last runs →
        MayHaveEnded place outcome last → MayHaveEnded place outcome first ⊎ EndsInOne place outcome first last runs }
{}

/// Between two runs a mailbox may be renewed in which no command waits, also the one that was selected last: its connection comes to its
/// end first.
pub fn mailboxes_may_be_renewed()
    ensures any { MayBeRenewed }
    ensures selected { (left right : Stored) → RenewsSelected left right }
{}

/// Words and an input ask for one thing at most.
pub fn words_ask_one_thing()
    ensures { (words : List (List ℕ)) (input : List ℕ) (one other : Request) → Asks words input one → Asks words input other → one ≡ other }
{}

/// What is asked for becomes one action at most, which depends on what the book knows of its mailboxes alone.
pub fn one_action_is_asked_for()
    ensures one { (wanted : Wanted) (b : Meaning) (action other : Action) → Becomes wanted b action → Becomes wanted b other → action ≡ other }
    ensures boxes { (wanted : Wanted) (b c : Meaning) (action : Action) → c.boxes ≡ b.boxes → Becomes wanted b action → Becomes wanted c action }
{}

/// The action that a book admits for the words of a command, and its input, has a record.
pub fn admitted_actions_have_records()
    ensures { (words : List (List ℕ)) (input : List ℕ) (wanted : Wanted) (b : Meaning) (id : ℕ) (action : Action) →
        AsksAction words input wanted → Admits wanted b id action → IsWritable (accepts b action) }
{}

/// The line by which `report` tells a conflict says `unsure` where its action may have taken effect, and `nothing` where it has not.
pub fn reports_tell_the_effect()
    ensures { (kind : Kind) → effect_text kind ≡ (if is_unsure kind then codes " unsure" else codes " nothing") }
{}
