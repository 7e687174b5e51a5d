//! The top call.

ghost use Rattle.std.specs.Prelude.{◌≡◌, ◌≢◌, ◌↔◌, ℕ, List, map, string_bytes};
ghost use Rattle.play_driver.specs.Serving.{AllServing};
ghost use Rattle.mail_top.specs.AnyServer.{StandsAny};
ghost use Rattle.mail_top.specs.BesideServer.{BesideServer, Fairly};
ghost use Rattle.mail_top.specs.Causing.{HasCauses, NoDiskFault, NoInputFault, NoLinkFault, NoOutputFault};
ghost use Rattle.mail_top.specs.CompletePlay.{HasEachBox, IsPlayed};
ghost use Rattle.mail_top.specs.Completing.{Completes};
ghost use Rattle.mail_top.specs.Course.{course_of};
ghost use Rattle.mail_top.specs.Going.{Goes, GoesRequest};
ghost use Rattle.mail_top.specs.HasOutcomes.{HasOutcomes};
ghost use Rattle.mail_top.specs.KeepsJournal.{KeepsJournal};
ghost use Rattle.mail_top.specs.Printing.{Prints};
ghost use Rattle.mail_top.specs.Reading.{AsksAppend, AwaitsAsked, AwaitsInput, IsAppend, IsInput};
ghost use Rattle.mail_top.specs.ReadsInput.{ReadsInput};
ghost use Rattle.mail_top.specs.Resting.{KeepsOneSide};
ghost use Rattle.mail_top.specs.Telling.{printed, TellsNoPlace};
ghost use Rattle.mail_top.specs.TrueToServer.{TrueToServer};
ghost use Rattle.mail_top.specs.UsesLink.{UsesLink};
ghost use Rattle.mail_top.specs.UsesStreams.{UsesStreams};
ghost use Rattle.mail_top.specs.WhileFair.{WhileFair};
ghost use Rattle.mail_top.specs.Words.{AsksNothing, IsLawful, IsPlay, WritesPlay, request_of};

use crate::accepting::accept;
use crate::creating::init;
use crate::ending::{
    Ending, ending_of_action, ending_of_init, ending_of_play, ending_of_text, ending_of_words, say,
};
use crate::listing::list;
use crate::playing::play;
use crate::shows::{Queue, Report};
use crate::{Asked, asked, show_book};
use mail_base::{Account, Status};
use std::alloc::Global;
use world_traits::{Clocked, Disk, Link, Sink, Source, World};

// Carries out what the words ask for, up to the printing.
fn carry_out<W: World, I: Source>(
    alloc: Global,
    words: &[String],
    account: &Account,
    input: &mut I,
    world: &mut W,
) -> Ending
    ensures goes { W.tells_files → (given : List ℕ) × IsInput I.tells (I.rest input.old) given
        × Goes account.now (map string_bytes words.now) given
        (course_of W.Clocked W.seen world.old world.new) result.status (printed result.text) }
    ensures not_output { result.status ≢ Status.Output }
    ensures words { (result.status ≡ Status.Words) ↔ AsksNothing (map string_bytes words.now) }
    ensures causes { HasCauses W.Clocked world.old world.new result.status }
    ensures reads { ReadsInput I.Source (AsksAppend (map string_bytes words.now)) W.tells_files
        (AwaitsInput (map string_bytes words.now) (W.seen world.old)) input.old input.new result.status }
    ensures server { BesideServer W.Clocked W.seen (WritesPlay (map string_bytes words.now))
        world.old world.new result.status (printed result.text) }
    ensures sides { W.tells_files → KeepsOneSide (W.clock world.old) (W.clock world.new) }
    ensures link { (WritesPlay (map string_bytes words.now) → ⊥) → W.link world.new ≡ W.link world.old }
{
    match asked(words) {
        None => ending_of_words(),
        Some(asked) => answer(alloc, &asked, account, input, world),
    }
}

// Carries out what was asked for, up to the printing.
fn answer<W: World, I: Source>(
    alloc: Global,
    asked: &Asked<'_>,
    account: &Account,
    input: &mut I,
    world: &mut W,
) -> Ending
    requires { IsLawful asked.now }
    ensures goes { W.tells_files → (given : List ℕ) × IsInput I.tells (I.rest input.old) given
        × GoesRequest account.now (request_of asked.now given)
        (course_of W.Clocked W.seen world.old world.new) result.status (printed result.text) }
    ensures not_output { result.status ≢ Status.Output }
    ensures not_words { result.status ≢ Status.Words }
    ensures causes { HasCauses W.Clocked world.old world.new result.status }
    ensures reads { ReadsInput I.Source (IsAppend asked.now) W.tells_files
        (AwaitsAsked asked.now (W.seen world.old)) input.old input.new result.status }
    ensures server { BesideServer W.Clocked W.seen (IsPlay asked.now)
        world.old world.new result.status (printed result.text) }
    ensures sides { W.tells_files → KeepsOneSide (W.clock world.old) (W.clock world.new) }
    ensures link { (IsPlay asked.now → ⊥) → W.link world.new ≡ W.link world.old }
{
    match asked {
        Asked::Init(texts) => ending_of_init(init(alloc, world, texts)),
        Asked::Act(action) => ending_of_action(accept(alloc, world, input, action)),
        Asked::Rows(name) => ending_of_text(list(alloc, world, name)),
        Asked::Queue => ending_of_text(show_book(alloc, world, &Queue)),
        Asked::Report => ending_of_text(show_book(alloc, world, &Report)),
        Asked::Play => ending_of_play(play(alloc, account, world)),
    }
}

/// Carries out what the user's words ask for, and prints what it came to.
///
/// The words are one of these:
///
/// - `init BOX ..` sets up a journal for these mailboxes, and prints `ready`;
/// - `flag BOX ID SIGN FLAG ..`, `move BOX ID BOX` and `append BOX FLAG ..` accept an action: both files are synced and read, the
///   action's record is written behind the journal's last one and synced, its gate is opened and synced, and only then
///   `accepted n` is printed. ID is a UID, or `dk` for the message that action k makes. An append's message is the input, with a CR
///   before each LF that has none; it is read where no reason speaks against it that the book can tell, to its end or 2^25 + 1
///   bytes. No other command reads the input;
/// - `list BOX` prints the rows of a mailbox as the user sees them, `queue` a line for each unsettled action, and `report` one for
///   each that ended as a conflict;
/// - `play` plays the actions back and makes each cache the server's, in one connection, with the account's user and password, and
///   prints `played n conflicts c`: how many actions it settled, and how many of them as conflicts. The connection is left as it
///   ended: the caller, who made the world, closes it.
///
/// Refusals come in this order: the words, the disk and the journal as read, the reasons (with a fault of the input between
/// `queue-full` and `too-large`), the limits, and what befalls a session. Want of memory may come in place of any: before the
/// first write, but of `play` also behind what it recorded.
pub fn run<W: World, I: Source, S: Sink>(
    alloc: Global,
    words: &[String],
    account: &Account,
    input: &mut I,
    world: &mut W,
    out: &mut S,
) -> Status
    // What the status says of the words, the input, the book as read, what a stop leaves at every moment, the link, and the text,
    // which is printed. An honest server's bytes go on as replies: the text isn't `error reply AT`.
    ensures goes { W.tells_files → (given : List ℕ) × IsInput I.tells (I.rest input.old) given × (text : List ℕ)
        × Goes account.now (map string_bytes words.now) given
        (course_of W.Clocked W.seen world.old world.new) result text
        × (W.tells_server → result ≡ Status.Reply → TellsNoPlace text)
        × (S.tells → Prints result text (S.written out.old) (S.written out.new) (S.sink_faults out.old) (S.sink_faults out.new)) }

    // Each answer has its cause, whatever the world tells; and where a call of the disk or of the link failed, that is the answer.
    ensures words { (result ≡ Status.Words) ↔ AsksNothing (map string_bytes words.now) }
    ensures causes { HasCauses W.Clocked world.old world.new result }
    ensures streams { UsesStreams I.Source S.Sink (map string_bytes words.now) W.tells_files (W.seen world.old)
        input.old input.new out.old out.new result }

    // What no reason, fault or limit prevents is done, or memory is wanting; `play` at a server that serves it, with each mailbox of
    // the book there.
    ensures completes { W.tells_files → NoDiskFault W.Clocked world.old world.new
        → NoOutputFault S.Sink out.old out.new
        → Completes (map string_bytes words.now) (I.rest input.old) I.tells
        (NoInputFault I.Source input.old input.new) (W.seen world.old) result }
    ensures complete_play { WritesPlay (map string_bytes words.now) → Fairly W.Clocked world.old world.new
        → AllServing (W.clock world.old) (W.clock world.new)
        → HasEachBox (W.seen world.old) (W.clock world.old).now.outside.server
        → NoDiskFault W.Clocked world.old world.new → NoLinkFault W.Clocked world.old world.new
        → NoOutputFault S.Sink out.old out.new → (result ≡ Status.Limit → ⊥) → IsPlayed result }

    // No action that all images hold at entry is lost; and one side of the journal stays at rest.
    ensures journal { KeepsJournal W.Clocked world.old world.new }

    // Whatever a server sends: where each image held a lawful book at entry, each does at every moment, with the actions and the outcomes
    // that all images held then; and of each try of an action one command is sent at most. Nothing is asked of the server or of others.
    ensures any_server { W.tells_files → StandsAny W.Clocked world.old world.new }

    // Up to each moment to which others were fair: each moment is kept, and joined to the one before it by one step of the book beside
    // the server; no action has two changes there; and none is this client's that no action wants of the book that a stop leaves.
    ensures moments { WhileFair W.Clocked world.old world.new }

    // A `play` that came to its end has settled every action, and each took effect once or is reported. However it ended, but by a
    // fault of the disk, no action ended as unsure in it but the one whose intent was pending.
    ensures outcomes { HasOutcomes W.Clocked W.seen (map string_bytes words.now) world.old world.new result }

    // Each intent and each conflict that a `play` recorded had its reason at that moment. One that came to its end leaves each mailbox
    // with a cache that is the server's as it last answered in this run, behind the last outcome. No reply is found at fault.
    ensures server { TrueToServer W.Clocked W.seen (map string_bytes words.now) world.old world.new result }

    // A run connects before it asks for anything, questions and changes of mailboxes alike, and not again: it makes one connection at
    // most. Only `play` touches the server or the link.
    ensures link { UsesLink W.Clocked (map string_bytes words.now) world.old world.new }
{
    let ending = carry_out(alloc, words, account, input, world);
    say(out, &ending)
}
