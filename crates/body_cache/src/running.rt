//! The top call.

ghost use Rattle.std.specs.Prelude.{◌≡◌, ◌≢◌, ◌↔◌, ◌⊎◌, ℕ, List, codes, map, string_bytes};
ghost use Rattle.mail_top.specs.BesideServer.{EntersKept, Fairly};
ghost use Rattle.play_driver.specs.Granting.{IsBox};
ghost use Rattle.play_driver.specs.Serving.{AllServing};
ghost use Rattle.mail_top.specs.Causing.{HasCauses, HasOutputCause, NoDiskFault, NoLinkFault, NoOutputFault};
ghost use Rattle.mail_top.specs.Connecting.{SparesServer};
ghost use Rattle.mail_top.specs.Course.{course_of};
ghost use Rattle.mail_top.specs.KeptNow.{StaysKept};
ghost use Rattle.mail_top.specs.Printing.{Prints};
ghost use Rattle.mail_top.specs.Telling.{printed};
ghost use Rattle.body_cache.specs.Causing.{HasShelfCause, shelving_of};
ghost use Rattle.body_cache.specs.Completing.{AreKeyed, Completes, FetchesOver, IsFetched, NoShelfFault};
ghost use Rattle.body_cache.specs.Ending.{Ends, EndsReading};
ghost use Rattle.body_cache.specs.Fetched.{PutsHad};
ghost use Rattle.body_cache.specs.declared.key.Key.{Key as AnyKey};
ghost use Rattle.body_cache.specs.Finding.{OnlyLooks};
ghost use Rattle.body_cache.specs.Telling.{status_of_read, status_of_unread, text_of_read, text_of_unread};
ghost use Rattle.body_cache.specs.Words.{AsksFetch, AsksNothing, IsFetch, IsFetchOf, WritesMessage};

use crate::carrying::{dates, fetch, show};
use crate::lines::refused_line;
use crate::{ReadFault, Reading, Shelf, reading_of};
use mail_base::{Account, Bytes, Status};
use mail_top::{
    Ending, Printed, Unfinished, ending_of_play, ending_of_refusal, ending_of_words, say,
};
use std::alloc::Global;
use world_traits::{Clocked, Disk, Link, Sink, World};

// The ending for what became of a reading.
fn ending_of_read(read: Result<Bytes, ReadFault>) -> Ending
    ensures status { result.status ≡ status_of_read read }
    ensures text { printed result.text ≡ text_of_read read }
{
    match read {
        Ok(text) => Ending {
            status: Status::Done,
            text: Printed::Text(text),
        },
        Err(fault) => ending_of_fault(fault),
    }
}

// The ending for a reading that isn't carried out.
fn ending_of_fault(fault: ReadFault) -> Ending
    ensures status { result.status ≡ status_of_unread fault }
    ensures text { printed result.text ≡ text_of_unread fault }
{
    match fault {
        ReadFault::Refused(refusal) => ending_of_refusal(refusal),
        ReadFault::Reason(reason) => Ending {
            status: Status::Reason,
            text: Printed::Fixed(refused_line(reason)),
        },
        ReadFault::Stopped(fault) => ending_of_play(Err(Unfinished::Stopped(fault))),
        ReadFault::Renewed(line) => Ending {
            status: Status::Validity,
            text: Printed::Text(line),
        },
        ReadFault::Shelf => Ending {
            status: Status::Shelf,
            text: Printed::Fixed(b"error shelf\n"),
        },
    }
}

// Carries out what the words ask for, up to the printing.
fn carry_out<W: World, K: Shelf>(
    alloc: Global,
    words: &[String],
    account: &Account,
    world: &mut W,
    shelf: &mut K,
) -> Ending
    ensures ends { W.tells_files → Ends account.now (map string_bytes words.now)
        (course_of W.Clocked W.seen world.old world.new) (shelving_of K.Shelf shelf.old shelf.new)
        result.status (printed result.text) }
    ensures looks { W.tells_files → OnlyLooks W.Clocked world.old world.new }
    ensures server { FetchesOver W.Clocked world.old world.new
        (WritesMessage (codes "fetch") (map string_bytes words.now))
        (shelving_of K.Shelf shelf.old shelf.new) result.status }
    ensures not_output { result.status ≢ Status.Output }
    ensures words { (result.status ≡ Status.Words) ↔ AsksNothing (map string_bytes words.now) }
    ensures causes { HasCauses W.Clocked world.old world.new result.status }
    ensures shelf { HasShelfCause K.Shelf shelf.old shelf.new result.status }
    ensures spares { (AsksFetch (map string_bytes words.now) → ⊥) → SparesServer W.Clocked world.old world.new }
{
    match reading_of(words) {
        None => ending_of_words(),
        Some(reading) => answer(alloc, &reading, account, world, shelf),
    }
}

// Carries out a reading, up to the printing.
fn answer<W: World, K: Shelf>(
    alloc: Global,
    reading: &Reading,
    account: &Account,
    world: &mut W,
    shelf: &mut K,
) -> Ending
    ensures ends { W.tells_files → EndsReading account.now reading.now
        (course_of W.Clocked W.seen world.old world.new) (shelving_of K.Shelf shelf.old shelf.new)
        result.status (printed result.text) }
    ensures looks { W.tells_files → OnlyLooks W.Clocked world.old world.new }
    ensures server { FetchesOver W.Clocked world.old world.new (IsFetchOf reading.now)
        (shelving_of K.Shelf shelf.old shelf.new) result.status }
    ensures not_output { result.status ≢ Status.Output }
    ensures not_words { result.status ≢ Status.Words }
    ensures causes { HasCauses W.Clocked world.old world.new result.status }
    ensures shelf { HasShelfCause K.Shelf shelf.old shelf.new result.status }
    ensures spares { (IsFetch reading.now → ⊥) → SparesServer W.Clocked world.old world.new }
{
    match reading {
        Reading::Fetch { name, uid } => {
            ending_of_read(fetch(alloc, account, world, shelf, name, *uid))
        }
        Reading::Show { name, uid } => ending_of_read(show(alloc, world, shelf, name, *uid)),
        Reading::Dates { name } => ending_of_read(dates(alloc, world, shelf, name)),
    }
}

/// Carries out what the words ask for, and prints what it came to.
///
/// The words are one of these; ID is a UID without leading zeros:
///
/// - `fetch BOX ID` fetches the text of a message from the server, puts it on the shelf under the message's UID and the UIDVALIDITY of the
///   mailbox's cache, and prints `kept N` with its length. It makes one connection, with the account's user and password, which is left as it
///   ended: the caller, who made the world, closes it;
/// - `show BOX ID` prints the kept text of a message, byte for byte;
/// - `dates BOX` prints a line for each message of the mailbox's cache whose text is kept, by rising UIDs: the UID, and the seconds since
///   the beginning of 1970 that the text's Date field tells, or `-`.
///
/// Both files of the journal are synced and read, and nothing is written there. The server is asked questions alone.
///
/// Refusals come in this order: the words, the disk and the journal as read, `no-mailbox`, `no-message`; of `fetch` what befalls a session, with `error
/// validity` behind SELECT and `gone` behind the FETCH, and the shelf; of `show` the shelf and `not-kept`. Want of memory may come in place of
/// any.
pub fn read_run<W: World, K: Shelf, S: Sink>(
    alloc: Global,
    words: &[String],
    account: &Account,
    world: &mut W,
    shelf: &mut K,
    out: &mut S,
) -> Status
    // What the status says of the words, the book as read, the link, the shelf and the text, which is printed.
    ensures ends { W.tells_files → (text : List ℕ)
        × Ends account.now (map string_bytes words.now)
        (course_of W.Clocked W.seen world.old world.new) (shelving_of K.Shelf shelf.old shelf.new) result text
        × (S.tells → Prints result text (S.written out.old) (S.written out.new) (S.sink_faults out.old) (S.sink_faults out.new)) }

    // Nothing is written to the journal, and the server is only asked, in one connection at most. So where a moment is kept at entry, each is, up to
    // which others were fair.
    ensures looks { W.tells_files → OnlyLooks W.Clocked world.old world.new }
    ensures kept { EntersKept W.Clocked world.old → StaysKept (W.clock world.old) (W.clock world.new) }

    // A text that `fetch` has put is one that the server had under its key at a moment of this run.
    ensures text { Fairly W.Clocked world.old world.new → (name : List ℕ) → (uid : ℕ)
        → WritesMessage (codes "fetch") (map string_bytes words.now) name uid
        → (result ≡ Status.Done) ⊎ (result ≡ Status.Output)
        → PutsHad name uid (W.clock world.old) (W.clock world.new) (shelving_of K.Shelf shelf.old shelf.new) }

    // Each answer has its cause, whatever world and shelf tell; and where a call of the disk, of the link or of the shelf failed, that is the answer.
    ensures words { (result ≡ Status.Words) ↔ AsksNothing (map string_bytes words.now) }
    ensures causes { HasCauses W.Clocked world.old world.new result }
    ensures shelf { HasShelfCause K.Shelf shelf.old shelf.new result }
    ensures sink { HasOutputCause S.Sink out.old out.new result }
    ensures spares { (AsksFetch (map string_bytes words.now) → ⊥) → SparesServer W.Clocked world.old world.new }

    // What no reason, fault or limit prevents is done, or memory is wanting. At a server that serves and has the mailbox, a text is fetched, or
    // another UIDVALIDITY is told, or that the message is gone.
    ensures completes { W.tells_files → NoDiskFault W.Clocked world.old world.new
        → NoShelfFault K.Shelf shelf.old shelf.new → NoOutputFault S.Sink out.old out.new
        → Completes (map string_bytes words.now) (W.seen world.old) (shelving_of K.Shelf shelf.old shelf.new) result }
    ensures complete_fetch { W.tells_server → (name : List ℕ) → (uid : ℕ) → (key : AnyKey)
        → WritesMessage (codes "fetch") (map string_bytes words.now) name uid → AreKeyed name uid (W.seen world.old) key
        → AllServing (W.clock world.old) (W.clock world.new) → IsBox name (W.clock world.old).now.outside.server
        → NoDiskFault W.Clocked world.old world.new → NoLinkFault W.Clocked world.old world.new
        → NoShelfFault K.Shelf shelf.old shelf.new → NoOutputFault S.Sink out.old out.new
        → (result ≡ Status.Limit → ⊥) → IsFetched result }
{
    let ending = carry_out(alloc, words, account, world, shelf);
    say(out, &ending)
}
