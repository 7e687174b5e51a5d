//! The top call.

ghost use Rattle.std.specs.Prelude.{◌≡◌, ◌≢◌, ◌≤◌, ◌↔◌, ◌-◌, ◌++◌, ℕ, List, Option, map, string_bytes};
ghost use Rattle.world_traits.specs.Calls.{Rose};
ghost use Rattle.action_queue.specs.declared.action.Action.TheVariants as actions;
ghost use Rattle.action_queue.specs.declared.outcome.Outcome.{Outcome};
ghost use Rattle.store_core.specs.HeldActions.{IsHeld};
ghost use Rattle.mail_top.specs.Course.{course_of};
ghost use Rattle.mail_top.specs.Ending.{IsDone};
ghost use Rattle.mail_top.specs.Printing.{Prints};
ghost use Rattle.mail_top.specs.Showing.{OnlyReads};
ghost use Rattle.mail_top.specs.Telling.{printed};
ghost use Rattle.look_run.specs.Ending.{AreSeen, Ends, EndsLook};
ghost use Rattle.look_run.specs.Telling.{letter_status, letter_text, refused};
ghost use Rattle.look_run.specs.Words.{Asks, AsksNothing, IsNumbered, WritesLetter};
ghost use Rattle.look_run.specs.declared.look.Look.{Look as AnyLook};

use crate::{History, Letter, Look, LookReason, look_of};
use mail_base::{Bytes, Status};
use mail_top::{
    Ending, Printed, Refusal, ending_of_refusal, ending_of_text, ending_of_words, say, show_book,
};
use std::alloc::Global;
use world_traits::{Clocked, Disk, Sink};

// The line of a reason.
fn refused_line(reason: LookReason) -> &'static [u8]
    ensures { result.now ≡ refused reason }
{
    match reason {
        LookReason::NoAction => b"refused no-action\n",
        LookReason::NoLetter => b"refused no-letter\n",
    }
}

// The ending for what became of a letter.
fn ending_of_letter(shown: Result<Result<Bytes, LookReason>, Refusal>) -> Ending
    ensures status { result.status ≡ letter_status shown }
    ensures text { printed result.text ≡ letter_text shown }
{
    match shown {
        Ok(Ok(text)) => Ending {
            status: Status::Done,
            text: Printed::Text(text),
        },
        Ok(Err(reason)) => Ending {
            status: Status::Reason,
            text: Printed::Fixed(refused_line(reason)),
        },
        Err(refusal) => ending_of_refusal(refusal),
    }
}

// Looks at what the words ask for, up to the printing.
fn looked<D: Disk>(alloc: Global, words: &[String], disk: &mut D) -> Ending
    ensures ends { D.tells_files →
        Ends (map string_bytes words.now) (course_of D.Clocked D.seen disk.old disk.new) result.status (printed result.text) }
    ensures reads { D.tells_files → OnlyReads (D.clock disk.old) (D.clock disk.new) }
    ensures not_output { result.status ≢ Status.Output }
    ensures words { (result.status ≡ Status.Words) ↔ AsksNothing (map string_bytes words.now) }
    ensures reason { result.status ≡ Status.Reason → (n : ℕ) × WritesLetter (map string_bytes words.now) n }
    ensures cause { result.status ≡ Status.Disk → Rose (D.disk_faults disk.old) (D.disk_faults disk.new) }
    ensures unfailed { (result.status ≡ Status.Disk → ⊥) → D.disk_faults disk.new ≡ D.disk_faults disk.old }
    ensures count { D.disk_faults disk.old ≤ D.disk_faults disk.new }
    ensures link { D.link disk.new ≡ D.link disk.old }
{
    let Some(look) = look_of(words) else {
        return ending_of_words();
    };
    look_at(alloc, disk, &look)
}

// Looks at this, up to the printing.
fn look_at<D: Disk>(alloc: Global, disk: &mut D, look: &Look) -> Ending
    requires { IsNumbered look.now }
    ensures ends { D.tells_files →
        EndsLook look.now (course_of D.Clocked D.seen disk.old disk.new) result.status (printed result.text) }
    ensures reads { D.tells_files → OnlyReads (D.clock disk.old) (D.clock disk.new) }
    ensures not_output { result.status ≢ Status.Output }
    ensures not_words { result.status ≢ Status.Words }
    ensures reason { result.status ≡ Status.Reason → (n : ℕ) × (look.now ≡ Look.Letter n) }
    ensures cause { result.status ≡ Status.Disk → Rose (D.disk_faults disk.old) (D.disk_faults disk.new) }
    ensures unfailed { (result.status ≡ Status.Disk → ⊥) → D.disk_faults disk.new ≡ D.disk_faults disk.old }
    ensures count { D.disk_faults disk.old ≤ D.disk_faults disk.new }
    ensures link { D.link disk.new ≡ D.link disk.old }
{
    match look {
        Look::History => ending_of_text(show_book(alloc, disk, &History)),
        Look::Letter(number) => {
            let letter = Letter { number: *number };
            ending_of_letter(show_book(alloc, disk, &letter))
        }
    }
}

/// Looks at what the words ask for, and prints it.
///
/// The words are `history`, which prints a line for each action with how it stands, or `letter N`, which prints the text of an
/// append byte for byte as it was accepted. Both files are synced and read, and nothing is written. The link isn't touched, and no
/// input is read.
///
/// Refusals come in this order: the words, the disk and the journal as read, and whether the book has such a letter. Want of memory
/// may come in place of any.
pub fn look_run<D: Disk, S: Sink>(
    alloc: Global,
    words: &[String],
    disk: &mut D,
    out: &mut S,
) -> Status
    // What the status says of the words, the book as read, what a stop leaves now, and the text, which is printed; and what a stop
    // leaves meanwhile.
    ensures ends { D.tells_files → (text : List ℕ)
        × Ends (map string_bytes words.now) (course_of D.Clocked D.seen disk.old disk.new) result text
        × (S.tells → Prints result text (S.written out.old) (S.written out.new) (S.sink_faults out.old) (S.sink_faults out.new)) }
    ensures reads { D.tells_files → OnlyReads (D.clock disk.old) (D.clock disk.new) }

    // Each answer has its cause, whatever the disk tells; and where a call of the disk failed, that is the answer. The link stays.
    ensures words { (result ≡ Status.Words) ↔ AsksNothing (map string_bytes words.now) }
    ensures reason { result ≡ Status.Reason → (n : ℕ) × WritesLetter (map string_bytes words.now) n }
    ensures disk { result ≡ Status.Disk → Rose (D.disk_faults disk.old) (D.disk_faults disk.new) }
    ensures unfailed { (result ≡ Status.Disk → ⊥) → D.disk_faults disk.new ≡ D.disk_faults disk.old }
    ensures output { result ≡ Status.Output → Rose (S.sink_faults out.old) (S.sink_faults out.new) }
    ensures link { D.link disk.new ≡ D.link disk.old }

    // The files hold what is asked for, and no fault: it is printed, or memory is wanting.
    ensures complete { D.tells_files → (look : AnyLook) → Asks (map string_bytes words.now) look → AreSeen look (D.seen disk.old) →
        (Rose (D.disk_faults disk.old) (D.disk_faults disk.new) → ⊥) → (Rose (S.sink_faults out.old) (S.sink_faults out.new) → ⊥) →
        IsDone result }

    // An append that each stop leaves, as one that was accepted, is printed with its text.
    ensures letter { D.tells_files → S.tells → (n : ℕ) → WritesLetter (map string_bytes words.now) n →
        (to : List ℕ) → (flags : List (List ℕ)) → (text id : List ℕ) → (named : Option Outcome) →
        IsHeld (n - 1) (actions.Append to flags text id) named (D.clock disk.old).now →
        result ≡ Status.Done → S.written out.new ≡ S.written out.old ++ text }

    ensures count { D.disk_faults disk.old ≤ D.disk_faults disk.new }
    ensures sink_count { S.sink_faults out.old ≤ S.sink_faults out.new }
{
    let ending = looked(alloc, words, disk);
    say(out, &ending)
}
