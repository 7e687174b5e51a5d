//! How a command ends: its status and what it prints.

ghost use Rattle.std.specs.Prelude.{◌≡◌, ◌≢◌, ◌≤◌};
ghost use Rattle.world_traits.specs.Calls.{Rose};
ghost use Rattle.mail_base.specs.Lines.{accepted, error_words, ready};
ghost use Rattle.mail_top.specs.Printing.{IsSaid, Prints};
ghost use Rattle.mail_top.specs.Telling.{line_of, printed, status_of, text_of, status_of_refusal, text_of_refusal};
ghost use Rattle.mail_top.specs.Telling.{status_of_play, text_of_play, status_of_conflicts, status_of_fault, text_of_fault, text_of_why};

use crate::printed::refused_line;
use crate::{Printed, Refusal, Unfinished};
use conflict_report::Told;
use imap_model::Limit;
use journal_core::Place9;
use mail_base::{Bytes, Line, Status};
use play_driver::{PlayFault, Played, Why};
use world_traits::{Sink, WriteFailed};

/// How a command ends, before its text is printed.
#[derive(Drop)]
pub struct Ending {
    /// The command's status.
    pub status: Status,
    /// What it prints.
    pub text: Printed,
}

/// The ending for words that are no command.
pub fn ending_of_words() -> Ending
    ensures status { result.status ≡ Status.Words }
    ensures text { printed result.text ≡ error_words }
{
    Ending {
        status: Status::Words,
        text: Printed::Line(Line::error_words()),
    }
}

/// The ending for what became of a journal to be set up.
pub fn ending_of_init(created: Result<(), Refusal>) -> Ending
    ensures status { result.status ≡ status_of created }
    ensures text { printed result.text ≡ text_of (λ _. ready) created }
{
    match created {
        Ok(()) => done(Printed::Line(Line::ready())),
        Err(refusal) => ending_of_refusal(refusal),
    }
}

/// The ending for what became of an action.
pub fn ending_of_action(taken: Result<u32, Refusal>) -> Ending
    ensures status { result.status ≡ status_of taken }
    ensures text { printed result.text ≡ text_of accepted taken }
{
    match taken {
        Ok(number) => done(Printed::Line(Line::accepted(u64::from(number)))),
        Err(refusal) => ending_of_refusal(refusal),
    }
}

/// The ending for what became of a text that is to be shown: the rows of a mailbox, the queue, or the conflicts.
pub fn ending_of_text(listed: Result<Bytes, Refusal>) -> Ending
    ensures status { result.status ≡ status_of listed }
    ensures text { printed result.text ≡ text_of (λ text. text) listed }
{
    match listed {
        Ok(text) => done(Printed::Text(text)),
        Err(refusal) => ending_of_refusal(refusal),
    }
}

/// The ending for what became of a run.
pub fn ending_of_play(played: Result<Played, Unfinished>) -> Ending
    ensures status { result.status ≡ status_of_play played }
    ensures text { printed result.text ≡ text_of_play played }
{
    match played {
        Ok(played) => Ending {
            status: status_of_conflicts(played.conflicts),
            text: Printed::Told(Told::played(played.settled, played.conflicts)),
        },
        Err(Unfinished::Unopened(refusal)) => ending_of_refusal(refusal),
        Err(Unfinished::Stopped(fault)) => Ending {
            status: status_of_fault(&fault),
            text: text_of_fault(&fault),
        },
    }
}

/// Prints the text of an ending. A write that fails changes the status of a command that is done, and no other.
pub fn say<S: Sink>(out: &mut S, ending: &Ending) -> Status
    requires { ending.now.status ≢ Status.Output }
    ensures status { IsSaid ending.now.status result }
    ensures prints { S.tells → Prints result (printed ending.now.text) (S.written out.old) (S.written out.new)
        (S.sink_faults out.old) (S.sink_faults out.new) }
    ensures output { result ≡ Status.Output → Rose (S.sink_faults out.old) (S.sink_faults out.new) }
    ensures count { S.sink_faults out.old ≤ S.sink_faults out.new }
{
    match out.write(ending.text.as_bytes()) {
        Ok(()) => ending.status,
        Err(WriteFailed) => match ending.status {
            Status::Done | Status::Conflicts => Status::Output,
            status => status,
        },
    }
}

// The status of a run that came to its end.
fn status_of_conflicts(conflicts: u32) -> Status
    ensures { result ≡ status_of_conflicts conflicts }
{
    if conflicts == 0 {
        Status::Done
    } else {
        Status::Conflicts
    }
}

// The ending of a command that is done.
fn done(text: Printed) -> Ending
    ensures status { result.status ≡ Status.Done }
    ensures text { printed result.text ≡ printed text }
{
    Ending {
        status: Status::Done,
        text,
    }
}

/// The ending of a command that isn't carried out.
pub fn ending_of_refusal(refusal: Refusal) -> Ending
    ensures status { result.status ≡ status_of_refusal refusal }
    ensures text { printed result.text ≡ text_of_refusal refusal }
{
    let (status, text) = match refusal {
        Refusal::Disk => (Status::Disk, Printed::Line(Line::error_disk())),
        Refusal::Memory => (Status::Memory, Printed::Line(Line::error_memory())),
        Refusal::Input => (Status::Input, Printed::Fixed(b"error input\n")),
        Refusal::Already => (Status::Journal, Printed::Line(Line::journal_exists())),
        Refusal::NotAJournal { why } => (Status::Journal, Printed::Line(line_of(why))),
        Refusal::Reason { reason } => (Status::Reason, Printed::Fixed(refused_line(reason))),
        Refusal::Actions => (
            Status::Limit,
            Printed::Told(Told::error_limit(Limit::Actions, 1_000_001)),
        ),
        Refusal::Full { end } => (Status::Limit, Printed::Line(Line::limit_journal(end))),
        Refusal::Generation => (
            Status::Limit,
            Printed::Told(Told::error_limit(Limit::Generation, 4_294_967_296)),
        ),
    };
    Ending { status, text }
}

// The line that tells why files are no journal.
fn line_of(why: Place9) -> Line
    ensures { result ≡ line_of why }
{
    match why {
        Place9::Absent => Line::journal_none(),
        Place9::Header => Line::journal_header(),
        Place9::Generations => Line::journal_generations(),
        Place9::Record { at } => Line::journal_record(at),
    }
}

// The status of a run that ended early.
fn status_of_fault(fault: &PlayFault) -> Status
    ensures { result ≡ status_of_fault fault.now }
{
    match fault {
        PlayFault::Memory => Status::Memory,
        PlayFault::Disk => Status::Disk,
        PlayFault::Link => Status::Link,
        PlayFault::Refused { .. } => Status::Refused,
        PlayFault::BadReply { .. } => Status::Reply,
        PlayFault::Lacking { .. } => Status::Lacking,
        PlayFault::Limit { .. } => Status::Limit,
    }
}

// The line that tells why a run ended early.
fn text_of_fault(fault: &PlayFault) -> Printed
    ensures { printed result ≡ text_of_fault fault.now }
{
    match fault {
        PlayFault::Memory => Printed::Line(Line::error_memory()),
        PlayFault::Disk => Printed::Line(Line::error_disk()),
        PlayFault::Link => Printed::Fixed(b"error link\n"),
        PlayFault::Refused { line } => Printed::Told(Told::error_refused(line.as_slice())),
        PlayFault::BadReply { why } => Printed::Told(told_why(why)),
        PlayFault::Lacking { what } => Printed::Told(Told::error_lacking(*what)),
        PlayFault::Limit { which, number } => Printed::Told(Told::error_limit(*which, *number)),
    }
}

// The line that tells what is wrong with a reply.
fn told_why(why: &Why) -> Told
    ensures { result ≡ text_of_why why.now }
{
    match why {
        Why::At(at) => Told::error_reply_at(*at),
        Why::Lacks(item) => Told::error_reply_lacks(*item),
        Why::Older { name, kept, told } => Told::error_reply_validity(name, *kept, *told),
        Why::Lower { kept, told } => Told::error_reply_modseq(*kept, *told),
    }
}
