//! The program `mowerbean`: arguments, environment, files and streams go to the top call that the first word picks, and
//! its status to the caller.
#![tactic(auto)]

mod notices;
mod settings;
mod streams;
mod top_calls;

ghost use Rattle.std.specs.Prelude.{◌≡◌, ◌⊎◌, option_map, string_bytes};
ghost use Rattle.mail_base.specs.declared.status.Status.TheVariants as statuses;

use body_cache::{DirShelf, read_run};
use look_run::look_run;
use mail_base::{Line, Status};
use mail_top::run;
use notices::{IN_USE, NO_NULL, SEE_HELP, notice_for};
use settings::WordsFault;
use std::alloc::AllocError;
use std::fmt::Display;
use std::fs::{DirBuilder, File, Files};
use std::io;
use std::io::Eprint;
use std::net::{Net, TcpStream};
use std::os::unix::fs::DirBuilderExt;
use std::process::ExitCode;
use std::rt::Env;
use std::time::Clock;
use streams::{InputSource, OutputSink};
use top_calls::{TopCall, only_reads, top_call};
use world_real::{RealWorld, StandardNumbers};
use world_traits::{Link, Sink};

// What the folder of the kept texts may be used by.
const OWNER_ALONE: u32 = 0o700;

fn main(rt: HostRuntime) -> ExitCode {
    // Before any file is opened, so that none gets the number of a closed stream. They are held up to the end.
    let Ok(_numbers) = StandardNumbers::take(&rt) else {
        let _ = rt.eprint(NO_NULL);
        return ExitCode::from(Status::Output.code());
    };
    ExitCode::from(answer(&rt).code())
}

// The status of what the arguments ask for.
fn answer<R>(rt: &R) -> Status
where
    R: Files<File = File>
        + Net<Stream = TcpStream>
        + Clock
        + Env
        + Input
        + Print
        + Eprint
        + AllocGlobal,
{
    let words = match settings::words(rt) {
        Ok(words) => words,
        Err(WordsFault::NotText) => return no_command(rt),
        Err(WordsFault::Memory) => return refused(rt, Status::Memory, &Line::error_memory()),
    };
    if let Some(notice) = notice_for(&words) {
        return told(rt, notice);
    }
    let Some(call) = top_call(&words) else {
        return no_command(rt);
    };
    match carried_out(rt, call, &words) {
        Ok(status) => status,
        Err(AllocError) => refused(rt, Status::Memory, &Line::error_memory()),
    }
}

// Hands the words to a top call, with the user's settings, and closes the connection that it leaves.
fn carried_out<R>(rt: &R, call: TopCall, words: &[String]) -> Result<Status, AllocError>
where
    R: Files<File = File>
        + Net<Stream = TcpStream>
        + Clock
        + Env
        + Input
        + Print
        + Eprint
        + AllocGlobal,
{
    let account = settings::account(rt)?;
    let folder = settings::folder(rt)?;
    let server = settings::server(rt)?;
    let seconds = settings::connection_seconds(rt)?;
    let is_behind_link = settings::is_behind_link(rt)?;
    let alloc = rt.alloc();
    let mut input = InputSource::new(rt.reader());
    let mut world = RealWorld::new(rt, as_text(&folder), as_text(&server));
    world.limit_connections(seconds);
    if is_behind_link {
        world.mark_nothing();
    }
    if only_reads(words) {
        world.only_read();
    }
    let mut out = OutputSink::new(io::writer(rt));
    let status = match call {
        TopCall::Run => run(alloc, words, &account, &mut input, &mut world, &mut out),
        TopCall::Look => look_run(alloc, words, &mut world, &mut out),
        TopCall::Read => {
            let texts = settings::texts_folder(rt, &folder)?;
            make_folder(rt, &texts);
            let mut shelf = DirShelf::new(rt, as_text(&texts));
            read_run(alloc, words, &account, &mut world, &mut shelf, &mut out)
        }
    };
    world.close();
    if world.is_in_use() {
        let _ = rt.eprint(IN_USE);
    }
    if status == Status::Words {
        let _ = rt.eprint(SEE_HELP);
    }
    // Where the front's link stands between, it prints itself why the line to the server was lost.
    if status == Status::Link && !is_behind_link {
        print_reason(rt, world.link_trouble());
    }
    print_reason(rt, world.disk_trouble());
    Ok(status)
}

// Makes a folder for its owner alone, where it isn't there. Where it can't be made, the first call that makes a file there fails.
fn make_folder<R: Files>(rt: &R, path: &Option<String>) {
    if let Some(path) = path {
        let mut making = DirBuilder::new();
        making.mode(OWNER_ALONE);
        let _ = making.create(rt, path.as_str());
    }
}

// Prints why a command failed on standard error, where there is a reason.
fn print_reason<R: Eprint, T: Display + Drop>(rt: &R, reason: Option<T>) {
    if let Some(reason) = reason {
        let _ = eprint!(rt; "mowerbean: {reason}\n");
    }
}

// The text of a setting, where it is one.
fn as_text(setting: &Option<String>) -> Option<&str>
    ensures { option_map (λ text. text.now) result ≡ option_map string_bytes setting.now }
{
    match setting {
        Some(text) => Some(text.as_str()),
        None => None,
    }
}

// The answer to words that are no command.
fn no_command<R: Print + Eprint>(rt: &R) -> Status
    ensures { result ≡ statuses.Words }
{
    let status = refused(rt, Status::Words, &Line::error_words());
    let _ = rt.eprint(SEE_HELP);
    status
}

// Prints the line of a refusal that comes before the top call.
fn refused<R: Print>(rt: &R, status: Status, line: &Line) -> Status
    ensures { result ≡ status }
{
    let mut out = OutputSink::new(io::writer(rt));
    let _ = out.write(line.as_bytes());
    status
}

// Prints a notice. A failed write is told by the status, as that of any command's line.
fn told<R: Print>(rt: &R, notice: &str) -> Status
    ensures { (result ≡ statuses.Done) ⊎ (result ≡ statuses.Output) }
{
    let mut out = OutputSink::new(io::writer(rt));
    match out.write(notice.as_bytes()) {
        Ok(()) => Status::Done,
        Err(_) => Status::Output,
    }
}
