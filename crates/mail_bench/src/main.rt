//! The program `mail_bench`: pushes a long stream through a feed, reads its frames where that is asked for, and tells how many
//! frames and bytes came; writes or reads a large record again and again; makes a long journal and opens it; commits a
//! resynchronisation again and again; tells the book of a journal anew again and again; or makes a delta of many lines. It is there to be timed.
#![tactic(auto)]

mod block;
mod commits;
mod fault;
mod load;
mod meter;
mod records;
mod replies;
mod stores;
mod turns;

use block::Block;
use commits::{Told, commit_often};
use fault::MeterFault;
use imap_response::ResponseFault;
use load::{Load, Task, task_of, text_of};
use mail_base::{FeedFault, Status};
use meter::{Meter, measure};
use record_codec::RecordFault;
use records::{Direction, ROWS, learned, repeat};
use replies::{Keeper, Kind, rows_told};
use std::env;
use std::fs::{File, Files};
use std::net::{Net, TcpStream};
use std::process::ExitCode;
use std::rt::Env;
use std::time::Clock;
use store_core::StoreFault;
use stores::{Part, actions_in, journal, settled_in};
use turns::{status_of, tell_anew};
use world_real::RealWorld;

fn main(rt: HostRuntime) -> ExitCode {
    ExitCode::from(answer(&rt).code())
}

// The status of what the arguments ask for.
fn answer<R>(rt: &R) -> Status
where
    R: Files<File = File> + Net<Stream = TcpStream> + Clock + Env + Print + AllocGlobal,
{
    let Ok(arguments) = env::args(rt) else {
        return told(rt, "error words", Status::Words);
    };
    let mut words = Vec::new(rt.alloc());
    for word in arguments.skip(1) {
        if words.push(word).is_err() {
            return told(rt, "error memory", Status::Memory);
        }
    }
    match task_of(&words) {
        None => told(rt, "error words", Status::Words),
        Some(Task::Feed(load)) => feed(rt, load),
        Some(Task::Record(direction, times)) => record(rt, direction, times),
        Some(Task::Store(part, megabytes)) => store(rt, part, megabytes),
        Some(Task::Commit(told, times)) => commit(rt, told, times),
        Some(Task::Turn(times)) => turn(rt, times),
        Some(Task::Hear(keeper, kind, lines)) => hear(rt, keeper, kind, lines),
    }
}

// Writes or reads a record so often, and tells its size.
fn record<R: Print + AllocGlobal>(rt: &R, direction: Direction, times: u32) -> Status {
    let Ok(body) = learned(rt.alloc(), 1, ROWS) else {
        return told(rt, "error memory", Status::Memory);
    };
    match repeat(rt.alloc(), direction, &body, times) {
        Ok(()) => {
            let name = direction.name();
            let size = body.len();
            match println!(rt; "{name} {times} times {size} bytes") {
                Ok(()) => Status::Done,
                Err(_) => Status::Output,
            }
        }
        Err(RecordFault::Memory) => told(rt, "error memory", Status::Memory),
        Err(RecordFault::BadForm { .. }) => told(rt, "error reply", Status::Reply),
    }
}

// Makes a journal of so many times 1,000,000 bytes, opens it where that is asked for, and tells how many actions and bytes it
// has.
fn store<R: Print + AllocGlobal>(rt: &R, part: Part, megabytes: u32) -> Status {
    let actions = actions_in(megabytes);
    let Ok(file) = journal(rt.alloc(), actions) else {
        return told(rt, "error memory", Status::Memory);
    };
    let size = file.len();
    let counted = match part {
        Part::Make => Ok(actions as usize),
        Part::Open => settled_in(rt.alloc(), file),
    };
    match counted {
        Ok(actions) => {
            let name = part.name();
            match println!(rt; "{name} {actions} actions {size} bytes") {
                Ok(()) => Status::Done,
                Err(_) => Status::Output,
            }
        }
        Err(StoreFault::Memory | StoreFault::Disk) => told(rt, "error memory", Status::Memory),
        Err(_) => told(rt, "error journal", Status::Journal),
    }
}

// Commits a resynchronisation so often.
fn commit<R: Print + AllocGlobal>(rt: &R, told: Told, times: u32) -> Status {
    match commit_often(rt.alloc(), told, times) {
        Ok(()) => {
            let name = told.name();
            match println!(rt; "{name} {times} commits") {
                Ok(()) => Status::Done,
                Err(_) => Status::Output,
            }
        }
        Err(status) => reported(rt, status),
    }
}

// Tells the book of the journal in the present folder anew so often, and how many bytes it takes.
fn turn<R>(rt: &R, times: u32) -> Status
where
    R: Files<File = File> + Net<Stream = TcpStream> + Clock + Print + AllocGlobal,
{
    let mut world = RealWorld::new(rt, Some("."), None);
    let size = tell_anew(rt.alloc(), &mut world, times);
    drop(world);
    match size {
        Ok(size) => match println!(rt; "turn {times} times {size} bytes") {
            Ok(()) => Status::Done,
            Err(_) => Status::Output,
        },
        Err(fault) => reported(rt, status_of(fault)),
    }
}

// Makes a delta of so many lines, and tells how many rows it has.
fn hear<R: Print + AllocGlobal>(rt: &R, keeper: Keeper, kind: Kind, lines: u32) -> Status {
    match rows_told(rt.alloc(), keeper, kind, lines) {
        Ok(rows) => {
            let name = keeper.name();
            let kind = kind.name();
            match println!(rt; "{name} {kind} {lines} lines {rows} rows") {
                Ok(()) => Status::Done,
                Err(_) => Status::Output,
            }
        }
        Err(status) => reported(rt, status),
    }
}

// Prints why it isn't done.
fn reported<R: Print>(rt: &R, status: Status) -> Status {
    match status {
        Status::Memory => told(rt, "error memory", status),
        Status::Disk => told(rt, "error disk", status),
        Status::Reply => told(rt, "error reply", status),
        _ => told(rt, "error journal", status),
    }
}

// Pushes a stream, and tells how many frames and bytes came.
fn feed<R: Print + AllocGlobal>(rt: &R, load: Load) -> Status {
    match carried_out(rt, load) {
        Ok(meter) => {
            let case = load.case.name();
            let Meter { frames, bytes, .. } = &meter;
            match println!(rt; "{case} {frames} frames {bytes} bytes") {
                Ok(()) => Status::Done,
                Err(_) => Status::Output,
            }
        }
        Err(MeterFault::Feed(FeedFault::Memory) | MeterFault::Response(ResponseFault::Memory)) => {
            told(rt, "error memory", Status::Memory)
        }
        Err(_) => told(rt, "error reply", Status::Reply),
    }
}

// Makes the stream of a load and pushes it.
fn carried_out<R: AllocGlobal>(rt: &R, load: Load) -> Result<Meter, MeterFault> {
    let text = text_of(rt.alloc(), load.case)?;
    let block = Block::new(rt.alloc(), &text, load.case.piece())?;
    measure(rt.alloc(), &block, load.size, load.reads)
}

// Prints a line, and hands the status on.
fn told<R: Print>(rt: &R, line: &str, status: Status) -> Status {
    match rt.println(line) {
        Ok(()) => status,
        Err(_) => Status::Output,
    }
}
