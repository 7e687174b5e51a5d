//! A session on trial: the server's lines are a script, the calls of the session answer what is due
//! below them, and the client's lines are what was sent in the last connection.

use crate::calls::call_of;
use crate::fitting::fits;
use crate::said::{said_by_client, whose};
use crate::script::{script_length, world_of};
use crate::session::Session;
use crate::silent_link::SilentLink;
use crate::trial::at_line;
use cases::{Answer, Fault, Line, Stop, WordFault, differs, last_number, same_bytes};
use std::alloc::Global;
use std::fs::{File, Files};
use std::net::{Net, TcpStream};
use std::time::Clock;
use world_real::RealWorld;
use world_traits::{Clocked, Link};

// What a call must answer.
#[derive(Clone, Copy)]
enum Due {
    // What stands below the line.
    Line,
    // That, or a fault of the link, behind which nothing is called.
    LineOrLink,
}

// Whether a line is a call.
fn is_call(text: &str) -> bool {
    whose(text).is_none()
        && text != "each cut"
        && !text.starts_with("endless ")
        && !text.starts_with("trial ")
}

// What is due below a call.
fn due_of(line: &Line) -> Result<&str, Fault> {
    match line.below.as_slice() {
        [row] => row.due(),
        _ => Err(Fault::Form),
    }
}

// Compares what a call answered with what is due of it, and says whether the link ended here.
fn is_cut_off(alloc: Global, due: Due, line: &Line, came: &Answer) -> Result<bool, Fault> {
    let wanted = due_of(line)?;
    if fits(alloc, wanted, came)? {
        return Ok(false);
    }
    match due {
        Due::LineOrLink if came.as_bytes() == b"link".as_slice() => Ok(true),
        Due::Line | Due::LineOrLink => Err(differs(alloc, wanted.as_bytes(), came.as_bytes())),
    }
}

// What the call of a line answers.
fn answered<L: Link>(
    alloc: Global,
    session: &mut Session,
    link: &mut L,
    text: &str,
) -> Result<Answer, WordFault>
    requires silent { L.tells_files → ⊥ }
    requires mute { L.tells_server → ⊥ }
{
    let call = call_of(alloc, text)?;
    let mut answer = Answer::new(alloc);
    let made = session.make(alloc, link, &call, &mut answer);
    drop(call);
    made?;
    Ok(answer)
}

// Plays a line, and says whether the link ended here.
fn play_line<L: Link>(
    alloc: Global,
    session: &mut Session,
    link: &mut L,
    line: &Line,
    due: Due,
) -> Result<bool, Fault>
    requires silent { L.tells_files → ⊥ }
    requires mute { L.tells_server → ⊥ }
{
    let text = line.text.as_str();
    if !is_call(text) {
        return Ok(false);
    }
    let came = answered(alloc, session, link, text)?;
    is_cut_off(alloc, due, line, &came)
}

// Makes the calls of a case up to the first that the link ends, and says whether it ended.
fn play_calls<L: Link>(
    alloc: Global,
    session: &mut Session,
    link: &mut L,
    lines: &[Line],
    due: Due,
) -> Result<bool, Stop>
    requires silent { L.tells_files → ⊥ }
    requires mute { L.tells_server → ⊥ }
{
    for line in lines {
        if at_line(line.number, play_line(alloc, session, link, line, due))? {
            return Ok(true);
        }
    }
    Ok(false)
}

// Whether what was sent is what was to be, or a front of it where the link ended.
fn check_sent(alloc: Global, wanted: &[u8], sent: &[u8], is_cut: bool) -> Result<(), Fault> {
    if is_cut && wanted.starts_with(sent) {
        return Ok(());
    }
    same_bytes(alloc, wanted, sent)
}

// Plays a case over a link, and compares what was sent.
fn play_over(
    alloc: Global,
    link: &mut SilentLink,
    lines: &[Line],
    due: Due,
    wanted: &[u8],
) -> Result<(), Stop> {
    let mut session = Session::None;
    let played = play_calls(alloc, &mut session, link, lines, due);
    drop(session);
    let sent = check_sent(alloc, wanted, link.sent(), played?);
    at_line(last_number(lines), sent)
}

// Plays a case with the first so many bytes of what the server says.
fn play_front(alloc: Global, lines: &[Line], most: usize, due: Due) -> Result<(), Stop> {
    let number = last_number(lines);
    let wanted = at_line(number, said_by_client(alloc, lines))?;
    let mut link = SilentLink::new(at_line(number, world_of(alloc, lines, most))?);
    let played = play_over(alloc, &mut link, lines, due, &wanted);
    drop(link);
    played
}

/// Plays a case by its script, also with each front of it where `each cut` says so.
pub fn played(alloc: Global, lines: &[Line]) -> Result<(), Stop> {
    play_front(alloc, lines, usize::MAX, Due::Line)?;
    if !lines.iter().any(|line| line.text.as_str() == "each cut") {
        return Ok(());
    }
    for most in 0..at_line(last_number(lines), script_length(alloc, lines))? {
        play_front(alloc, lines, most, Due::LineOrLink)?;
    }
    Ok(())
}

/// Makes the calls of a case at the server at `HOST:PORT`. What the case says that the server says,
/// and what is sent, isn't looked at.
pub fn played_at<'a, R>(rt: &'a R, server: &'a str, lines: &[Line]) -> Result<(), Stop>
where
    R: Files<File = File> + Net<Stream = TcpStream> + Clock + AllocGlobal,
{
    let mut world = RealWorld::new(rt, None, Some(server));
    let mut session = Session::None;
    let played = play_calls(rt.alloc(), &mut session, &mut world, lines, Due::Line);
    drop(session);
    world.close();
    drop(world);
    played?;
    Ok(())
}
