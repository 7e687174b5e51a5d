//! A scenario played to its end.

use crate::fault::LineFault;
use crate::outcome::Ended;
use crate::player::Player;
use cases::{Answer, WordFault};
use std::io;
use std::io::Write;

/// Plays each line of a text, and prints what it shows.
pub fn play<R: Print + AllocGlobal>(rt: &R, text: &[u8]) -> Ended {
    let mut player = Player::new(rt.alloc());
    play_lines(rt, text, &mut player)
}

fn play_lines<R: Print + AllocGlobal>(rt: &R, text: &[u8], player: &mut Player) -> Ended {
    let mut number = 0u64;
    for line in text.split(is_line_end) {
        number = number.saturating_add(1);
        let mut page = Answer::new(rt.alloc());
        if let Err(fault) = player.take(line, &mut page) {
            return print_fault(rt, fault, number);
        }
        if print(rt, &page).is_err() {
            return Ended::Output;
        }
    }
    Ended::Done
}

/// Whether a line ends with this byte.
pub fn is_line_end(byte: &u8) -> bool {
    *byte == b'\n'
}

/// Adds what is printed of the fault of a line.
pub fn put_fault(page: &mut Answer, fault: LineFault, number: u64) -> Result<(), WordFault> {
    match fault {
        LineFault::Unfit => {
            page.word("?")?;
            page.number(number)?;
        }
        LineFault::NotWellFormed => page.word("not well formed")?,
        LineFault::Memory => page.word("memory")?,
    }
    page.end_line()
}

// Prints the fault with which a scenario ends.
fn print_fault<R: Print + AllocGlobal>(rt: &R, fault: LineFault, number: u64) -> Ended {
    let mut page = Answer::new(rt.alloc());
    if put_fault(&mut page, fault, number).is_err() {
        return print_memory(rt);
    }
    match print(rt, &page) {
        Ok(()) => Ended::Fault(fault),
        Err(_) => Ended::Output,
    }
}

/// Prints that memory is wanting, which takes none.
pub fn print_memory<R: Print>(rt: &R) -> Ended {
    match io::writer(rt).write_all(b"memory\n") {
        Ok(()) => Ended::Fault(LineFault::Memory),
        Err(_) => Ended::Output,
    }
}

fn print<R: Print>(rt: &R, page: &Answer) -> io::Result<()> {
    io::writer(rt).write_all(page.as_bytes())
}
