//! `trial player`: a player and its book are told what a server says, and each need, each record
//! and each reply that isn't taken is compared.

use crate::player_book::begun;
use crate::player_side::{PlayerSide, Way};
use crate::trial::{at_line, play, play_lines};
use cases::{Fault, Line, Stop, last_number};
use std::alloc::Global;

/// Plays a case twice: what was told of a mailbox is copied into its event, and it is moved. Where
/// lines `each` stand in it, the lines in front of the first one are played with each block behind
/// one of them.
pub fn played(alloc: Global, head: &[Line], lines: &[Line]) -> Result<(), Stop> {
    play_way(alloc, Way::Copied, head, lines)?;
    play_way(alloc, Way::Moved, head, lines)
}

fn play_way(alloc: Global, way: Way, head: &[Line], lines: &[Line]) -> Result<(), Stop> {
    let mut blocks = lines.split(|line| line.text.as_str() == "each");
    let Some(front) = blocks.next() else {
        return Ok(());
    };
    if front.len() == lines.len() {
        return play_block(alloc, way, head, &[], lines);
    }
    for block in blocks {
        play_block(alloc, way, head, front, block)?;
    }
    Ok(())
}

// Plays the lines that all cases share, those in front and a block behind them, on a new book.
fn play_block(
    alloc: Global,
    way: Way,
    head: &[Line],
    front: &[Line],
    block: &[Line],
) -> Result<(), Stop> {
    let mut side = at_line(last_number(block), side_of(alloc, way))?;
    let played = play_parts(&mut side, head, front, block);
    drop(side);
    played
}

// A player beside a new book.
fn side_of(alloc: Global, way: Way) -> Result<PlayerSide, Fault> {
    Ok(PlayerSide::new(alloc, way, begun(alloc)?)?)
}

fn play_parts(
    side: &mut PlayerSide,
    head: &[Line],
    front: &[Line],
    block: &[Line],
) -> Result<(), Stop> {
    play_lines(side, head)?;
    play(side, front, block)
}
