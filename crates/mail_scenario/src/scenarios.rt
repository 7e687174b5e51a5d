//! Files of cases: scenarios with what they print beside each line.

use crate::fault::LineFault;
use crate::player::Player;
use crate::playing::put_fault;
use cases::{Answer, Fault, Line, Play, Stop, same_bytes};
use std::alloc::Global;

/// What plays scenarios as cases.
#[derive(Clone, Copy)]
pub struct Scenarios {
    pub alloc: Global,
}

impl Play for Scenarios {
    fn play(&mut self, head: &[Line], lines: &[Line]) -> Result<(), Stop> {
        let mut scene = Scene::new(self.alloc);
        scene.play_all(head)?;
        scene.play_all(lines)
    }
}

// A case that is played.
#[derive(Drop)]
struct Scene {
    alloc: Global,
    player: Player,
    // Whether a line ended the scenario.
    is_over: bool,
    // How many lines of the scenario were played.
    number: u64,
}

impl Scene {
    fn new(alloc: Global) -> Scene {
        Scene {
            alloc,
            player: Player::new(alloc),
            is_over: false,
            number: 0,
        }
    }

    fn play_all(&mut self, lines: &[Line]) -> Result<(), Stop> {
        for line in lines {
            if let Err(fault) = self.check(line) {
                return Err(fault.at(line.number));
            }
        }
        Ok(())
    }

    // Plays a line, which prints the rows below it.
    fn check(&mut self, line: &Line) -> Result<(), Fault> {
        let due = rows_of(self.alloc, line)?;
        let mut page = Answer::new(self.alloc);
        self.play(line.text.as_str(), &mut page)?;
        same_bytes(self.alloc, &due, page.as_bytes())
    }

    // Plays a line of the scenario, if it goes on.
    fn play(&mut self, text: &str, page: &mut Answer) -> Result<(), Fault> {
        if self.is_over {
            return Err(Fault::Form);
        }
        self.number = self.number.saturating_add(1);
        match self.player.take(text.as_bytes(), page) {
            Ok(()) => Ok(()),
            Err(fault) => self.end(fault, page),
        }
    }

    // The scenario ends with a fault, which is printed in place of all else.
    fn end(&mut self, fault: LineFault, page: &mut Answer) -> Result<(), Fault> {
        if let LineFault::Memory = fault {
            return Err(Fault::Memory);
        }
        self.is_over = true;
        *page = Answer::new(self.alloc);
        Ok(put_fault(page, fault, self.number)?)
    }
}

// The rows below a line, each with its LF.
fn rows_of(alloc: Global, line: &Line) -> Result<Vec<u8>, Fault> {
    let mut rows = Vec::new(alloc);
    for row in &line.below {
        rows.extend_from_slice(row.text.as_bytes())?;
        rows.push(b'\n')?;
    }
    Ok(rows)
}
