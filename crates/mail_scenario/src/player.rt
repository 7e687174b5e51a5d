//! A scenario, as far as it has come.

use crate::any_world::boxed;
use crate::fault::LineFault;
use crate::looks::look;
use crate::next_run::{NextRun, is_beside_world, no_plan};
use crate::runs::run_in;
use crate::setup::Setup;
use crate::stand::Stand;
use cases::{Answer, Input, words_of};
use std::alloc::Global;
use std::mem;

/// A scenario, as far as it has come.
#[derive(Drop)]
pub struct Player {
    alloc: Global,
    // The server that is described, up to `world`, `muted` or `scripted`.
    setup: Option<Box<Setup>>,
    // What stands behind these. Before the first server there is neither. A box keeps it out of
    // sight of those proofs that let a scenario go: a world has many parts.
    stand: Option<Box<Stand>>,
    next: NextRun,
}

impl Player {
    /// No line was played. It takes no memory.
    pub fn new(alloc: Global) -> Player {
        Player {
            alloc,
            setup: None,
            stand: None,
            next: NextRun::new(alloc),
        }
    }

    /// Plays a line, and adds to the page what it prints. An empty line is passed over, and a
    /// comment is printed.
    ///
    /// # Errors
    /// Why the scenario ends with this line. What the page has then isn't printed, and no further
    /// line is played.
    pub fn take(&mut self, text: &[u8], page: &mut Answer) -> Result<(), LineFault> {
        match text {
            [] => Ok(()),
            [b'#', ..] => {
                page.raw(text)?;
                Ok(page.end_line()?)
            }
            _ => self.take_words(text, page),
        }
    }

    fn take_words(&mut self, text: &[u8], page: &mut Answer) -> Result<(), LineFault> {
        let words = words_of(self.alloc, text)?;
        let mut input = Input::new(self.alloc, &words);
        self.take_line(&mut input, page)?;
        Ok(input.end()?)
    }

    // Plays a line. `files` alone shows the files, and `shelf` alone the kept texts.
    fn take_line(&mut self, input: &mut Input<'_>, page: &mut Answer) -> Result<(), LineFault> {
        let verb = input.word()?;
        match verb {
            "server" => self.begin(input),
            "world" | "muted" | "scripted" => self.enter(verb, input),
            "files" | "shelf" if input.is_done() => self.look(verb, input, page),
            "disk" | "link" | "other" | "stop" | "source" | "sink" | "shelf" => {
                self.plan(verb, input)
            }
            "input" => self.give_input(input),
            "run" => self.run(input, page),
            "restart" => self.restart(input),
            "change" | "show" | "history" | "sent" | "image" | "moments" => {
                self.look(verb, input, page)
            }
            _ => self.set(verb, input),
        }
    }

    // `WORD ..`: a server with these offers, and nothing of what was.
    fn begin(&mut self, input: &mut Input<'_>) -> Result<(), LineFault> {
        drop(self.stand.take());
        drop(mem::replace(&mut self.next, NextRun::new(self.alloc)));
        drop(self.setup.replace(boxed(self.alloc, Setup::new(input))?));
        Ok(())
    }

    fn set(&mut self, verb: &str, input: &mut Input<'_>) -> Result<(), LineFault> {
        match &mut self.setup {
            Some(setup) => Ok(setup.set(verb, input)?),
            None => Err(LineFault::Unfit),
        }
    }

    // Makes the world of the server that was described, or of its script. One of a muted server
    // has no plan, and neither has one of a script: what was planned is forgotten.
    fn enter(&mut self, verb: &str, input: &mut Input<'_>) -> Result<(), LineFault> {
        input.end()?;
        let Some(setup) = self.setup.take() else {
            return Err(LineFault::Unfit);
        };
        if verb != "world" {
            self.next.forget_plan(self.alloc);
        }
        let stand = Box::into_inner(setup).into_stand(verb, self.alloc);
        self.stand = Some(boxed(self.alloc, stand)?);
        Ok(())
    }

    // Of a run over a world without a plan the input, the output and the shelf alone fail by one.
    fn plan(&mut self, verb: &str, input: &mut Input<'_>) -> Result<(), LineFault> {
        if self.has_plan(verb) {
            return Ok(self.next.add(verb, input)?);
        }
        Err(LineFault::Unfit)
    }

    fn has_plan(&self, verb: &str) -> bool {
        match &self.stand {
            Some(stand) => stand.world.world().has_plan() || is_beside_world(verb),
            None => self.setup.is_some(),
        }
    }

    // `TEXT`
    fn give_input(&mut self, input: &mut Input<'_>) -> Result<(), LineFault> {
        if self.setup.is_none() && self.stand.is_none() {
            return Err(LineFault::Unfit);
        }
        self.next.input = input.text()?.to_vec(self.alloc)?;
        Ok(())
    }

    // `WORD ..`
    fn run(&mut self, input: &mut Input<'_>, page: &mut Answer) -> Result<(), LineFault> {
        let words = input.letters_left()?;
        let Some(stand) = &mut self.stand else {
            return Err(LineFault::Unfit);
        };
        let next = mem::replace(&mut self.next, NextRun::new(self.alloc));
        let done = run_in(self.alloc, stand, &words, next, page);
        drop(words);
        Ok(done?)
    }

    // `PICK`: goes on from the image of the last moment that the pick takes.
    fn restart(&mut self, input: &mut Input<'_>) -> Result<(), LineFault> {
        let pick = input.number()?;
        let Some(stand) = self.stand.take() else {
            return Err(LineFault::Unfit);
        };
        let stand = Box::into_inner(stand).restarted(self.alloc, pick, no_plan(self.alloc));
        self.stand = Some(boxed(self.alloc, stand)?);
        Ok(())
    }

    fn look(
        &mut self,
        verb: &str,
        input: &mut Input<'_>,
        page: &mut Answer,
    ) -> Result<(), LineFault> {
        match &mut self.stand {
            Some(stand) => Ok(look(stand, verb, input, page)?),
            None => Err(LineFault::Unfit),
        }
    }
}
