//! What the next run begins with.

use cases::{Input, WordFault, change};
use mail_base::List;
use std::alloc::Global;
use std::mem;
use world_mem::{Loss, Plan};

/// What the next run reads, and what is to go wrong in it.
#[derive(Drop)]
pub struct NextRun {
    pub input: Vec<u8>,
    pub plan: Plan,
    pub source_fails: Vec<u64>,
    pub sink_fails: Vec<u64>,
    pub shelf_fails: Vec<u64>,
}

/// A plan by which nothing goes wrong.
pub fn no_plan(alloc: Global) -> Plan {
    Plan {
        disk_fails: List::new(alloc),
        link_fails: List::new(alloc),
        foreign: List::new(alloc),
        stop_after: None,
    }
}

/// Whether such a line is of the input, of the output or of the shelf.
pub fn is_beside_world(verb: &str) -> bool {
    matches!(verb, "source" | "sink" | "shelf")
}

impl NextRun {
    /// Nothing to read, and nothing goes wrong. It takes no memory.
    pub fn new(alloc: Global) -> NextRun {
        NextRun {
            input: Vec::new(alloc),
            plan: no_plan(alloc),
            source_fails: Vec::new(alloc),
            sink_fails: Vec::new(alloc),
            shelf_fails: Vec::new(alloc),
        }
    }

    /// Adds what a line says that is to go wrong. Calls are counted from 1.
    pub fn add(&mut self, verb: &str, input: &mut Input<'_>) -> Result<(), WordFault> {
        let call = input.number()?;
        match verb {
            "stop" => self.plan.stop_after = Some(call),
            _ if call == 0 => return Err(WordFault::Form),
            "disk" => self.plan.disk_fails.push(call)?,
            "link" => self.plan.link_fails.push((call, loss_of(input)?))?,
            "other" => self.add_foreign(call, input)?,
            "source" => self.source_fails.push(call)?,
            "sink" => self.sink_fails.push(call)?,
            "shelf" => self.shelf_fails.push(call)?,
            _ => return Err(WordFault::Form),
        }
        Ok(())
    }

    // `CHANGE`: another client makes it as this call of the link begins.
    fn add_foreign(&mut self, call: u64, input: &mut Input<'_>) -> Result<(), WordFault> {
        let foreign = change(input)?;
        self.plan
            .foreign
            .push((call, foreign.name, foreign.change))?;
        Ok(())
    }

    /// Nothing goes wrong any more.
    pub fn forget_plan(&mut self, alloc: Global) {
        drop(mem::replace(&mut self.plan, no_plan(alloc)));
        self.source_fails = Vec::new(alloc);
        self.sink_fails = Vec::new(alloc);
        self.shelf_fails = Vec::new(alloc);
    }
}

// `nothing`, `part K`, `all`, `waits done` or `waits dropped`
fn loss_of(input: &mut Input<'_>) -> Result<Loss, WordFault> {
    match input.word()? {
        "nothing" => Ok(Loss::Nothing),
        "part" => Ok(Loss::Part(input.short()?)),
        "all" => Ok(Loss::All),
        "waits" => Ok(Loss::Waits {
            carried: is_carried(input.word()?)?,
        }),
        _ => Err(WordFault::Form),
    }
}

// What becomes of a command that waits.
fn is_carried(word: &str) -> Result<bool, WordFault> {
    match word {
        "done" => Ok(true),
        "dropped" => Ok(false),
        _ => Err(WordFault::Form),
    }
}
