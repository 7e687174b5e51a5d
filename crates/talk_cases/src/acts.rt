//! What happens to a server between two lines of a client, and what is asked of it.

use crate::listener::Listener;
use crate::reading::Reading;
use cases::{Answer, Input, WordFault, change, listed_flags, name, words_of};
use imap_model::{Change, Deed};
use server_mem::{ForeignFault, MemServer};
use std::alloc::Global;
use world_mem::Draws;

fn comes(deed: &Deed) -> bool {
    match &deed.change {
        Change::Add { .. } => true,
        Change::SetFlags { .. }
        | Change::Drop { .. }
        | Change::Shift { .. }
        | Change::Reset { .. } => false,
    }
}

/// How many messages came.
pub fn appended(server: &MemServer) -> u64 {
    let mut count = 0u64;
    for deed in server.server().history.as_slice() {
        if comes(deed) {
            count = count.saturating_add(1);
        }
    }
    count
}

/// Adds the rule that a change by another client breaks, if it breaks one.
pub fn put_broken(answer: &mut Answer, made: Result<(), ForeignFault>) -> Result<(), WordFault> {
    match made {
        Ok(()) => Ok(()),
        Err(ForeignFault::Memory) => Err(WordFault::Memory),
        Err(ForeignFault::NotLawful { rule }) => {
            answer.word("rule")?;
            answer.number(u64::from(rule))
        }
    }
}

// `draws 0 1000 4`: what a seed draws below a bound, so often.
fn put_draws(input: &mut Input, answer: &mut Answer) -> Result<(), WordFault> {
    let (seed, bound, count) = (input.number()?, input.short()?, input.short()?);
    if bound == 0 {
        return Err(WordFault::Form);
    }
    let mut draws = Draws::new(seed);
    for _ in 0..count {
        answer.number(u64::from(draws.below(bound)))?;
    }
    Ok(())
}

/// Adds how many changes there were, or how many messages came; or what a seed draws.
pub fn ask(
    server: &MemServer,
    word: &str,
    input: &mut Input,
    answer: &mut Answer,
) -> Result<(), WordFault> {
    match word {
        "changes" => answer.number(server.server().history.len() as u64),
        "appended" => answer.number(appended(server)),
        "draws" => put_draws(input, answer),
        _ => Err(WordFault::Form),
    }
}

// `any \Seen`, or `only \Seen`
fn permit(listener: &mut Listener, input: &mut Input) -> Result<(), WordFault> {
    let any = match input.word()? {
        "any" => true,
        "only" => false,
        _ => return Err(WordFault::Form),
    };
    listener.permit(listed_flags(input)?, any);
    Ok(())
}

// `drop INBOX 42`
fn change_by(
    listener: &mut Listener,
    input: &mut Input,
    answer: &mut Answer,
) -> Result<(), WordFault> {
    let made = change(input)?;
    let done = put_broken(answer, listener.foreign(&made.name, &made.change));
    drop(made);
    done
}

// Does what all words say.
fn do_words(
    listener: &mut Listener,
    input: &mut Input,
    reading: &mut Reading,
) -> Result<(), WordFault> {
    match input.word()? {
        "connect" => reading.put(&listener.greet()?)?,
        "lose" => listener.lose(),
        "quiet" => {}
        "change" => change_by(listener, input, &mut reading.answer)?,
        "permit" => permit(listener, input)?,
        "refuse" => listener.refuse(name(input)?),
        word => ask(listener.server(), word, input, &mut reading.answer)?,
    }
    input.end()
}

/// Does what a line says. What is told or asked comes into the reading.
pub fn act(
    alloc: Global,
    listener: &mut Listener,
    text: &str,
    reading: &mut Reading,
) -> Result<(), WordFault> {
    let words = words_of(alloc, text.as_bytes())?;
    let mut input = Input::new(alloc, &words);
    do_words(listener, &mut input, reading)
}
