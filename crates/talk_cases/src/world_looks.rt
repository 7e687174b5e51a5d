//! What a case asks of a world.

use crate::acts::{ask, put_broken};
use crate::plans::no_plan;
use crate::world_calls::{closes, foreign, image, moments, plans};
use cases::{Answer, Input, WordFault, change};
use world_mem::{ImageFault, MemWorld};

// `image 2 1`: both files of an image.
fn put_image(world: &MemWorld, input: &mut Input, answer: &mut Answer) -> Result<(), WordFault> {
    let (moment, pick) = (input.number()?, input.number()?);
    match image(world, moment, pick) {
        Ok(files) => {
            answer.text(files.left.as_slice())?;
            answer.text(files.right.as_slice())
        }
        Err(ImageFault::Memory) => Err(WordFault::Memory),
        Err(ImageFault::NoMoment { .. }) => answer.word("no moment"),
    }
}

// How many moments there are.
fn put_moments(world: &MemWorld, answer: &mut Answer) -> Result<(), WordFault> {
    match moments(world) {
        Some(count) => answer.number(count),
        None => Err(WordFault::Memory),
    }
}

// `change drop INBOX 42`
fn change_by(
    world: &mut MemWorld,
    input: &mut Input,
    answer: &mut Answer,
) -> Result<(), WordFault> {
    let made = change(input)?;
    let done = put_broken(answer, foreign(world, &made.name, &made.change));
    drop(made);
    done
}

/// Adds what is asked by this word and the next ones.
pub fn look(
    world: &mut MemWorld,
    word: &str,
    input: &mut Input,
    answer: &mut Answer,
) -> Result<(), WordFault> {
    match word {
        "quiet" => Ok(()),
        "close" => {
            closes(world);
            Ok(())
        }
        "change" => change_by(world, input, answer),
        "image" => put_image(world, input, answer),
        "moments" => put_moments(world, answer),
        "sent" => answer.text(world.sent()),
        "refused" => answer.number(world.refused()),
        "unplanned" => {
            let alloc = input.alloc;
            plans(world, no_plan(alloc));
            Ok(())
        }
        _ => ask(world.server(), word, input, answer),
    }
}
