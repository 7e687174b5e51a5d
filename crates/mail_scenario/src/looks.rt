//! What happens in a world between runs, and what is shown of it.

use crate::any_world::AnyWorld;
use crate::shows::{
    show_boxes, show_files, show_history, show_image, show_moments, show_sent, show_texts,
};
use crate::stand::Stand;
use cases::{Answer, Foreign, Input, WordFault, change};
use imap_model::Server;

/// Does, or shows, what a line says.
pub fn look(
    stand: &mut Stand,
    verb: &str,
    input: &mut Input<'_>,
    page: &mut Answer,
) -> Result<(), WordFault> {
    let world = stand.world.world_mut();
    match verb {
        "change" => make(world, &change(input)?, page),
        "show" => show_boxes(page, server_of(world)?),
        "history" => show_history(page, server_of(world)?),
        "sent" => show_sent(input.alloc, page, world.sent()),
        "files" => show_files(input.alloc, page, world),
        "image" => show_image(input, page, world),
        "moments" => show_moments(page, world),
        "shelf" => show_texts(page, stand.shelf.texts()),
        _ => Err(WordFault::Form),
    }
}

fn server_of(world: &AnyWorld) -> Result<&Server, WordFault> {
    world.server().ok_or(WordFault::Form)
}

// Another client changes the server, and the rule that it would break is told.
fn make(world: &mut AnyWorld, foreign: &Foreign, page: &mut Answer) -> Result<(), WordFault> {
    let Some(rule) = world.change(foreign)? else {
        return Ok(());
    };
    page.word("rule")?;
    page.number(u64::from(rule))?;
    page.end_line()
}
