//! What is shown of a world.

use crate::any_world::AnyWorld;
use body_cache::KeptText;
use cases::{
    Answer, Input, WordFault, put_change, put_gone, put_hex, put_mailbox, put_message, put_name,
    put_tag, put_uid, put_validity,
};
use imap_model::{Author, Mailbox, Server};
use std::alloc::Global;
use world_mem::{Files, ImageFault};
use world_traits::{DiskFailed, Side};

/// Shows each mailbox with its messages and the UIDs that are gone.
pub fn show_boxes(page: &mut Answer, server: &Server) -> Result<(), WordFault> {
    for mailbox in server.boxes.as_slice() {
        put_mailbox(page, mailbox)?;
        page.end_line()?;
        show_messages(page, mailbox)?;
        show_gone(page, mailbox)?;
    }
    Ok(())
}

fn show_messages(page: &mut Answer, mailbox: &Mailbox) -> Result<(), WordFault> {
    for message in mailbox.messages.as_slice() {
        put_message(page, &mailbox.name, message)?;
        page.end_line()?;
    }
    Ok(())
}

fn show_gone(page: &mut Answer, mailbox: &Mailbox) -> Result<(), WordFault> {
    for gone in mailbox.gone.as_slice() {
        put_gone(page, &mailbox.name, gone)?;
        page.end_line()?;
    }
    Ok(())
}

/// Shows each change that was made, with its author.
pub fn show_history(page: &mut Answer, server: &Server) -> Result<(), WordFault> {
    for deed in server.history.as_slice() {
        match deed.author {
            Author::Other => page.word("other")?,
            Author::Ours(tag) => put_tag(page, tag)?,
        }
        put_change(page, &deed.name, &deed.change)?;
        page.end_line()?;
    }
    Ok(())
}

/// Shows what was sent, cut behind each CRLF.
pub fn show_sent(alloc: Global, page: &mut Answer, sent: &[u8]) -> Result<(), WordFault> {
    let mut line = Vec::new(alloc);
    for byte in sent {
        line.push(*byte)?;
        if let [front @ .., b'\r', b'\n'] = line.as_slice() {
            show_line(page, "C:", front)?;
            line.clear();
        }
    }
    if line.is_empty() {
        return Ok(());
    }
    show_line(page, "c:", &line)
}

fn show_line(page: &mut Answer, mark: &str, text: &[u8]) -> Result<(), WordFault> {
    page.word(mark)?;
    page.text(text)?;
    page.end_line()
}

/// Shows both files as reads give them.
pub fn show_files(alloc: Global, page: &mut Answer, world: &mut AnyWorld) -> Result<(), WordFault> {
    let left = whole_file(alloc, world, Side::Left)?;
    let right = whole_file(alloc, world, Side::Right)?;
    put_files(alloc, page, &left, &right)
}

/// Shows each kept text with its key, the one that was put last in front.
pub fn show_texts(page: &mut Answer, texts: &[KeptText]) -> Result<(), WordFault> {
    for (place, kept) in texts.iter().enumerate() {
        if !is_replaced(texts, place, kept) {
            show_text(page, kept)?;
        }
    }
    Ok(())
}

// Whether another text of its key stands in front of this place.
fn is_replaced(texts: &[KeptText], place: usize, kept: &KeptText) -> bool {
    for other in texts.get(..place).unwrap_or(&[]) {
        if other.key.is_same(&kept.key) {
            return true;
        }
    }
    false
}

fn show_text(page: &mut Answer, kept: &KeptText) -> Result<(), WordFault> {
    page.word("text")?;
    put_name(page, &kept.key.name)?;
    put_validity(page, kept.key.validity)?;
    put_uid(page, kept.key.uid)?;
    page.text(kept.text.as_slice())?;
    page.end_line()
}

// What a file reads as. Between runs there is no plan, and no call fails but for want of memory.
fn whole_file(alloc: Global, world: &mut AnyWorld, side: Side) -> Result<Vec<u8>, WordFault> {
    let Ok(length) = world.length(side) else {
        return Err(WordFault::Memory);
    };
    let Ok(length) = usize::try_from(length) else {
        return Err(WordFault::Memory);
    };
    let mut bytes = vec![in alloc; 0; length]?;
    match world.read(side, 0, &mut bytes) {
        Ok(count) => {
            bytes.truncate(count);
            Ok(bytes)
        }
        Err(DiskFailed) => Err(WordFault::Memory),
    }
}

fn put_files(alloc: Global, page: &mut Answer, left: &[u8], right: &[u8]) -> Result<(), WordFault> {
    put_file(alloc, page, "left ", left)?;
    put_file(alloc, page, "right ", right)
}

// A line of a word, and of bytes in hexadecimal, or `-` where there are none.
fn put_file(alloc: Global, page: &mut Answer, word: &str, bytes: &[u8]) -> Result<(), WordFault> {
    let mut digits = Vec::new(alloc);
    put_hex(&mut digits, bytes)?;
    page.word(word)?;
    page.raw(&digits)?;
    page.end_line()
}

/// `M PICK`: shows an image of a moment, or how many moments there are where it isn't one.
pub fn show_image(
    input: &mut Input<'_>,
    page: &mut Answer,
    world: &AnyWorld,
) -> Result<(), WordFault> {
    match image_of(world, input.number()?, input.number()?)? {
        Pictured::Image(files) => {
            let (left, right) = (files.left.as_slice(), files.right.as_slice());
            put_files(input.alloc, page, left, right)
        }
        Pictured::NoMoment(moments) => {
            page.word("no moment")?;
            show_number(page, moments)
        }
    }
}

/// Shows how many moments there are, as is told of one that isn't there.
pub fn show_moments(page: &mut Answer, world: &AnyWorld) -> Result<(), WordFault> {
    match image_of(world, u64::MAX, 0)? {
        Pictured::NoMoment(moments) => show_number(page, moments),
        Pictured::Image(_) => Err(WordFault::Memory),
    }
}

fn show_number(page: &mut Answer, number: u64) -> Result<(), WordFault> {
    page.number(number)?;
    page.end_line()
}

// An image, or how many moments there are.
#[derive(Drop)]
enum Pictured {
    Image(Files),
    NoMoment(u64),
}

fn image_of(world: &AnyWorld, moment: u64, pick: u64) -> Result<Pictured, WordFault> {
    match world.image(moment, pick) {
        None => Err(WordFault::Form),
        Some(Ok(files)) => Ok(Pictured::Image(files)),
        Some(Err(ImageFault::NoMoment { moments })) => Ok(Pictured::NoMoment(moments)),
        Some(Err(ImageFault::Memory)) => Err(WordFault::Memory),
    }
}
