//! The server, or the world, that a case begins with.

ghost use Rattle.std.specs.Prelude.{◌≡◌, false, IfOk};

use crate::listener::Listener;
use crate::plans::{add_to_plan, no_plan};
use crate::trial::{at_line, kept};
use crate::world_calls::new_world;
use cases::{Fault, Input, Line, Stop, WordFault, bytes, gone, mailbox, message, name, words_of};
use flag_set::FlagSet;
use imap_model::{Mailbox, Message};
use mail_base::{BoxName, Bytes, ModSeq, Words};
use std::alloc::Global;
use uid_sets::Uid;
use world_mem::{Files, MemWorld, Plan};

/// Whether a line sets a case up before it begins.
pub fn sets_up(text: &str) -> bool {
    let word = match text.split_once(' ') {
        Some((word, _)) => word,
        None => text,
    };
    matches!(
        word,
        "trial"
            | "server"
            | "mailbox"
            | "message"
            | "messages"
            | "gone"
            | "left"
            | "right"
            | "disk"
            | "link"
            | "other"
            | "stop"
    )
}

/// What a case begins with: a server's mailboxes and what it offers, and of a world its two files
/// and what befalls it.
#[derive(Drop)]
pub struct Setup {
    alloc: Global,
    boxes: Vec<Mailbox>,
    offers: Words,
    files: Files,
    /// What befalls the world.
    pub plan: Plan,
}

// A message without flags, whose mod-sequence is its UID.
fn plain_message(alloc: Global, number: u32, text: &[u8]) -> Result<Message, WordFault> {
    let Some(uid) = Uid::new(number) else {
        return Err(WordFault::Form);
    };
    let Some(modseq) = ModSeq::new(u64::from(number)) else {
        return Err(WordFault::Form);
    };
    let text = Bytes::of(text.to_vec(alloc)?);
    Ok(Message {
        uid,
        flags: FlagSet::none(alloc),
        modseq,
        text,
    })
}

// Adds plain messages with the UIDs from 1 on.
fn add_plain(
    alloc: Global,
    mailbox: &mut Mailbox,
    count: u32,
    text: &[u8],
) -> Result<(), WordFault> {
    for number in 0..count {
        let message = plain_message(alloc, number.saturating_add(1), text)?;
        mailbox.messages.push(message)?;
    }
    Ok(())
}

// The mailbox of a name.
fn box_of<'a>(boxes: &'a mut [Mailbox], name: &BoxName) -> Result<&'a mut Mailbox, WordFault> {
    for mailbox in boxes {
        if mailbox.name == *name {
            return Ok(mailbox);
        }
    }
    Err(WordFault::Form)
}

impl Setup {
    fn new(alloc: Global) -> Setup {
        Setup {
            alloc,
            boxes: Vec::new(alloc),
            offers: Words::new(alloc),
            files: Files {
                left: Bytes::new(alloc),
                right: Bytes::new(alloc),
            },
            plan: no_plan(alloc),
        }
    }

    // `server IMAP4rev2 QRESYNC`: another server that offers these names, without mailboxes.
    fn begin(&mut self, input: &mut Input) -> Result<(), WordFault> {
        self.boxes.clear();
        self.offers = Words::new(self.alloc);
        for _ in 0..input.len() {
            self.offers.push(bytes(input)?)?;
        }
        Ok(())
    }

    // `messages INBOX 1200 "a\r\n"`
    fn add_messages(&mut self, input: &mut Input) -> Result<(), WordFault> {
        let (name, count) = (name(input)?, input.short()?);
        let text = input.text()?;
        add_plain(self.alloc, box_of(&mut self.boxes, &name)?, count, text)
    }

    // Adds what all words say.
    fn add(&mut self, input: &mut Input) -> Result<(), WordFault> {
        match input.word()? {
            "trial" => {
                input.word()?;
            }
            "server" => self.begin(input)?,
            "mailbox" => self.boxes.push(mailbox(input)?)?,
            "message" => {
                let (name, message) = message(input)?;
                box_of(&mut self.boxes, &name)?.messages.push(message)?;
            }
            "messages" => self.add_messages(input)?,
            "gone" => {
                let (name, gone) = gone(input)?;
                box_of(&mut self.boxes, &name)?.gone.push(gone)?;
            }
            "left" => self.files.left = bytes(input)?,
            "right" => self.files.right = bytes(input)?,
            word => add_to_plan(&mut self.plan, word, input)?,
        }
        input.end()
    }

    // Adds what a line says, if it is one that sets up.
    fn take(&mut self, text: &str) -> Result<(), Fault> {
        if !sets_up(text) {
            return Ok(());
        }
        let words = words_of(self.alloc, text.as_bytes())?;
        let mut input = Input::new(self.alloc, &words);
        Ok(self.add(&mut input)?)
    }

    // Adds what lines say.
    fn take_all(&mut self, lines: &[Line]) -> Result<(), Stop> {
        for line in lines {
            at_line(line.number, self.take(line.text.as_str()))?;
        }
        Ok(())
    }

    fn take_both(&mut self, head: &[Line], lines: &[Line]) -> Result<(), Stop> {
        self.take_all(head)?;
        self.take_all(lines)
    }

    /// What the lines of a case say behind those of its file.
    pub fn of(alloc: Global, head: &[Line], lines: &[Line]) -> Result<Setup, Stop> {
        let mut setup = Setup::new(alloc);
        let taken = setup.take_both(head, lines);
        kept(setup, taken)
    }

    /// The server. A box keeps its many parts out of sight of the proofs that let it go.
    pub fn into_listener(self) -> Result<Box<Listener>, Fault>
        ensures { IfOk result (λ listener. listener.value.server.muted ≡ false) }
    {
        let listener = Listener::new(self.alloc, self.boxes, self.offers)?;
        Ok(Box::new(self.alloc, listener)?)
    }

    /// The world of the server and the files.
    pub fn into_world(self) -> Result<Box<MemWorld>, Fault> {
        let listener = Listener::new(self.alloc, self.boxes, self.offers)?;
        Ok(new_world(self.alloc, listener.into_server(), self.files, self.plan)?)
    }
}
