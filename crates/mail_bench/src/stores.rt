//! A journal of many settled actions, with a resynchronisation before each of them, which is made in memory and opened as a
//! store.

ghost use Rattle.std.specs.Prelude.{◌≡◌, ◌≤◌, ◌+◌, ◌*◌, ◌/◌, min, length, IfOk, OnOk, IsErrOf};
ghost use Rattle.journal_core.specs.declared.fault.Place9.{Place9};
ghost use Rattle.store_core.specs.Mail.{mail};
ghost use Rattle.store_core.specs.Broken.{IsBroken};
ghost use Rattle.store_core.specs.declared.fault.StoreFault.TheVariants as faults;
ghost use Rattle.mail_bench.specs.Settled.{HasSettled, left_alone};
ghost use Rattle.mail_bench.specs.Names.{name_of_part};

use mail_base::MAX_ACTIONS;
use std::alloc::{AllocError, Global};
use store_core::{Store, StoreFault};
use world_traits::MemDisk;

/// What is done with the journal.
#[derive(Clone, Copy, Debug, PartialEq, Eq)]
pub enum Part {
    /// Its bytes are made in memory.
    Make,
    /// They are made, and opened as a store.
    Open,
}

impl Part {
    /// The word that names the part.
    pub fn name(&self) -> &'static str
        ensures text { result.now ≡ name_of_part self.now }
    {
        match *self {
            Part::Make => "make",
            Part::Open => "open",
        }
    }
}

// The messages of the mailbox that is resynchronised. Each resynchronisation tells of all of them.
const MESSAGES: u32 = 100;

// The bytes of a resynchronisation's record and of those of one action.
const ROUND: u64 = 2_124;

/// How many actions a journal of so many times 1,000,000 bytes has: at most as many as a book has.
pub fn actions_in(megabytes: u32) -> u32
    ensures { result ≡ min (megabytes * 1000000 / 2124) 1000000 }
{
    let actions = u64::from(megabytes) * 1_000_000 / ROUND;
    actions.min(MAX_ACTIONS as u64) as u32
}

/// The file of a journal with so many actions, each of which was moved and is settled.
pub fn journal(alloc: Global, actions: u32) -> Result<Vec<u8>, AllocError>
    requires { actions ≤ 1000000 }
    ensures { IfOk result (λ file. length file.items ≡ 35 + 2124 * actions) }
{
    let first = learned(alloc, 1)?;
    let later = learned(alloc, 0)?;
    let mut file = Vec::with_capacity(alloc, 35 + ROUND as usize * actions as usize)?;
    file.extend_from_slice(
        b"\x01ODMAILJ2\x00\x00\x00\x01\x01\x00\x00\x00\x10B\x02\x05INBOX\x07Archive",
    )?;
    for before in 0..actions {
        file.extend_from_slice(if before == 0 { &first } else { &later })?;
        push_action(&mut file, before + 1)?;
    }
    file.push(0)?;
    Ok(file)
}

// The record of a resynchronisation of INBOX: the first one tells all.
fn learned(alloc: Global, whole: u8) -> Result<Vec<u8>, AllocError>
    ensures { IfOk result (λ learn. length learn.items ≡ 2037) }
{
    let mut learn = Vec::new(alloc);
    learn.extend_from_slice(b"\x01\x00\x00\x07\xf0L\x05INBOX")?;
    learn.push(whole)?;
    learn.extend_from_slice(
        b"\x00\x00\x00\x05\x00\x00\x00\x00\x00\x00\x02\xcb\x00\x00\x00\x65\x00\x00\x00\x00",
    )?;
    learn.extend_from_slice(&MESSAGES.to_be_bytes())?;
    for before in 0..MESSAGES {
        let uid = before + 1;
        learn.extend_from_slice(&uid.to_be_bytes())?;
        learn.extend_from_slice(b"\x00\x00\x00\x00\x00\x00\x00\x01\x00\x01\x05\\seen")?;
    }
    Ok(learn)
}

// The records of an action that moves a message: it is accepted, intended and done.
fn push_action(file: &mut Vec<u8>, id: u32) -> Result<(), AllocError>
    ensures { OnOk result (length file.new.items ≡ length file.old.items + 87) }
{
    let number = id.to_be_bytes();
    file.extend_from_slice(b"\x01\x00\x00\x00\x1dA")?;
    file.extend_from_slice(&number)?;
    file.extend_from_slice(b"MR\x05INBOX\x00\x00\x00\x05\x00\x00\x00\x2a\x07Archive")?;
    file.extend_from_slice(b"\x01\x00\x00\x00\x1cI")?;
    file.extend_from_slice(&number)?;
    file.extend_from_slice(b"M\x05INBOX\x00\x00\x00\x05\x00\x00\x00\x2a\x07Archive")?;
    file.extend_from_slice(b"\x01\x00\x00\x00\x0fS")?;
    file.extend_from_slice(&number)?;
    file.extend_from_slice(b"D\x01\x00\x00\x00\x09\x00\x00\x00\x07")
}

/// Opens the journal of a file in memory, and counts its settled actions. Its disk fails only for want of memory.
pub fn settled_in(alloc: Global, file: Vec<u8>) -> Result<usize, StoreFault>
    ensures value { IfOk result (HasSettled file.items) }
    ensures broken { (why : Place9) → IsErrOf result (faults.NotAJournal why) → IsBroken mail why (left_alone file.items) }
{
    let mut disk = MemDisk::new(file, Vec::new(alloc));
    let store = Store::open(alloc, &mut disk)?;
    Ok(store.book().queue.settled())
}
