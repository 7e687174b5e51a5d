//! A server that is described, and the worlds that are made of it.

ghost use Rattle.std.specs.Prelude.{◌≡◌, false, IfOk};

use crate::any_world::{AnyWorld, boxed};
use crate::fault::LineFault;
use crate::muted_world::MutedWorld;
use crate::next_run::no_plan;
use crate::setting::{endless_of, files_of, offers_of, permit_of, piece_of};
use crate::stand::Stand;
use cases::{Input, WordFault, account, gone, mailbox, message, name};
use flag_set::FlagSet;
use imap_model::Mailbox;
use mail_base::{Account, BoxName, Bytes, Words};
use server_mem::{MemServer, is_well_formed};
use std::alloc::Global;
use world_mem::{Files, MemWorld, Script, ScriptWorld};

// What a server begins with.
#[derive(Drop)]
struct Described {
    offers: Words,
    boxes: Vec<Mailbox>,
    // What PERMANENTFLAGS tells, and whether with `\*`.
    permitted: Option<(FlagSet, bool)>,
    // The mailbox that no APPEND comes to.
    refused: Option<BoxName>,
}

/// What a server, its files and a script begin with, as far as it is described, and who logs in.
#[derive(Drop)]
pub struct Setup {
    server: Described,
    files: Files,
    script: Vec<Script>,
    account: Account,
}

// The account of a scenario that names none.
fn usual_account(alloc: Global) -> Result<Account, WordFault> {
    match Account::new(alloc, "ann", "pw") {
        Ok(account) => Ok(account),
        Err(_) => Err(WordFault::Memory),
    }
}

// The first mailbox of a name.
fn box_of<'a>(boxes: &'a mut [Mailbox], name: &BoxName) -> Result<&'a mut Mailbox, WordFault> {
    for mailbox in boxes {
        if mailbox.name == *name {
            return Ok(mailbox);
        }
    }
    Err(WordFault::Form)
}

impl Setup {
    /// `WORD ..`: a server with these offers and no mailboxes, and two empty files.
    pub fn new(input: &mut Input<'_>) -> Result<Setup, WordFault> {
        let alloc = input.alloc;
        let account = usual_account(alloc)?;
        let server = Described {
            offers: offers_of(input)?,
            boxes: Vec::new(alloc),
            permitted: None,
            refused: None,
        };
        Ok(Setup {
            server,
            files: Files {
                left: Bytes::new(alloc),
                right: Bytes::new(alloc),
            },
            script: Vec::new(alloc),
            account,
        })
    }

    /// Takes what a line tells.
    pub fn set(&mut self, verb: &str, input: &mut Input<'_>) -> Result<(), WordFault> {
        match verb {
            "mailbox" => self.server.boxes.push(mailbox(input)?)?,
            "message" => self.add_message(input)?,
            "gone" => self.add_gone(input)?,
            "permit" => self.server.permitted = Some(permit_of(input)?),
            "refuse" => self.server.refused = Some(name(input)?),
            "files" => self.files = files_of(input)?,
            "piece" => self.script.push(piece_of(input)?)?,
            "endless" => self.script.push(endless_of(input)?)?,
            "account" => self.account = account(input)?,
            _ => return Err(WordFault::Form),
        }
        Ok(())
    }

    // A message, behind those of its mailbox.
    fn add_message(&mut self, input: &mut Input<'_>) -> Result<(), WordFault> {
        let (name, message) = message(input)?;
        let mailbox = box_of(&mut self.server.boxes, &name)?;
        mailbox.messages.push(message)?;
        Ok(())
    }

    // A UID that is gone, behind those of its mailbox.
    fn add_gone(&mut self, input: &mut Input<'_>) -> Result<(), WordFault> {
        let (name, gone) = gone(input)?;
        let mailbox = box_of(&mut self.server.boxes, &name)?;
        mailbox.gone.push(gone)?;
        Ok(())
    }

    /// The world of the server and the files (`world`), the same where the server is muted
    /// (`muted`), or that of the files and the script (`scripted`), and who logs in.
    pub fn into_stand(self, verb: &str, alloc: Global) -> Result<Stand, LineFault> {
        let Setup {
            server,
            files,
            script,
            account,
        } = self;
        let world = if verb == "scripted" {
            drop(server);
            script_of(alloc, files, script)
        } else {
            drop(script);
            served(verb, alloc, server, files)
        };
        match world {
            Ok(world) => Ok(Stand::new(alloc, world, account)),
            Err(fault) => Err(fault),
        }
    }
}

// The server that is described.
fn server_of(alloc: Global, described: Described) -> Result<MemServer, LineFault>
    ensures sound { IfOk result (λ server. server.failed ≡ false) }
    ensures lawful { IfOk result (λ server. server.muted ≡ false) }
{
    let Described {
        offers,
        boxes,
        permitted,
        refused,
    } = described;
    if !is_well_formed(&boxes) {
        return Err(LineFault::NotWellFormed);
    }
    let mut server = MemServer::new(alloc, boxes, offers)?;
    if let Some((flags, any)) = permitted {
        server.permit(flags, any);
    }
    if let Some(name) = refused {
        server.refuse(name);
    }
    Ok(server)
}

// The world of a server, or of the same one where it is muted.
fn served(
    verb: &str,
    alloc: Global,
    described: Described,
    files: Files,
) -> Result<AnyWorld, LineFault> {
    let server = server_of(alloc, described)?;
    if verb == "muted" {
        let world = boxed(alloc, MutedWorld::new(alloc, server, files))?;
        return Ok(AnyWorld::Muted(world));
    }
    let world = boxed(alloc, MemWorld::new(alloc, server, files, no_plan(alloc)))?;
    Ok(AnyWorld::Served(world))
}

fn script_of(alloc: Global, files: Files, script: Vec<Script>) -> Result<AnyWorld, LineFault> {
    let world = boxed(alloc, ScriptWorld::new(alloc, files, script))?;
    Ok(AnyWorld::Scripted(world))
}
