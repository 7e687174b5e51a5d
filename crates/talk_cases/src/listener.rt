//! A server in memory that can hear.

ghost use Rattle.std.specs.Prelude.{◌≡◌, false, IfOk};

use cases::WordFault;
use flag_set::FlagSet;
use imap_model::{Change, Mailbox};
use mail_base::{BoxName, Words};
use server_mem::{ForeignFault, MemServer, is_well_formed};
use std::alloc::{AllocError, Global};

/// A server in memory that can hear.
#[derive(Drop)]
pub struct Listener {
    server: MemServer,
    ghost ready: { server.failed ≡ false },
}

impl Listener {
    /// A server of these mailboxes, which have to be well formed, that offers these names.
    pub fn new(alloc: Global, boxes: Vec<Mailbox>, offers: Words) -> Result<Listener, WordFault>
        ensures { IfOk result (λ listener. listener.server.muted ≡ false) }
    {
        if !is_well_formed(&boxes) {
            return Err(WordFault::Form);
        }
        let server = MemServer::new(alloc, boxes, offers)?;
        Ok(Listener { server })
    }

    /// The server.
    pub fn server(&self) -> &MemServer {
        &self.server
    }

    /// The server, given up.
    pub fn into_server(self) -> MemServer
        ensures { result ≡ self.server }
    {
        self.server
    }

    /// What it tells when it hears these bytes.
    pub fn hear(&mut self, bytes: &[u8]) -> Result<Vec<u8>, AllocError> {
        match self.server.hear(bytes) {
            Ok(lines) => Ok(lines),
            Err(fault) => {
                self.server.lose();
                Err(fault)
            }
        }
    }

    /// Its greeting.
    pub fn greet(&mut self) -> Result<Vec<u8>, AllocError> {
        self.server.greet()
    }

    /// The connection is lost.
    pub fn lose(&mut self) {
        self.server.lose();
    }

    /// A change by another client.
    pub fn foreign(&mut self, name: &BoxName, change: &Change) -> Result<(), ForeignFault> {
        self.server.foreign(name, change)
    }

    /// Sets what PERMANENTFLAGS tells.
    pub fn permit(&mut self, flags: FlagSet, any: bool) {
        self.server.permit(flags, any);
    }

    /// Makes each later APPEND to this mailbox be refused.
    pub fn refuse(&mut self, name: BoxName) {
        self.server.refuse(name);
    }
}
