//! The connection to a server that leaves APPENDUID out, as no lawful one does (RFC 4315, section 3).

ghost use Rattle.std.specs.Prelude.{◌≡◌, ◌<◌, ◌≤◌, ◌++◌, [], ◌∷◌, Some, None, false};
ghost use Rattle.std.specs.Prelude.{min, length, take, OnOk, OnErr, IfOk, IfSome};
ghost use Rattle.world_mem.specs.Memory.{SentSome};
ghost use Rattle.world_traits.specs.Calls.{Rose};
ghost use Rattle.world_traits.specs.Counts.{counted};
ghost use Rattle.world_traits.specs.LinkState.{fresh, unused};

use imap_model::{Change, Server};
use mail_base::{BoxName, Bytes};
use server_mem::{ForeignFault, MemServer};
use std::alloc::{AllocError, Global};
use std::marker::Model;
use std::mem;
use world_traits::LinkFailed;

/// A muted server and the connection to it, which contracts see as the state of a link. The server
/// is muted at every moment.
#[derive(Drop)]
pub struct MutedLink {
    server: MemServer,
    // What the server told in the present or last connection, and how much of it was received.
    told: Vec<u8>,
    received: usize,
    is_on: bool,
    sent: Vec<u8>,
    // What was sent before each connection, since the one before it, the first first.
    earlier: Vec<Bytes>,
    faults: u64,
    refused: u64,
}

impl Model for MutedLink {
    ghost use Rattle.std.specs.Prelude.{◌≡◌, ◌≤◌, length, reverse, true, false};
    ghost use Rattle.world_mem.specs.Standing.{connection_in};
    ghost use Rattle.world_traits.specs.LinkState.{LinkState};

    ghost Value = { LinkState };

    ghost view = { λ link. record {
      faults = link.faults;
      connection = connection_in link.is_on link.told.items link.received;
      sent = link.sent.items;
      earlier = reverse link.earlier.items;
    } };

    ghost invariant = { λ link. (link.server.muted ≡ true) × (link.server.failed ≡ false)
        × (link.received ≤ length link.told.items) };
}

impl MutedLink {
    /// A link to this server, which is muted from now on. It was never used. It takes no memory.
    pub fn new(alloc: Global, server: MemServer) -> MutedLink
        requires { server.failed ≡ false }
        ensures { result ≡ unused }
    {
        let mut server = server;
        server.mute();
        MutedLink {
            server,
            told: Vec::new(alloc),
            received: 0,
            is_on: false,
            sent: Vec::new(alloc),
            earlier: Vec::new(alloc),
            faults: 0,
            refused: 0,
        }
    }

    /// Makes a connection. It fails exactly where it is refused room.
    pub fn connect(&mut self) -> Result<(), LinkFailed>
        ensures done { OnOk result (self.new ≡ record self.old {
          connection = Some fresh;
          sent = [];
          earlier = self.old.sent ∷ self.old.earlier;
        }) }
        ensures failed { OnErr result
            (self.new ≡ record self.old { faults = counted self.old.faults; connection = None }) }
        ensures count { self.old.faults ≤ self.new.faults }
        ensures cause { OnErr result (Rose self.old.faults self.new.faults) }
    {
        if self.begin().is_err() {
            return Err(self.refuse());
        }
        Ok(())
    }

    // Begins a connection, or leaves all as it was.
    fn begin(&mut self) -> Result<(), AllocError>
        ensures done { OnOk result (self.new ≡ record self.old {
          connection = Some fresh;
          sent = [];
          earlier = self.old.sent ∷ self.old.earlier;
        }) }
        ensures kept { OnErr result (self.new ≡ self.old) }
    {
        self.earlier.reserve(1)?;
        let greeting = self.server.greet()?;
        let alloc: Global = *self.sent.allocator();
        let sent = mem::replace(&mut self.sent, Vec::new(alloc));
        self.earlier.push_reserved(Bytes::of(sent));
        self.told = greeting;
        self.received = 0;
        self.is_on = true;
        Ok(())
    }

    /// Sends bytes. It fails where there is no connection or it is refused room.
    pub fn send(&mut self, bytes: &[u8]) -> Result<(), LinkFailed>
        ensures done { OnOk result
            (self.new ≡ record self.old { sent = self.old.sent ++ bytes.now }) }
        ensures front { OnErr result (SentSome bytes.now self.old.sent self.new.sent) }
        ensures failed { OnErr result (self.new ≡ record self.old {
          faults = counted self.old.faults;
          connection = None;
          sent = self.new.sent;
        }) }
        ensures count { self.old.faults ≤ self.new.faults }
        ensures cause { OnErr result (Rose self.old.faults self.new.faults) }
    {
        if !self.is_on {
            return Err(self.fail());
        }
        if self.hand_over(bytes).is_err() {
            return Err(self.refuse());
        }
        Ok(())
    }

    // Keeps what is sent, and what the server tells. For want of memory some of it isn't heard.
    fn hand_over(&mut self, bytes: &[u8]) -> Result<(), AllocError>
        ensures done { OnOk result
            (self.new ≡ record self.old { sent = self.old.sent ++ bytes.now }) }
        ensures front { OnErr result (SentSome bytes.now self.old.sent self.new.sent) }
        ensures kept { OnErr result (self.new ≡ record self.old { sent = self.new.sent }) }
    {
        self.sent.extend_from_slice(bytes)?;
        match self.server.hear(bytes) {
            Ok(lines) => {
                self.told.extend_from_slice(&lines)?;
                Ok(())
            }
            Err(fault) => {
                self.server.lose();
                Err(fault)
            }
        }
    }

    /// Receives into the buffer's front. It fails where there is no connection or nothing comes.
    pub fn recv(&mut self, into: &mut [u8]) -> Result<usize, LinkFailed>
        requires { 0 < length into.old }
        ensures some { IfOk result (λ n. 0 < n) }
        ensures fits { IfOk result (λ n. n ≤ length into.old) }
        ensures received { IfOk result (λ n. IfSome self.old.connection (λ c.
            self.new.connection ≡ Some (record c { received = c.received ++ take n into.new }))) }
        ensures done { OnOk result
            (self.new ≡ record self.old { connection = self.new.connection }) }
        ensures failed { OnErr result
            (self.new ≡ record self.old { faults = counted self.old.faults; connection = None }) }
        ensures count { self.old.faults ≤ self.new.faults }
        ensures cause { OnErr result (Rose self.old.faults self.new.faults) }
    {
        if !self.is_on {
            return Err(self.fail());
        }
        let count = give(&self.told[self.received..], into);
        if count == 0 {
            return Err(self.fail());
        }
        self.received += count;
        Ok(count)
    }

    /// Ends the connection, where there is one.
    pub fn close(&mut self)
        ensures { self.new ≡ record self.old { connection = None } }
    {
        self.server.lose();
        self.is_on = false;
    }

    // A growth was refused, which is a fault.
    fn refuse(&mut self) -> LinkFailed
        ensures now { self.new
            ≡ record self.old { faults = counted self.old.faults; connection = None } }
        ensures count { self.old.faults ≤ self.new.faults }
        ensures rose { Rose self.old.faults self.new.faults }
    {
        self.refused = self.refused.saturating_add(1);
        self.fail()
    }

    // Counts a fault, and ends the connection.
    fn fail(&mut self) -> LinkFailed
        ensures now { self.new
            ≡ record self.old { faults = counted self.old.faults; connection = None } }
        ensures count { self.old.faults ≤ self.new.faults }
        ensures rose { Rose self.old.faults self.new.faults }
    {
        self.close();
        self.faults = self.faults.saturating_add(1);
        LinkFailed
    }

    /// How often it was refused room.
    pub fn refused(&self) -> u64 {
        self.refused
    }

    /// The bytes sent in the present connection, or in the last one where there is none.
    pub fn sent(&self) -> &[u8]
        ensures { result.now ≡ self.now.sent }
    {
        &self.sent
    }

    /// The server.
    pub fn server(&self) -> &Server {
        self.server.server()
    }

    /// Another client changes the server.
    pub fn foreign(&mut self, name: &BoxName, change: &Change) -> Result<(), ForeignFault>
        ensures { self.new ≡ self.old }
    {
        self.server.foreign(name, change)
    }
}

// Copies the front of what comes to the buffer's front, as many bytes as there are and fit.
fn give(coming: &[u8], into: &mut [u8]) -> usize
    ensures count { result ≡ min (length coming.now) (length into.old) }
    ensures bytes { take result into.new ≡ take result coming.now }
{
    let count = coming.len().min(into.len());
    into[..count].copy_from_slice(&coming[..count]);
    count
}
