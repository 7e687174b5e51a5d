//! A link over which a script comes.

ghost use Rattle.std.specs.Prelude.{◌≡◌, ◌≤◌, ◌<◌, ◌+◌, ◌++◌, ◌↔◌, ◌-◌, ◌^◌, [], ◌∷◌, Some, true, false, min, length, take};
ghost use Rattle.std.specs.Prelude.{OnOk, OnErr, IfOk, IfSome, IsErr};
ghost use Rattle.world_traits.specs.Calls.{Rose};
ghost use Rattle.world_traits.specs.Counts.{counted};
ghost use Rattle.world_mem.specs.Scripted.{at_front, coming_in, connection_of};
ghost use Rattle.world_traits.specs.LinkState.{fresh};

use crate::Script;
use crate::script_rest::rest_at;
use mail_base::Bytes;
use std::alloc::{AllocError, Global};
use std::marker::Model;
use std::mem;
use world_traits::LinkFailed;

/// A script, how many of its bytes were given, and the connection in which the last of them were.
#[derive(Drop)]
pub(crate) struct ScriptLink {
    script: Vec<Script>,
    given: u64,
    // How many had been given as the present or last connection began.
    began: u64,
    on: bool,
    sent: Vec<u8>,
    faults: u64,
    // What was sent before each connection, since the one before it, the first first.
    earlier: Vec<Bytes>,
}

impl Model for ScriptLink {
    ghost use Rattle.std.specs.Prelude.{◌≡◌, ◌≤◌, length, reverse};
    ghost use Rattle.world_mem.specs.Scripts.{next_of};
    ghost use Rattle.world_mem.specs.Scripted.{Scripted};

    ghost Value = { Scripted };

    ghost view = { λ link. record {
      script = link.script.items;
      given = link.given;
      began = link.began;
      on = link.on;
      sent = link.sent.items;
      faults = link.faults;
      earlier = reverse link.earlier.items;
    } };

    ghost invariant = { λ link.
        (length (next_of link.given link.script.items) ≡ link.given) × (link.began ≤ link.given) };
}

impl ScriptLink {
    /// A link over which nothing has come. It takes no memory.
    pub fn new(alloc: Global, script: Vec<Script>) -> ScriptLink
        ensures { result ≡ at_front script.items }
    {
        ScriptLink {
            script,
            given: 0,
            began: 0,
            on: false,
            sent: Vec::new(alloc),
            faults: 0,
            earlier: Vec::new(alloc),
        }
    }

    /// What was sent in the connection, or in the last one where there is none.
    pub fn sent(&self) -> &[u8]
        ensures { result.now ≡ self.now.sent }
    {
        &self.sent
    }

    /// Begins a connection, or leaves all as it was.
    pub fn connect(&mut self) -> Result<(), AllocError>
        ensures done { OnOk result (self.new ≡ record self.old {
          began = self.old.given;
          on = true;
          sent = [];
          earlier = self.old.sent ∷ self.old.earlier;
        }) }
        ensures begins { OnOk result (connection_of self.new ≡ Some fresh) }
        ensures kept { OnErr result (self.new ≡ self.old) }
    {
        self.earlier.reserve(1)?;
        let alloc: Global = *self.sent.allocator();
        let sent = mem::replace(&mut self.sent, Vec::new(alloc));
        self.earlier.push_reserved(Bytes::of(sent));
        self.began = self.given;
        self.on = true;
        Ok(())
    }

    /// Remembers what is sent, or leaves all as it was.
    pub fn send(&mut self, bytes: &[u8]) -> Result<(), AllocError>
        ensures done { OnOk result (self.new ≡ record self.old { sent = self.old.sent ++ bytes.now }) }
        ensures kept { OnErr result (self.new ≡ self.old) }
    {
        self.sent.extend_from_slice(bytes)
    }

    // What comes next.
    fn coming(&self) -> &[u8]
        ensures now { result.now ≡ coming_in self.now }
        ensures within { self.now.given + length result.now ≤ 2 ^ 64 - 1 }
    {
        let rest = rest_at(&self.script, self.given);
        let left = (u64::MAX - self.given) as usize;
        &rest[..rest.len().min(left)]
    }

    /// Gives from the front of what comes next, and answers how many bytes. It fails exactly where
    /// nothing comes.
    pub fn recv(&mut self, into: &mut [u8]) -> Result<usize, LinkFailed>
        requires { 0 < length into.old }
        ensures count_is { IfOk result (λ n. n ≡ min (length (coming_in self.old)) (length into.old)) }
        ensures some { IfOk result (λ n. 0 < n) }
        ensures fits { IfOk result (λ n. n ≤ length into.old) }
        ensures bytes { IfOk result (λ n. take n into.new ≡ take n (coming_in self.old)) }
        ensures done { IfOk result (λ n. self.new ≡ record self.old { given = self.old.given + n }) }
        ensures received { IfOk result (λ n. IfSome (connection_of self.old) (λ c. connection_of self.new
            ≡ Some (record c { received = c.received ++ take n (coming_in self.old) }))) }
        ensures failed { OnErr result
            (self.new ≡ record self.old { on = false; faults = counted self.old.faults }) }
        ensures sent { self.new.sent ≡ self.old.sent }
        ensures exact { IsErr result ↔ (coming_in self.old ≡ []) }
        ensures count { self.old.faults ≤ self.new.faults }
        ensures cause { OnErr result (Rose self.old.faults self.new.faults) }
    {
        let next = self.coming();
        if next.is_empty() {
            return Err(self.fail());
        }
        let count = next.len().min(into.len());
        into[..count].copy_from_slice(&next[..count]);
        self.pass(count);
        Ok(count)
    }

    // Goes so many bytes on.
    fn pass(&mut self, count: usize)
        requires there { count ≤ length (coming_in self.old) }
        requires within { self.old.given + count ≤ 2 ^ 64 - 1 }
        ensures now { self.new ≡ record self.old { given = self.old.given + count } }
        ensures received { IfSome (connection_of self.old) (λ c. connection_of self.new
            ≡ Some (record c { received = c.received ++ take count (coming_in self.old) })) }
    {
        self.given += count as u64;
    }

    /// Ends the connection, where there is one.
    pub fn close(&mut self)
        ensures { self.new ≡ record self.old { on = false } }
    {
        self.on = false;
    }

    /// Counts a fault, and ends the connection.
    pub fn fail(&mut self) -> LinkFailed
        ensures now { self.new ≡ record self.old { on = false; faults = counted self.old.faults } }
        ensures count { self.old.faults ≤ self.new.faults }
        ensures rose { Rose self.old.faults self.new.faults }
    {
        self.on = false;
        self.faults = self.faults.saturating_add(1);
        LinkFailed
    }
}
