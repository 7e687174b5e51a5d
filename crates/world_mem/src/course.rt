//! What a world in memory holds now, and what happened in it.

ghost use Rattle.std.specs.Prelude.{◌≡◌, ◌≤◌, ◌+◌, ◌^◌, length};
ghost use Rattle.world_mem.specs.Image.{bytes_of};
ghost use Rattle.world_mem.specs.Running.{run, start};
ghost use Rattle.world_mem.specs.Standing.{Stands, is_on, phase_of, WholeIn};

use crate::torn_files::TornFiles;
use crate::{Did, Files, Held};
use imap_model::{Change, Server};
use mail_base::{BoxName, Bytes, List};
use server_mem::{Answer, Answered, ForeignFault, MemServer};
use std::alloc::{AllocError, Global};
use std::mem;
use std::snapshot::Snapshot;
use world_traits::Side;

/// How the client's connection stands.
#[derive(Clone, Copy, Debug, PartialEq, Eq)]
pub(crate) enum Phase {
    /// There is none.
    Off,
    /// There is one.
    On,
    /// Bytes are arriving in one. A call that ends so, for want of memory, has lost it.
    Hearing,
    /// There is none: it was lost as the last part of a command had arrived, and the command waits.
    Waiting,
}

// How it stands as a world begins.
fn phase_of(held: &Option<Held>) -> Phase
    ensures { result ≡ phase_of held.now }
{
    match held {
        Some(_) => Phase::Waiting,
        None => Phase::Off,
    }
}

impl Phase {
    /// Whether there is a connection.
    pub fn is_on(self) -> bool
        ensures { result ≡ is_on self }
    {
        match self {
            Phase::On => true,
            Phase::Off | Phase::Hearing | Phase::Waiting => false,
        }
    }
}

/// The files, the server and the connection as they are now, and what happened since the first moment.
#[derive(Drop)]
pub(crate) struct Course {
    pub(crate) alloc: Global,
    // The files at the first moment.
    pub(crate) given: Files,
    // The server and the connection then.
    began: Snapshot<MemServer>,
    began_held: Snapshot<Option<Held>>,
    pub(crate) files: TornFiles,
    pub(crate) server: MemServer,
    pub(crate) phase: Phase,
    // The command that waits, where the phase is `Waiting`.
    pub(crate) held: Option<Held>,
    // The whole parts of the text that is arriving, and how many bytes have come behind them.
    pub(crate) parts: List<Bytes>,
    pub(crate) unfinished: usize,
    // What was sent in the present or last connection, and the lines that were told in it, of which so many bytes were received.
    pub(crate) sent: Vec<u8>,
    pub(crate) lines: Vec<u8>,
    pub(crate) received: usize,
    // What was sent before each connection, since the one before it, the first first.
    pub(crate) earlier: Vec<Bytes>,
    pub(crate) log: Vec<Did>,
    ghost stands: { Stands files server phase held parts unfinished lines.items received
        (run log.items (start (bytes_of given) began.value began_held.value)) },
}

impl Course {
    ghost use Rattle.std.specs.Prelude.{OnOk, OnErr};
    ghost use Rattle.std.specs.Prelude.{Some, None, [], ◌∷◌, ℕ, take, drop, min, IfOk, IsTrue, true, false, is_some, ◌&&◌, nat_lt, ◌↔◌, IsErrOf};
    ghost use Rattle.imap_model.specs.Lawful.{broken_rule};
    ghost use Rattle.imap_model.specs.Talking.{Answering, Connecting};
    ghost use Rattle.imap_model.specs.WellFormed.{IsWellFormed};
    ghost use Rattle.server_mem.specs.States.{disconnected, is_named};
    ghost use Rattle.world_traits.specs.Files.{file_of};
    ghost use Rattle.world_traits.specs.Connected.{IsGreeted};
    ghost use Rattle.world_traits.specs.Links.{Linked};
    ghost use Rattle.world_mem.specs.Others.{OthersChange, alone, renews};
    ghost use Rattle.world_mem.specs.Memory.{run_of, line_of, sent_of, earlier_of, unmade, waits_in};
    ghost use Rattle.world_mem.specs.Restarting.{goes_on_from, no_line};
    ghost use Rattle.world_mem.specs.Running.{step, run, start};
    ghost use Rattle.world_mem.specs.Standing.{is_on, phase_of, in_use, lost_phase, rested_phase};
    ghost use Rattle.world_mem.specs.declared.course.Phase.TheVariants as phases;
    ghost use Rattle.world_mem.specs.declared.did.Did.TheVariants as did;

    /// A world of these files and this server, in which nothing has happened.
    pub fn new(alloc: Global, server: MemServer, files: Files) -> Result<Course, AllocError>
        requires { server.muted ≡ false }
        ensures run { IfOk result (λ course. run_of course ≡ start (bytes_of files) (disconnected server) None) }
        ensures line { IfOk result (λ course. line_of course ≡ unmade phases.Off) }
    {
        let mut server = server;
        server.lose();
        Course::begun(alloc, server, files, None)
    }

    // The same, where a command may wait.
    fn begun(
        alloc: Global,
        server: MemServer,
        files: Files,
        held: Option<Held>,
    ) -> Result<Course, AllocError>
        requires whole { server.begun ≡ [] }
        requires sound { server.failed ≡ false }
        requires ends { ∥ WholeIn (phase_of held) held server.parts ∥₁ }
        requires lawful { server.muted ≡ false }
        ensures run { IfOk result (λ course. run_of course ≡ start (bytes_of files) server held) }
        ensures line { IfOk result (λ course. line_of course ≡ unmade (phase_of held)) }
    {
        Ok(Course {
            alloc,
            given: files.copy()?,
            began: Snapshot::of(&server),
            began_held: Snapshot::of(&held),
            files: TornFiles::new(alloc, files),
            server,
            phase: phase_of(&held),
            held,
            parts: List::new(alloc),
            unfinished: 0,
            sent: Vec::new(alloc),
            lines: Vec::new(alloc),
            received: 0,
            earlier: Vec::new(alloc),
            log: Vec::new(alloc),
        })
    }

    /// Goes on from these files, with the connection lost. What waits waits on.
    pub fn restarted(self, files: Files) -> Result<Course, AllocError>
        ensures run { IfOk result (λ course. run_of course ≡ goes_on_from (bytes_of files) (run_of self)) }
        ensures line { IfOk result (λ course. line_of course ≡ no_line (run_of self).held) }
    {
        let mut server = self.server;
        if self.phase == Phase::Waiting {
            return Course::begun(self.alloc, server, files, self.held);
        }
        server.lose();
        Course::begun(self.alloc, server, files, None)
    }

    /// The server.
    pub fn server(&self) -> &MemServer
        ensures value { result.now ≡ self.now.server }
        ensures server { result.now.server ≡ (run_of self.now).state.server }
    {
        &self.server
    }

    /// The bytes sent in the connection, or in the last one where there is none.
    pub fn sent(&self) -> &[u8]
        ensures { result.now ≡ (line_of self.now).sent }
    {
        &self.sent
    }

    /// What a file reads as.
    pub fn bytes(&self, side: Side) -> &[u8]
        ensures { result.now ≡ file_of side (run_of self.now).seen }
    {
        match side {
            Side::Left => self.files.left.bytes(),
            Side::Right => self.files.right.bytes(),
        }
    }

    /// Whether there is a connection.
    pub fn is_connected(&self) -> bool
        ensures { result ≡ is_on self.now.phase }
    {
        self.phase.is_on()
    }

    /// Whether the server's bytes wait to be received.
    pub fn has_more(&self) -> bool
        ensures { result ≡ is_on self.now.phase && nat_lt self.now.received (length self.now.lines.items) }
    {
        self.is_connected() && self.received < self.lines.len()
    }

    /// Writes bytes at a place of a file, or leaves all as it was.
    pub fn write(&mut self, side: Side, at: u64, bytes: &[u8]) -> Result<(), AllocError>
        requires { at + length bytes.now ≤ 2 ^ 32 }
        ensures done { OnOk result ((own : _) × (own.items ≡ bytes.now)
            × (run_of self.new ≡ step (did.Wrote side at own) (run_of self.old))) }
        ensures line { line_of self.new ≡ line_of self.old }
        ensures failed { OnErr result (run_of self.new ≡ run_of self.old) }
    {
        let own = bytes.to_vec(self.alloc)?;
        self.log.reserve(1)?;
        self.files.write(side, at as usize, bytes)?;
        self.log.push_reserved(Did::Wrote {
            side,
            at,
            bytes: own,
        });
        Ok(())
    }

    /// Syncs a file, or leaves all as it was.
    pub fn sync(&mut self, side: Side) -> Result<(), AllocError>
        ensures done { OnOk result (run_of self.new ≡ step (did.Synced side) (run_of self.old)) }
        ensures line { line_of self.new ≡ line_of self.old }
        ensures failed { OnErr result (run_of self.new ≡ run_of self.old) }
    {
        self.log.reserve(1)?;
        self.files.sync(side);
        self.log.push_reserved(Did::Synced { side });
        Ok(())
    }

    /// Makes a change by another client, or leaves all as it was.
    pub fn change(&mut self, name: &BoxName, change: &Change) -> Result<(), ForeignFault>
        ensures done { OnOk result (run_of self.new ≡ step (did.Changed name.now change.now) (run_of self.old)) }
        ensures told { OthersChange (run_of self.old) (run_of self.new) }
        ensures lawful { OnOk result (broken_rule (run_of self.old).state.server.boxes name.now change.now ≡ None) }
        ensures rule { (number : ℕ) → IsErrOf result (ForeignFault.NotLawful number)
            → broken_rule (run_of self.old).state.server.boxes name.now change.now ≡ Some number }
        ensures server { self.new.server ≡ record self.old.server { server = (run_of self.new).state.server } }
        ensures line { line_of self.new ≡ line_of self.old }
        ensures failed { OnErr result (run_of self.new ≡ run_of self.old) }
    {
        let own = change.copy()?;
        self.log.reserve(1)?;
        self.server.foreign(name, change)?;
        self.log.push_reserved(Did::Changed {
            name: name.copy(),
            change: own,
        });
        Ok(())
    }

    // Whether this mailbox is in use.
    fn uses(&self, name: &BoxName) -> bool
        ensures { result ≡ is_named name.now (in_use self.now.phase (run_of self.now).state) }
    {
        match self.phase {
            Phase::On | Phase::Waiting => self.server.is_selected(name),
            Phase::Off | Phase::Hearing => false,
        }
    }

    /// Whether the mailbox that is in use would be renewed by the change.
    pub fn renews(&self, name: &BoxName, change: &Change) -> bool
        ensures { result ≡ renews (in_use self.now.phase (run_of self.now).state) name.now change.now }
    {
        match change {
            Change::Reset { .. } => self.uses(name),
            Change::Add { .. }
            | Change::SetFlags { .. }
            | Change::Drop { .. }
            | Change::Shift { .. } => false,
        }
    }

    // Makes a change by another client where there is no connection, or leaves all as it was. First it is told that the last
    // connection is at its end.
    fn change_between(&mut self, name: &BoxName, change: &Change) -> Result<(), ForeignFault>
        requires { lost_phase self.old.phase ≡ self.old.phase }
        ensures done { OnOk result (run_of self.new ≡ step (did.Changed name.now change.now) (step did.Ended (run_of self.old))) }
        ensures told { Linked Connecting (run_of self.old).clock (run_of self.new).clock }
        ensures lawful { OnOk result (broken_rule (run_of self.old).state.server.boxes name.now change.now ≡ None) }
        ensures rule { (number : ℕ) → IsErrOf result (ForeignFault.NotLawful number)
            → broken_rule (run_of self.old).state.server.boxes name.now change.now ≡ Some number }
        ensures line { line_of self.new ≡ line_of self.old }
        ensures failed { OnErr result (run_of self.new ≡ run_of self.old) }
    {
        let own = change.copy()?;
        self.log.reserve(2)?;
        self.server.foreign(name, change)?;
        self.log.push_reserved(Did::Ended);
        self.log.push_reserved(Did::Changed {
            name: name.copy(),
            change: own,
        });
        Ok(())
    }

    // A connection that was lost in a call in whose midst memory was wanting is no more.
    fn let_go(&mut self)
        ensures run { run_of self.new ≡ run_of self.old }
        ensures phase { self.new.phase ≡ rested_phase self.old.phase }
        ensures line { line_of self.new ≡ record (line_of self.old) { phase = rested_phase self.old.phase } }
    {
        if self.phase == Phase::Hearing {
            self.phase = Phase::Off;
        }
    }

    /// Makes a change by another client at a moment of its own, or leaves all as it was. Where there is no connection, it is
    /// told first that the last one is at its end. A change that would renew the mailbox that is in use is passed over.
    pub fn change_alone(&mut self, name: &BoxName, change: &Change) -> Result<(), ForeignFault>
        ensures done { OnOk result (run_of self.new ≡ alone (is_on self.old.phase)
            (in_use self.old.phase (run_of self.old).state) name.now change.now (run_of self.old)) }
        ensures told { Linked Connecting (run_of self.old).clock (run_of self.new).clock }
        ensures others { is_on self.old.phase ≡ true → OthersChange (run_of self.old) (run_of self.new) }
        ensures lawful { OnOk result (renews (in_use self.old.phase (run_of self.old).state) name.now change.now ≡ false
            → broken_rule (run_of self.old).state.server.boxes name.now change.now ≡ None) }
        ensures rule { (number : ℕ) → IsErrOf result (ForeignFault.NotLawful number)
            → broken_rule (run_of self.old).state.server.boxes name.now change.now ≡ Some number }
        ensures line { line_of self.new ≡ record (line_of self.old) { phase = rested_phase self.old.phase } }
        ensures failed { OnErr result (run_of self.new ≡ run_of self.old) }
    {
        self.let_go();
        if self.renews(name, change) {
            return Ok(());
        }
        if self.is_connected() {
            return self.change(name, change);
        }
        self.change_between(name, change)
    }

    /// Tells that the last connection is at its end, or leaves all as it was. What waits stays.
    pub fn end(&mut self) -> Result<(), AllocError>
        requires { lost_phase self.old.phase ≡ self.old.phase }
        ensures done { OnOk result (run_of self.new ≡ step did.Ended (run_of self.old)) }
        ensures told { Linked Connecting (run_of self.old).clock (run_of self.new).clock }
        ensures line { line_of self.new ≡ line_of self.old }
        ensures failed { OnErr result (run_of self.new ≡ run_of self.old) }
    {
        self.log.reserve(1)?;
        self.log.push_reserved(Did::Ended);
        Ok(())
    }

    /// Begins a connection, or leaves all as it was.
    pub fn greet(&mut self) -> Result<(), AllocError>
        ensures done { OnOk result (run_of self.new ≡ step did.Greeted (run_of self.old)) }
        ensures told { OnOk result (Linked Connecting (run_of self.old).clock (run_of self.new).clock) }
        ensures greets { OnOk result (IsGreeted (run_of self.new).clock.now.outside) }
        ensures begins { OnOk result (self.new.phase ≡ phases.On) }
        ensures sent { OnOk result (self.new.sent.items ≡ []) }
        ensures earlier { OnOk result (earlier_of self.new ≡ sent_of self.old ∷ earlier_of self.old) }
        ensures received { OnOk result (self.new.received ≡ 0) }
        ensures failed { OnErr result (run_of self.new ≡ run_of self.old) }
        ensures line { OnErr result (line_of self.new ≡ line_of self.old) }
    {
        self.log.reserve(1)?;
        self.earlier.reserve(1)?;
        let lines = self.server.greet()?;
        self.phase = Phase::On;
        self.parts = List::new(self.alloc);
        self.unfinished = 0;
        let sent = mem::replace(&mut self.sent, Vec::new(self.alloc));
        self.lines = lines;
        self.received = 0;
        self.log.push_reserved(Did::Greeted);
        self.earlier.push_reserved(Bytes::of(sent));
        Ok(())
    }

    /// Ends the connection. What waits stays.
    pub fn lose(&mut self)
        ensures run { run_of self.new ≡ run_of self.old }
        ensures lost { is_on self.new.phase ≡ false }
        ensures phase { self.new.phase ≡ lost_phase self.old.phase }
        ensures sent { sent_of self.new ≡ sent_of self.old }
        ensures earlier { earlier_of self.new ≡ earlier_of self.old }
    {
        if self.phase != Phase::Waiting {
            self.phase = Phase::Off;
        }
    }

    /// Puts bytes into the buffer's front, as many as wait and fit.
    pub fn give(&mut self, into: &mut [u8]) -> usize
        ensures run { run_of self.new ≡ run_of self.old }
        ensures count { result ≡ min (length (drop self.old.received self.old.lines.items)) (length into.old) }
        ensures bytes { take result into.new ≡ take result (drop self.old.received self.old.lines.items) }
        ensures line { line_of self.new ≡ record (line_of self.old) { received = self.old.received + result } }
    {
        let rest = &self.lines[self.received..];
        let count = rest.len().min(into.len());
        into[..count].copy_from_slice(&rest[..count]);
        self.received += count;
        count
    }
}
