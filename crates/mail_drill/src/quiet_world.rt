//! The world that a drill works on: one in which nobody else changes anything.

ghost use Rattle.std.specs.Prelude.{◌≡◌, ◌≤◌, ◌<◌, ◌+◌, ◌-◌, ◌^◌, ◌||◌, [], true, false, length, min, take, drop, slice_get};
ghost use Rattle.std.specs.Prelude.{IfOk, IfErr, OnOk, OnErr, Some};
ghost use Rattle.world_traits.specs.Calls.{Rose, Synced, Wrote};
ghost use Rattle.world_traits.specs.Files.{Files as FilesOf, file_of};
ghost use Rattle.world_traits.specs.Moments.{Moment, MayLeave};
ghost use Rattle.world_mem.specs.Both.{torn_at};
ghost use Rattle.world_mem.specs.Calling.{CallsDisk};
ghost use Rattle.world_mem.specs.Image.{bytes_of, image_of};
ghost use Rattle.world_mem.specs.Restarting.{goes_on_from};
ghost use Rattle.world_mem.specs.Planned.{unbegun};
ghost use Rattle.world_mem.specs.Worlds.{run_in, planned_of, refused_of, disk_faults_of, link_of, course_of, moments_in};
ghost use Rattle.mail_drill.specs.Alone.{is_alone};
ghost use Rattle.mail_drill.specs.Connected.{IsServed};
ghost use Rattle.mail_drill.specs.Misfortunes.{nothing_fails};

use imap_model::Server;
use std::alloc::AllocError;
use world_mem::{Files, ImageFault, MemWorld, Plan};
use world_traits::{Clocked, Disk, DiskFailed, Link, LinkFailed, Side, World};

/// A world in memory in which nobody else changes anything: no plan of it has such a change. As long as memory sufficed, no moment's
/// history has a deed by others, and its server serves in the last connection that was made. It is told that memory was wanting, since
/// then little is known of what a call of the link did.
#[derive(Drop)]
pub struct QuietWorld {
    world: MemWorld,
    short: bool,
    ghost quiet: { (planned_of world).plan.foreign ≡ [] },
    ghost alone: { short || is_alone (run_in world).clock ≡ true },
    ghost served: { ∥ (short ≡ false → IsServed world) ∥₁ },
}

impl QuietWorld {
    /// The world, in which nothing has happened, and which has no plan of changes by others.
    pub fn new(world: MemWorld) -> QuietWorld
        requires quiet { (planned_of world).plan.foreign ≡ [] }
        requires alone { is_alone (run_in world).clock ≡ true }
        requires served { IsServed world }
        ensures world { result.world ≡ world }
        ensures short { result.short ≡ false }
    {
        QuietWorld {
            world,
            short: false,
        }
    }

    /// The world alone.
    pub fn into_world(self) -> MemWorld
        ensures { result ≡ self.world }
    {
        self.world
    }

    /// Whether memory was wanting in one of its calls.
    pub fn is_short(&self) -> bool
        ensures { result ≡ self.now.short }
    {
        self.short
    }

    /// The server.
    pub fn server(&self) -> &Server
        ensures { result.now ≡ (run_in self.now.world).state.server }
    {
        self.world.server().server()
    }

    /// How many moments there are, the one now included.
    pub fn moments(&self) -> u64
        ensures { result ≡ length (moments_in self.now.world) }
    {
        self.world.moments()
    }

    /// One of the images that a stop may leave at a moment: the one that the pick takes.
    pub fn images_at(&self, moment: u64, pick: u64) -> Result<Files, ImageFault>
        ensures lawful { (m : Moment) → slice_get (moments_in self.now.world) moment ≡ Some m
            → IfOk result (λ files. MayLeave m (bytes_of files)) }
        ensures there { moment < length (moments_in self.now.world)
            → IfErr result (λ fault. fault ≡ ImageFault.Memory) }
    {
        self.world.images_at(moment, pick)
    }

    /// Gives another plan, by which something fails: of a call that failed before nothing is forgotten.
    pub fn plan(&mut self, plan: Plan)
        requires quiet { plan.foreign ≡ [] }
        requires fails { plan ≡ nothing_fails → ⊥ }
        ensures course { course_of self.new.world ≡ course_of self.old.world }
        ensures plan { planned_of self.new.world ≡ unbegun plan }
        ensures short { self.new.short ≡ self.old.short }
    {
        self.world.plan(plan);
    }

    /// Stops the world, and goes on from the image that the pick takes.
    pub fn restart(self, pick: u64, plan: Plan) -> Result<QuietWorld, AllocError>
        requires { plan.foreign ≡ [] }
        ensures run { IfOk result (λ new. (files : FilesOf) × MayLeave (run_in self.world).clock.now files
            × (run_in new.world ≡ goes_on_from files (run_in self.world))) }
        ensures picked { IfOk result (λ new. run_in new.world
            ≡ goes_on_from (image_of pick (torn_at (run_in self.world).clock.now (run_in self.world).seen)) (run_in self.world)) }
        ensures plan { IfOk result (λ new. planned_of new.world ≡ unbegun plan) }
        ensures short { IfOk result (λ new. new.short ≡ self.short) }
    {
        let short = self.short;
        let world = self.world.restart(pick, plan)?;
        Ok(QuietWorld { world, short })
    }
}

// Whether memory was wanting, in this world or before.
fn is_wanting(world: &MemWorld, before: bool) -> bool
    ensures { result ≡ false → (before ≡ false) × (refused_of world.now ≡ 0) }
{
    before || world.refused() > 0
}

impl Clocked for QuietWorld {
    ghost tells_files = { Unit {0} };

    ghost tells_server = { Unit {0} };

    ghost server_with_files = { λ tells. tells };

    ghost clock = { λ quiet. (run_in quiet.world).clock };

    ghost disk_faults = { λ quiet. disk_faults_of quiet.world };

    ghost link = { λ quiet. link_of quiet.world };
}

impl Disk for QuietWorld {
    ghost use Rattle.world_mem.specs.Worlds.{seen_sound};

    ghost seen = { λ quiet. (run_in quiet.world).seen };

    ghost seen_is = { λ quiet tells. seen_sound (course_of quiet.world) };

    fn length(&mut self, side: Side) -> Result<u64, DiskFailed>
        ensures value { IfOk result (λ n. n ≡ length (file_of side (run_in self.old.world).seen)) }
        ensures same { run_in self.new.world ≡ run_in self.old.world }
        ensures called { CallsDisk self.old.world self.new.world result }
        ensures count { disk_faults_of self.old.world ≤ disk_faults_of self.new.world }
        ensures cause { OnErr result (Rose (disk_faults_of self.old.world) (disk_faults_of self.new.world)) }
        ensures unfailed { OnOk result (disk_faults_of self.new.world ≡ disk_faults_of self.old.world) }
    {
        let told = self.world.length(side);
        self.short = is_wanting(&self.world, self.short);
        told
    }

    fn read(&mut self, side: Side, at: u64, into: &mut [u8]) -> Result<usize, DiskFailed>
        ensures value { IfOk result (λ n. n ≡ min (length into.old) (length (file_of side (run_in self.old.world).seen) - at)) }
        ensures bytes { IfOk result (λ n. take n into.new ≡ take n (drop at (file_of side (run_in self.old.world).seen))) }
        ensures same { run_in self.new.world ≡ run_in self.old.world }
        ensures called { CallsDisk self.old.world self.new.world result }
        ensures count { disk_faults_of self.old.world ≤ disk_faults_of self.new.world }
        ensures cause { OnErr result (Rose (disk_faults_of self.old.world) (disk_faults_of self.new.world)) }
        ensures unfailed { OnOk result (disk_faults_of self.new.world ≡ disk_faults_of self.old.world) }
    {
        let told = self.world.read(side, at, into);
        self.short = is_wanting(&self.world, self.short);
        told
    }

    fn write_at(&mut self, side: Side, at: u64, bytes: &[u8]) -> Result<(), DiskFailed>
        requires { at + length bytes.now ≤ 2 ^ 32 }
        ensures told { Wrote side at bytes.now (run_in self.old.world).clock (run_in self.new.world).clock
            (run_in self.old.world).seen (run_in self.new.world).seen result }
        ensures called { CallsDisk self.old.world self.new.world result }
        ensures count { disk_faults_of self.old.world ≤ disk_faults_of self.new.world }
        ensures cause { OnErr result (Rose (disk_faults_of self.old.world) (disk_faults_of self.new.world)) }
        ensures unfailed { OnOk result (disk_faults_of self.new.world ≡ disk_faults_of self.old.world) }
    {
        let written = self.world.write_at(side, at, bytes);
        self.short = is_wanting(&self.world, self.short);
        written
    }

    fn sync(&mut self, side: Side) -> Result<(), DiskFailed>
        ensures told { Synced side (run_in self.old.world).clock (run_in self.new.world).clock
            (run_in self.old.world).seen (run_in self.new.world).seen result }
        ensures called { CallsDisk self.old.world self.new.world result }
        ensures count { disk_faults_of self.old.world ≤ disk_faults_of self.new.world }
        ensures cause { OnErr result (Rose (disk_faults_of self.old.world) (disk_faults_of self.new.world)) }
        ensures unfailed { OnOk result (disk_faults_of self.new.world ≡ disk_faults_of self.old.world) }
    {
        let synced = self.world.sync(side);
        self.short = is_wanting(&self.world, self.short);
        synced
    }
}

impl Link for QuietWorld {
    ghost use Rattle.std.specs.Prelude.{◌⊎◌, ℕ, List, None};
    ghost use Rattle.mail_base.specs.declared.tag.Tag.{Tag};
    ghost use Rattle.imap_model.specs.Talking.{Answering, Awaits, Connecting, IsPartOf};
    ghost use Rattle.imap_model.specs.declared.command.Command.{Command};
    ghost use Rattle.world_traits.specs.Connected.{IsGreeted, IsReplyDue, WasConnected};
    ghost use Rattle.world_traits.specs.LinkState.{Connection};
    ghost use Rattle.world_traits.specs.Links.{AnyStep, Linked};
    ghost use Rattle.world_traits.specs.Sends.{Sent};
    ghost use Rattle.world_mem.specs.Calling.{CallsLink};
    ghost use Rattle.world_mem.specs.Honest.{honest};
    ghost use Rattle.world_mem.specs.Lines.{BeginsLine, GivesLine, SendsLine};
    ghost use Rattle.world_mem.specs.Memory.{waits_in};
    ghost use Rattle.world_mem.specs.Planned.{next_link};
    ghost use Rattle.world_mem.specs.Worlds.{LinkIsToFail, connection_at, earlier_in, line_in, link_faults_of, sent_in};

    ghost honest = { λ quiet tells c is. honest (course_of quiet.world) c is };

    fn connect(&mut self) -> Result<(), LinkFailed>
        ensures files { Linked AnyStep (run_in self.old.world).clock (run_in self.new.world).clock }
        ensures told { Linked Connecting (run_in self.old.world).clock (run_in self.new.world).clock }
        ensures anew { OnOk result (WasConnected (run_in self.old.world).clock (run_in self.new.world).clock) }
        ensures greets { OnOk result (IsGreeted (run_in self.new.world).clock.now.outside) }
        ensures line { BeginsLine self.old.world self.new.world result }
        ensures called { CallsLink (LinkIsToFail (planned_of self.new.world)) self.old.world self.new.world result }
    {
        let connected = self.world.connect();
        self.short = is_wanting(&self.world, self.short);
        connected
    }

    fn send(&mut self, bytes: &[u8]) -> Result<(), LinkFailed>
        requires there { (c : Connection) × (connection_at self.old.world ≡ Some c) }
        ensures files { Linked AnyStep (run_in self.old.world).clock (run_in self.new.world).clock }
        ensures told { (tag : Tag) (command : Command) (before behind : List (List ℕ))
            → IsPartOf tag command before bytes.now behind
            → Awaits tag before (run_in self.old.world).clock.now.outside
            → Sent tag command before bytes.now behind (run_in self.old.world).clock (run_in self.new.world).clock result }
        ensures line { SendsLine bytes.now self.old.world self.new.world result }
        ensures called { CallsLink (LinkIsToFail (planned_of self.new.world) ⊎ (connection_at self.old.world ≡ None))
            self.old.world self.new.world result }
    {
        let sent = self.world.send(bytes);
        self.short = is_wanting(&self.world, self.short);
        sent
    }

    fn recv(&mut self, into: &mut [u8]) -> Result<usize, LinkFailed>
        requires room { 0 < length into.old }
        requires due { IsReplyDue (run_in self.old.world).clock.now.outside (connection_at self.old.world) }
        ensures some { IfOk result (λ n. 0 < n) }
        ensures fits { IfOk result (λ n. n ≤ length into.old) }
        ensures files { Linked AnyStep (run_in self.old.world).clock (run_in self.new.world).clock }
        ensures told { Linked Answering (run_in self.old.world).clock (run_in self.new.world).clock }
        ensures line { GivesLine into.new self.old.world self.new.world result }
        ensures called { CallsLink (LinkIsToFail (planned_of self.new.world) ⊎ (waits_in (line_in self.old.world) ≡ []))
            self.old.world self.new.world result }
    {
        let received = self.world.recv(into);
        self.short = is_wanting(&self.world, self.short);
        received
    }

    fn close(&mut self)
        ensures files { Linked AnyStep (run_in self.old.world).clock (run_in self.new.world).clock }
        ensures told { Linked Answering (run_in self.old.world).clock (run_in self.new.world).clock }
        ensures ended { connection_at self.new.world ≡ None }
        ensures sent { sent_in self.new.world ≡ sent_in self.old.world }
        ensures earlier { earlier_in self.new.world ≡ earlier_in self.old.world }
        ensures next { planned_of self.new.world ≡ next_link (planned_of self.old.world) }
        ensures disk { disk_faults_of self.new.world ≡ disk_faults_of self.old.world }
        ensures count { link_faults_of self.new.world ≡ link_faults_of self.old.world }
    {
        self.world.close();
        self.short = is_wanting(&self.world, self.short);
    }
}

impl World for QuietWorld {}
