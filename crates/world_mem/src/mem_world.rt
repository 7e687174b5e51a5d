//! The world in memory.

ghost use Rattle.std.specs.Prelude.{◌≡◌, ◌⊎◌, ◌≤◌, ◌<◌, ◌+◌, ◌-◌, ◌^◌, ◌↔◌, ℕ, [], Some, None, true, false};
ghost use Rattle.std.specs.Prelude.{min, length, take, drop, slice_get};
ghost use Rattle.std.specs.Prelude.{OnOk, OnErr, IfOk, IfErr, IfSome, IsErr, IsErrOf};
ghost use Rattle.imap_model.specs.Lawful.{broken_rule};
ghost use Rattle.imap_model.specs.Talking.{Connecting};
ghost use Rattle.server_mem.specs.States.{disconnected};
ghost use Rattle.world_traits.specs.Calls.{Rose, Wrote, Synced};
ghost use Rattle.world_traits.specs.Counts.{counted};
ghost use Rattle.world_traits.specs.Files.{file_of};
ghost use Rattle.world_traits.specs.Links.{Linked};
ghost use Rattle.world_traits.specs.Moments.{Moment, MayLeave};
ghost use Rattle.world_mem.specs.Both.{torn_at};
ghost use Rattle.world_mem.specs.Calling.{BreaksOff, BreaksOffAnew, CallsDisk, Enters, EntersAnew, GoesOn, GoesOnAnew};
ghost use Rattle.world_mem.specs.Failing.{DiskFails, LinkFails};
ghost use Rattle.world_mem.specs.Image.{bytes_of, image_of};
ghost use Rattle.world_mem.specs.Memory.{run_of, line_of, unmade, waits_in, told_line};
ghost use Rattle.world_mem.specs.Others.{OthersChange, alone, changed, changes, renews};
ghost use Rattle.world_mem.specs.Planned.{unbegun, next_link, IsStopped};
ghost use Rattle.world_mem.specs.Restarting.{goes_on_from, no_line};
ghost use Rattle.world_mem.specs.Running.{start};
ghost use Rattle.world_mem.specs.Standing.{in_use, is_on, lost_phase, rested_phase};
ghost use Rattle.world_mem.specs.Tally.{CountsStay, IsUncalled};
ghost use Rattle.world_mem.specs.Worlds.{course_of, run_in, line_in, sent_in, earlier_in, used_in, moments_in, files_in};
ghost use Rattle.world_mem.specs.Worlds.{server_of, served_by};
ghost use Rattle.world_mem.specs.Worlds.{planned_of, refused_of, disk_faults_of, link_faults_of};
ghost use Rattle.world_mem.specs.Worlds.{entered, entered_anew, EntersSome, EntersSomeAnew, FailsExactly, LinkIsToFail};
ghost use Rattle.world_mem.specs.declared.course.Phase.TheVariants as phases;
ghost use Rattle.world_mem.specs.declared.did.Did.TheVariants as did;

use crate::course::Course;
use crate::schedule::Schedule;
use crate::{Files, Plan};
use imap_model::Change;
use mail_base::BoxName;
use server_mem::{ForeignFault, MemServer};
use std::alloc::{AllocError, Global};
use thiserror::Error;
use world_traits::{Clocked, Disk, DiskFailed, Link, LinkFailed, Side, World};

/// Why there is no image of a moment.
#[derive(Clone, Copy, Debug, PartialEq, Eq, Drop, Error)]
pub enum ImageFault {
    /// There is no such moment: there are so many, counted from 0.
    #[error("there is no such moment")]
    NoMoment { moments: u64 },
    /// There isn't memory enough.
    #[error("memory is wanting")]
    Memory,
}

impl From<AllocError> for ImageFault {
    ghost use Rattle.std.specs.Prelude.{◌≡◌};
    ghost use Rattle.world_mem.specs.declared.mem_world.ImageFault.TheVariants as faults;

    ghost from_gives = { λ _ fault. fault ≡ faults.Memory };

    fn from(_: AllocError) -> ImageFault {
        ImageFault::Memory
    }
}

/// Why a call that changes the world isn't done.
#[derive(Clone, Copy, Debug, PartialEq, Eq)]
struct Refused;

/// Two files, a link and a server in memory, with one list of moments.
#[derive(Drop)]
pub struct MemWorld {
    course: Course,
    schedule: Schedule,
    disk_faults: u64,
    link_faults: u64,
    refused: u64,
}

impl MemWorld {
    /// A world of this server, which isn't muted, and these files, which count as synced. There is
    /// one moment, and no connection.
    pub fn new(
        alloc: Global,
        server: MemServer,
        files: Files,
        plan: Plan,
    ) -> Result<MemWorld, AllocError>
        requires { server.muted ≡ false }
        ensures run { IfOk result (λ world. run_in world
            ≡ start (bytes_of files) (disconnected server) None) }
        ensures line { IfOk result (λ world. line_in world ≡ unmade phases.Off) }
        ensures uncalled { IfOk result (IsUncalled plan) }
    {
        Ok(MemWorld::over(Course::new(alloc, server, files)?, plan))
    }

    // A world of this course that no call has failed in.
    fn over(course: Course, plan: Plan) -> MemWorld
        ensures course { course_of result ≡ course }
        ensures uncalled { IsUncalled plan result }
    {
        MemWorld {
            course,
            schedule: Schedule::new(plan),
            disk_faults: 0,
            link_faults: 0,
            refused: 0,
        }
    }

    /// Stops the world, and goes on from one of the images that the stop may leave: the one that
    /// the pick takes. The server keeps its mailboxes, its history and its choices, nothing is
    /// connected or selected, and a command that waits waits on. There is one moment.
    pub fn restart(self, pick: u64, plan: Plan) -> Result<MemWorld, AllocError>
        ensures run { IfOk result (λ world. run_in world
            ≡ goes_on_from (image_of pick (torn_at (run_in self).clock.now (run_in self).seen))
            (run_in self)) }
        ensures lawful { IfOk result (λ world. MayLeave (run_in self).clock.now (run_in world).seen) }
        ensures line { IfOk result (λ world. line_in world ≡ no_line (run_in self).held) }
        ensures uncalled { IfOk result (IsUncalled plan) }
    {
        let files = self.course.image(pick)?;
        Ok(MemWorld::over(self.course.restarted(files)?, plan))
    }

    /// Gives another plan. Its calls are counted from now on.
    pub fn plan(&mut self, plan: Plan)
        ensures plan { planned_of self.new ≡ unbegun plan }
        ensures course { course_of self.new ≡ course_of self.old }
        ensures counts { CountsStay self.old self.new }
    {
        self.schedule = Schedule::new(plan);
    }

    /// Makes a change by another client, at a moment of its own. Where there is no connection, it is
    /// told first that the last one is at its end: nothing is selected, and no text arrives. Refuses
    /// a change that breaks a rule, and then nothing changes, as for want of memory. Passes over one
    /// that would renew the mailbox that is selected in a connection that is there, or was selected
    /// as the connection of the command that waits was lost.
    pub fn foreign(&mut self, name: &BoxName, change: &Change) -> Result<(), ForeignFault>
        ensures done { OnOk result (run_in self.new ≡ alone (is_on (line_in self.old).phase)
            (used_in self.old) name.now change.now (run_in self.old)) }
        ensures told { Linked Connecting (run_in self.old).clock (run_in self.new).clock }
        ensures others { is_on (line_in self.old).phase ≡ true
            → OthersChange (run_in self.old) (run_in self.new) }
        ensures rule { (number : ℕ) → IsErrOf result (ForeignFault.NotLawful number)
            → broken_rule (run_in self.old).state.server.boxes name.now change.now ≡ Some number }
        ensures lawful { OnOk result (renews (used_in self.old) name.now change.now ≡ false
            → broken_rule (run_in self.old).state.server.boxes name.now change.now ≡ None) }
        ensures kept { OnErr result (run_in self.new ≡ run_in self.old) }
        ensures line { line_in self.new
            ≡ record (line_in self.old) { phase = rested_phase (line_in self.old).phase } }
        ensures plan { planned_of self.new ≡ planned_of self.old }
        ensures counts { CountsStay self.old self.new }
    {
        self.course.change_alone(name, change)
    }

    /// The server.
    pub fn server(&self) -> &MemServer
        ensures value { result.now ≡ server_of self.now }
        ensures server { result.now.server ≡ (run_in self.now).state.server }
    {
        self.course.server()
    }

    /// The bytes sent in the present connection, or in the last one where there is none.
    pub fn sent(&self) -> &[u8]
        ensures { result.now ≡ (line_in self.now).sent }
    {
        self.course.sent()
    }

    /// How many growths it was refused. The count never falls, and stays at 2^64 - 1, its last
    /// value. No other fault is counted.
    pub fn refused(&self) -> u64
        ensures { result ≡ refused_of self.now }
    {
        self.refused
    }

    /// How many moments there are, the one now included.
    pub fn moments(&self) -> u64
        ensures { result ≡ length (moments_in self.now) }
    {
        self.course.moments()
    }

    /// One of the images that a stop may leave at a moment, whose number counts from 0: the one
    /// that the pick takes.
    pub fn images_at(&self, moment: u64, pick: u64) -> Result<Files, ImageFault>
        ensures value { IfOk result (λ files. bytes_of files
            ≡ image_of pick (files_in self.now moment)) }
        ensures lawful { (m : Moment) → slice_get (moments_in self.now) moment ≡ Some m
            → IfOk result (λ files. MayLeave m (bytes_of files)) }
        ensures no_moment { length (moments_in self.now) ≤ moment
            → result ≡ Err (ImageFault.NoMoment (length (moments_in self.now))) }
        ensures there { moment < length (moments_in self.now)
            → IfErr result (λ fault. fault ≡ ImageFault.Memory) }
    {
        let moments = self.course.moments();
        if moment >= moments {
            return Err(ImageFault::NoMoment { moments });
        }
        Ok(self.course.image_at(moment, pick)?)
    }

    // A call of the disk failed.
    fn fail_disk(&mut self) -> DiskFailed
        ensures fails { DiskFails self.old self.new }
        ensures refused { refused_of self.new ≡ refused_of self.old }
    {
        self.disk_faults = self.disk_faults.saturating_add(1);
        DiskFailed
    }

    // A growth was refused in a call of the disk.
    fn refuse_disk(&mut self) -> DiskFailed
        ensures fails { DiskFails self.old self.new }
        ensures refused { refused_of self.new ≡ counted (refused_of self.old) }
    {
        self.refused = self.refused.saturating_add(1);
        self.fail_disk()
    }

    // A call of the link failed: the connection is lost.
    fn fail_link(&mut self) -> LinkFailed
        ensures fails { LinkFails self.old self.new }
        ensures refused { refused_of self.new ≡ refused_of self.old }
    {
        self.course.lose();
        self.link_faults = self.link_faults.saturating_add(1);
        LinkFailed
    }

    // A growth was refused in a call of the link.
    fn refuse_link(&mut self) -> LinkFailed
        ensures fails { LinkFails self.old self.new }
        ensures refused { refused_of self.new ≡ counted (refused_of self.old) }
    {
        self.refused = self.refused.saturating_add(1);
        self.fail_link()
    }

    // A call of the link begins, with what others change then.
    fn enter(&mut self) -> Result<(), LinkFailed>
        ensures enters { Enters self.old self.new }
        ensures exact { FailsExactly (IsStopped (planned_of self.new)) result
            (refused_of self.old) (refused_of self.new) }
        ensures goes_on { OnOk result (GoesOn self.old self.new) }
        ensures breaks_off { OnErr result (BreaksOff self.old self.new) }
    {
        if self.schedule.next_link() {
            return Err(self.fail_link());
        }
        let call = self.schedule.link();
        if change_all(&mut self.course, self.schedule.foreign(), call).is_err() {
            return Err(self.refuse_link());
        }
        Ok(())
    }

    // The same as a connection is made: it is told first that the old one is at its end.
    fn enter_anew(&mut self) -> Result<(), LinkFailed>
        requires { lost_phase (line_in self.old).phase ≡ (line_in self.old).phase }
        ensures enters { EntersAnew self.old self.new }
        ensures exact { FailsExactly (IsStopped (planned_of self.new)) result
            (refused_of self.old) (refused_of self.new) }
        ensures goes_on { OnOk result (GoesOnAnew self.old self.new) }
        ensures breaks_off { OnErr result (BreaksOffAnew self.old self.new) }
    {
        if self.schedule.next_link() {
            return Err(self.fail_link());
        }
        if self.course.end().is_err() {
            return Err(self.refuse_link());
        }
        let call = self.schedule.link();
        if change_all(&mut self.course, self.schedule.foreign(), call).is_err() {
            return Err(self.refuse_link());
        }
        Ok(())
    }
}

// Makes the changes of this call, and passes over those that break a rule or renew the mailbox that
// is in use.
fn change_all(
    course: &mut Course,
    foreign: &[(u64, BoxName, Change)],
    call: u64,
) -> Result<(), AllocError>
    ensures told { OthersChange (run_of course.old) (run_of course.new) }
    ensures done { OnOk result (run_of course.new ≡ changes foreign.now call
        (in_use course.old.phase (run_of course.old).state) (run_of course.old)) }
    ensures some { OnErr result ((n : ℕ) × (run_of course.new ≡ changes (take n foreign.now) call
        (in_use course.old.phase (run_of course.old).state) (run_of course.old))) }
    ensures server { course.new.server
        ≡ record course.old.server { server = (run_of course.new).state.server } }
    ensures line { line_of course.new ≡ line_of course.old }
{
    for (number, name, change) in foreign {
        if *number == call {
            change_one(course, name, change)?;
        }
    }
    Ok(())
}

// Makes one of them, unless it breaks a rule or renews the mailbox that is in use.
fn change_one(course: &mut Course, name: &BoxName, change: &Change) -> Result<(), AllocError>
    ensures told { OthersChange (run_of course.old) (run_of course.new) }
    ensures done { OnOk result (run_of course.new ≡ changed
        (in_use course.old.phase (run_of course.old).state) name.now change.now (run_of course.old)) }
    ensures failed { OnErr result (run_of course.new ≡ run_of course.old) }
    ensures server { course.new.server
        ≡ record course.old.server { server = (run_of course.new).state.server } }
    ensures line { line_of course.new ≡ line_of course.old }
{
    if course.renews(name, change) {
        return Ok(());
    }
    match course.change(name, change) {
        Ok(()) => Ok(()),
        Err(ForeignFault::NotLawful { .. }) => Ok(()),
        Err(ForeignFault::Memory) => Err(AllocError),
    }
}

impl Clocked for MemWorld {
    ghost tells_files = { Unit {0} };

    ghost tells_server = { Unit {0} };

    ghost server_with_files = { λ tells. tells };

    ghost use Rattle.world_mem.specs.Worlds.{run_in, disk_faults_of, link_of};

    ghost clock = { λ world. (run_in world).clock };

    ghost disk_faults = { λ world. disk_faults_of world };

    ghost link = { λ world. link_of world };
}

impl Disk for MemWorld {
    ghost use Rattle.world_mem.specs.Worlds.{seen_sound};

    ghost seen = { λ world. (run_in world).seen };

    ghost seen_is = { λ world tells. seen_sound (course_of world) };

    /// The file's length in bytes. It fails exactly where it is planned to, or the world has stopped.
    fn length(&mut self, side: Side) -> Result<u64, DiskFailed>
        ensures value { IfOk result (λ n. n ≡ length (file_of side (run_in self.old).seen)) }
        ensures same { run_in self.new ≡ run_in self.old }
        ensures called { CallsDisk self.old self.new result }
        ensures count { disk_faults_of self.old ≤ disk_faults_of self.new }
        ensures cause { OnErr result (Rose (disk_faults_of self.old) (disk_faults_of self.new)) }
        ensures unfailed { OnOk result (disk_faults_of self.new ≡ disk_faults_of self.old) }
    {
        if self.schedule.next_disk() {
            return Err(self.fail_disk());
        }
        Ok(self.course.bytes(side).len() as u64)
    }

    /// Reads from a place into the buffer's front, as many bytes as there are and fit. It fails
    /// exactly where it is planned to, or the world has stopped.
    fn read(&mut self, side: Side, at: u64, into: &mut [u8]) -> Result<usize, DiskFailed>
        ensures value { IfOk result (λ n.
            n ≡ min (length into.old) (length (file_of side (run_in self.old).seen) - at)) }
        ensures bytes { IfOk result (λ n.
            take n into.new ≡ take n (drop at (file_of side (run_in self.old).seen))) }
        ensures same { run_in self.new ≡ run_in self.old }
        ensures called { CallsDisk self.old self.new result }
        ensures count { disk_faults_of self.old ≤ disk_faults_of self.new }
        ensures cause { OnErr result (Rose (disk_faults_of self.old) (disk_faults_of self.new)) }
        ensures unfailed { OnOk result (disk_faults_of self.new ≡ disk_faults_of self.old) }
    {
        if self.schedule.next_disk() {
            return Err(self.fail_disk());
        }
        let bytes = self.course.bytes(side);
        if at >= bytes.len() as u64 {
            return Ok(0);
        }
        let rest = &bytes[at as usize..];
        let count = rest.len().min(into.len());
        into[..count].copy_from_slice(&rest[..count]);
        Ok(count)
    }

    /// Writes the bytes at a place. It fails exactly where it is planned to, the world has stopped,
    /// or it is refused room, and then nothing was written.
    fn write_at(&mut self, side: Side, at: u64, bytes: &[u8]) -> Result<(), DiskFailed>
        requires { at + length bytes.now ≤ 2 ^ 32 }
        ensures told { Wrote side at bytes.now (run_in self.old).clock (run_in self.new).clock
            (run_in self.old).seen (run_in self.new).seen result }
        ensures failed { OnErr result (run_in self.new ≡ run_in self.old) }
        ensures called { CallsDisk self.old self.new result }
        ensures count { disk_faults_of self.old ≤ disk_faults_of self.new }
        ensures cause { OnErr result (Rose (disk_faults_of self.old) (disk_faults_of self.new)) }
        ensures unfailed { OnOk result (disk_faults_of self.new ≡ disk_faults_of self.old) }
    {
        if self.schedule.next_disk() {
            return Err(self.fail_disk());
        }
        if self.course.write(side, at, bytes).is_err() {
            return Err(self.refuse_disk());
        }
        Ok(())
    }

    /// Makes what a read gives the synced bytes. It fails exactly where it is planned to, the world
    /// has stopped, or it is refused room, and then nothing changed.
    fn sync(&mut self, side: Side) -> Result<(), DiskFailed>
        ensures told { Synced side (run_in self.old).clock (run_in self.new).clock
            (run_in self.old).seen (run_in self.new).seen result }
        ensures failed { OnErr result (run_in self.new ≡ run_in self.old) }
        ensures called { CallsDisk self.old self.new result }
        ensures count { disk_faults_of self.old ≤ disk_faults_of self.new }
        ensures cause { OnErr result (Rose (disk_faults_of self.old) (disk_faults_of self.new)) }
        ensures unfailed { OnOk result (disk_faults_of self.new ≡ disk_faults_of self.old) }
    {
        if self.schedule.next_disk() {
            return Err(self.fail_disk());
        }
        if self.course.sync(side).is_err() {
            return Err(self.refuse_disk());
        }
        Ok(())
    }
}

impl Link for MemWorld {
    ghost use Rattle.std.specs.Prelude.{◌++◌, List};
    ghost use Rattle.imap_model.specs.Talking.{Answering, Awaits, IsPartOf};
    ghost use Rattle.imap_model.specs.declared.command.Command.{Command};
    ghost use Rattle.mail_base.specs.declared.tag.Tag.{Tag};
    ghost use Rattle.world_traits.specs.Connected.{IsGreeted, WasConnected};
    ghost use Rattle.world_traits.specs.Links.{AnyStep};
    ghost use Rattle.world_traits.specs.Sends.{Sent};
    ghost use Rattle.world_mem.specs.Planned.{IsShort};
    ghost use Rattle.world_mem.specs.declared.plan.Loss.{Loss};
    ghost use Rattle.world_mem.specs.Heard.{HearsBytes};
    ghost use Rattle.world_mem.specs.Calling.{CallsLink};
    ghost use Rattle.world_mem.specs.Connecting.{Connects};
    ghost use Rattle.world_mem.specs.Downed.{Downed};
    ghost use Rattle.world_mem.specs.Honest.{honest};
    ghost use Rattle.world_mem.specs.Lines.{BeginsLine, GivesLine, SendsLine};
    ghost use Rattle.world_mem.specs.Worlds.{connection_at, loss_by, Refuses};

    ghost honest = { λ world tells c is. honest (course_of world) c is };

    /// Begins a new connection and ends an old one: that is told first, before others change
    /// anything. What waits is carried out before the greeting, or dropped, as its loss says. It
    /// fails exactly where it is planned to, the world has stopped, or it is refused room.
    fn connect(&mut self) -> Result<(), LinkFailed>
        ensures files { Linked AnyStep (run_in self.old).clock (run_in self.new).clock }
        ensures told { Linked Connecting (run_in self.old).clock (run_in self.new).clock }
        ensures anew { OnOk result (WasConnected (run_in self.old).clock (run_in self.new).clock) }
        ensures greets { OnOk result (IsGreeted (run_in self.new).clock.now.outside) }
        ensures connects { OnOk result (Connects self.old self.new) }
        ensures loses { (IsStopped (planned_of self.new) → ⊥) → (loss : Loss)
            → loss_by self.new ≡ Some loss
            → (run_in self.new ≡ entered_anew self.old self.new)
            ⊎ (EntersSomeAnew self.old self.new × Refuses self.old self.new) }
        ensures line { BeginsLine self.old self.new result }
        ensures called { CallsLink (LinkIsToFail (planned_of self.new)) self.old self.new result }
    {
        self.course.lose();
        self.enter_anew()?;
        if self.schedule.loss().is_some() {
            return Err(self.fail_link());
        }
        if self.course.settle().is_err() {
            return Err(self.refuse_link());
        }
        if self.course.greet().is_err() {
            return Err(self.refuse_link());
        }
        Ok(())
    }

    /// Sends the bytes, and the server answers all that is whole. It fails exactly where it is
    /// planned to, the world has stopped, there is no connection, or it is refused room. Where it
    /// is planned to, as much of a part that is awaited arrives as the loss says.
    fn send(&mut self, bytes: &[u8]) -> Result<(), LinkFailed>
        ensures files { Linked AnyStep (run_in self.old).clock (run_in self.new).clock }
        ensures told { (tag : Tag) (command : Command) (before behind : List (List ℕ))
            → IsPartOf tag command before bytes.now behind
            → Awaits tag before (run_in self.old).clock.now.outside
            → Sent tag command before bytes.now behind (run_in self.old).clock (run_in self.new).clock
            result }
        ensures short { (loss : Loss) → loss_by self.new ≡ Some loss
            → IsShort loss (length bytes.now)
            → (tag : Tag) (command : Command) (before behind : List (List ℕ))
            → IsPartOf tag command before bytes.now behind
            → Awaits tag before (run_in self.old).clock.now.outside
            → OthersChange (run_in self.old) (run_in self.new) }
        ensures downed { (IsStopped (planned_of self.new) → ⊥) → (connection_at self.old ≡ None → ⊥)
            → (loss : Loss) → loss_by self.new ≡ Some loss
            → Downed loss bytes.now self.old self.new }
        ensures line { SendsLine bytes.now self.old self.new result }
        ensures hears { OnOk result (HearsBytes bytes.now
            (served_by self.old (entered self.old self.new)) (entered self.old self.new)
            (server_of self.new) (run_in self.new)) }
        ensures unheard { (IsStopped (planned_of self.new) → ⊥) → connection_at self.old ≡ None
            → ((run_in self.new ≡ entered self.old self.new)
            × (refused_of self.new ≡ refused_of self.old))
            ⊎ (EntersSome self.old self.new × Refuses self.old self.new) }
        ensures called { CallsLink
            (LinkIsToFail (planned_of self.new) ⊎ (connection_at self.old ≡ None))
            self.old self.new result }
    {
        self.enter()?;
        if !self.course.is_connected() {
            return Err(self.fail_link());
        }
        let Some(loss) = self.schedule.loss() else {
            if self.course.arrive(bytes).is_err() {
                return Err(self.refuse_link());
            }
            return Ok(());
        };
        if self.course.arrive_by(loss, bytes).is_err() {
            return Err(self.refuse_link());
        }
        Err(self.fail_link())
    }

    /// Gives from the front of what waits. It fails exactly where it is planned to, the world has
    /// stopped, nothing waits, or it is refused room.
    fn recv(&mut self, into: &mut [u8]) -> Result<usize, LinkFailed>
        requires { 0 < length into.old }
        ensures count_is { IfOk result (λ n.
            n ≡ min (length (waits_in (line_in self.old))) (length into.old)) }
        ensures some { IfOk result (λ n. 0 < n) }
        ensures fits { IfOk result (λ n. n ≤ length into.old) }
        ensures bytes { IfOk result (λ n. take n into.new ≡ take n (waits_in (line_in self.old))) }
        ensures files { Linked AnyStep (run_in self.old).clock (run_in self.new).clock }
        ensures told { Linked Answering (run_in self.old).clock (run_in self.new).clock }
        ensures run { OnOk result (run_in self.new ≡ entered self.old self.new) }
        ensures loses { (IsStopped (planned_of self.new) → ⊥) → OnErr result
            ((run_in self.new ≡ entered self.old self.new)
            ⊎ (EntersSome self.old self.new × Refuses self.old self.new)) }
        ensures line { GivesLine into.new self.old self.new result }
        ensures called { CallsLink
            (LinkIsToFail (planned_of self.new) ⊎ (waits_in (line_in self.old) ≡ []))
            self.old self.new result }
    {
        self.enter()?;
        if self.schedule.loss().is_some() {
            return Err(self.fail_link());
        }
        if !self.course.has_more() {
            return Err(self.fail_link());
        }
        Ok(self.course.give(into))
    }

    /// Ends the connection. It counts as a call of the link, as which begins others may change the
    /// server.
    fn close(&mut self)
        ensures files { Linked AnyStep (run_in self.old).clock (run_in self.new).clock }
        ensures told { Linked Answering (run_in self.old).clock (run_in self.new).clock }
        ensures ended { connection_at self.new ≡ None }
        ensures sent { sent_in self.new ≡ sent_in self.old }
        ensures earlier { earlier_in self.new ≡ earlier_in self.old }
        ensures run { (IsStopped (planned_of self.new) → ⊥)
            → ((run_in self.new ≡ entered self.old self.new)
            × (refused_of self.new ≡ refused_of self.old))
            ⊎ (EntersSome self.old self.new × Refuses self.old self.new) }
        ensures refused { IsStopped (planned_of self.new) → refused_of self.new ≡ refused_of self.old }
        ensures next { planned_of self.new ≡ next_link (planned_of self.old) }
        ensures stopped { IsStopped (planned_of self.new) → run_in self.new ≡ run_in self.old }
        ensures disk { disk_faults_of self.new ≡ disk_faults_of self.old }
        ensures count { link_faults_of self.new ≡ link_faults_of self.old }
    {
        if self.schedule.next_link() {
            self.course.lose();
            return;
        }
        let call = self.schedule.link();
        let done = change_all(&mut self.course, self.schedule.foreign(), call);
        self.course.lose();
        if done.is_err() {
            self.refused = self.refused.saturating_add(1);
        }
    }
}

impl World for MemWorld {}
