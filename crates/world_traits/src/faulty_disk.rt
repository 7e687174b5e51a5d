//! A disk in memory whose calls fail by a plan, for tests.

ghost use Rattle.std.specs.Prelude.{◌≡◌, ◌≤◌, ◌+◌, ◌-◌, ◌^◌, min, length, take, drop};

use crate::fail_plan::FailPlan;
use crate::{Clocked, Disk, DiskFailed, Link, LinkFailed, MemDisk, NoLink, Side, World};

/// A `MemDisk` whose calls are numbered from 1, and fail where their number is planned to. It has no
/// server, so each call of the link fails.
///
/// Each call of the disk counts, and no other. A call fails exactly where its number is planned
/// or it is refused room. A planned failure changes nothing else. A number stands still at 2^64 -
/// 1.
#[derive(Drop)]
pub struct FaultyDisk {
    disk: MemDisk,
    plan: FailPlan,
    faults: u64,
    link: NoLink,
}

impl FaultyDisk {
    ghost use Rattle.std.specs.Prelude.{◌≡◌, ◌≤◌};
    ghost use Rattle.world_traits.specs.Files.{file_of};
    ghost use Rattle.world_traits.specs.Replay.{start};
    ghost use Rattle.world_traits.specs.Counts.{counted, unbegun};
    ghost use Rattle.world_traits.specs.Memory.{state_of, refused_of};
    ghost use Rattle.world_traits.specs.LinkState.{failed_link};
    ghost use Rattle.world_traits.specs.Faulty.{disk_of, plan_of, faults_of, link_beside};

    /// A disk with these files, which count as synced. The calls with these numbers fail. It takes
    /// no memory.
    pub fn new(left: Vec<u8>, right: Vec<u8>, fails: Vec<u64>) -> FaultyDisk
        ensures state { state_of (disk_of result) ≡ start left.items right.items }
        ensures refused { refused_of (disk_of result) ≡ 0 }
        ensures plan { plan_of result ≡ unbegun fails.items }
        ensures faults { faults_of result ≡ 0 }
        ensures link { link_beside result ≡ failed_link 0 }
    {
        FaultyDisk {
            disk: MemDisk::new(left, right),
            plan: FailPlan::new(fails),
            faults: 0,
            link: NoLink::new(),
        }
    }

    /// What a file reads as.
    pub fn bytes(&self, side: Side) -> &[u8]
        ensures { result.now ≡ file_of side (state_of (disk_of self.now)).files }
    {
        self.disk.bytes(side)
    }

    /// How many growths it was refused. The count never falls, and stays at 2^64 - 1, its last
    /// value. A planned failure isn't counted.
    pub fn refused(&self) -> u64
        ensures { result ≡ refused_of (disk_of self.now) }
    {
        self.disk.refused()
    }

    // Counts a failure.
    fn fail(&mut self) -> DiskFailed
        ensures disk { disk_of self.new ≡ disk_of self.old }
        ensures plan { plan_of self.new ≡ plan_of self.old }
        ensures faults { faults_of self.new ≡ counted (faults_of self.old) }
        ensures link { link_beside self.new ≡ link_beside self.old }
        ensures count { faults_of self.old ≤ faults_of self.new }
    {
        self.faults = self.faults.saturating_add(1);
        DiskFailed
    }
}

impl Clocked for FaultyDisk {
    ghost use Rattle.world_traits.specs.Memory.{state_of};
    ghost use Rattle.world_traits.specs.Faulty.{disk_of, faults_of, link_beside};

    ghost tells_files = { Unit {0} };

    ghost tells_server = { ⊥ };

    ghost server_with_files = { λ tells. absurd tells };

    ghost clock = { λ faulty. (state_of (disk_of faulty)).clock };

    ghost disk_faults = { λ faulty. faults_of faulty };

    ghost link = { λ faulty. link_beside faulty };
}

impl Disk for FaultyDisk {
    ghost use Rattle.std.specs.Prelude.{◌≡◌, ◌≤◌, ◌↔◌, OnErr, IfOk, IsErr};
    ghost use Rattle.world_traits.specs.Files.{file_of};
    ghost use Rattle.world_traits.specs.Calls.{Rose, Wrote, Synced};
    ghost use Rattle.world_traits.specs.Counts.{CountsFailure, FailsAsPlanned};
    ghost use Rattle.world_traits.specs.Counts.{IsPlanned, next_call};
    ghost use Rattle.world_traits.specs.Memory.{state_of, refused_of};
    ghost use Rattle.world_traits.specs.Faulty.{disk_of, plan_of, faults_of, link_beside};
    ghost use Rattle.world_traits.specs.Faulty.{faulty_sound};

    ghost seen = { λ faulty. (state_of (disk_of faulty)).files };

    ghost seen_is = { λ faulty tells. faulty_sound faulty };

    /// The file's length in bytes. It fails exactly where it is planned to.
    fn length(&mut self, side: Side) -> Result<u64, DiskFailed>
        ensures value { IfOk result (λ n.
            n ≡ length (file_of side (state_of (disk_of self.old)).files)) }
        ensures same { disk_of self.new ≡ disk_of self.old }
        ensures next { plan_of self.new ≡ next_call (plan_of self.old) }
        ensures exact { IsErr result ↔ IsPlanned (plan_of self.new) }
        ensures faults { CountsFailure result (faults_of self.old) (faults_of self.new) }
        ensures link { link_beside self.new ≡ link_beside self.old }
        ensures count { faults_of self.old ≤ faults_of self.new }
        ensures cause { OnErr result (Rose (faults_of self.old) (faults_of self.new)) }
    {
        if self.plan.next() {
            return Err(self.fail());
        }
        self.disk.length(side)
    }

    /// Reads from a place into the buffer's front, as many bytes as there are and fit. It fails
    /// exactly where it is planned to.
    fn read(&mut self, side: Side, at: u64, into: &mut [u8]) -> Result<usize, DiskFailed>
        ensures value { IfOk result (λ n. n ≡ min (length into.old)
            (length (file_of side (state_of (disk_of self.old)).files) - at)) }
        ensures bytes { IfOk result (λ n.
            take n into.new ≡ take n (drop at (file_of side (state_of (disk_of self.old)).files))) }
        ensures same { disk_of self.new ≡ disk_of self.old }
        ensures next { plan_of self.new ≡ next_call (plan_of self.old) }
        ensures exact { IsErr result ↔ IsPlanned (plan_of self.new) }
        ensures faults { CountsFailure result (faults_of self.old) (faults_of self.new) }
        ensures link { link_beside self.new ≡ link_beside self.old }
        ensures count { faults_of self.old ≤ faults_of self.new }
        ensures cause { OnErr result (Rose (faults_of self.old) (faults_of self.new)) }
    {
        if self.plan.next() {
            return Err(self.fail());
        }
        self.disk.read(side, at, into)
    }

    /// Writes the bytes at a place. It fails exactly where it is planned to or is refused room, and
    /// then nothing was written.
    fn write_at(&mut self, side: Side, at: u64, bytes: &[u8]) -> Result<(), DiskFailed>
        requires { at + length bytes.now ≤ 2 ^ 32 }
        ensures told { Wrote side at bytes.now
            (state_of (disk_of self.old)).clock (state_of (disk_of self.new)).clock
            (state_of (disk_of self.old)).files (state_of (disk_of self.new)).files result }
        ensures failed { OnErr result (state_of (disk_of self.new) ≡ state_of (disk_of self.old)) }
        ensures next { plan_of self.new ≡ next_call (plan_of self.old) }
        ensures exact { FailsAsPlanned (plan_of self.new) result
            refused_of (disk_of self.old) (disk_of self.new) }
        ensures faults { CountsFailure result (faults_of self.old) (faults_of self.new) }
        ensures link { link_beside self.new ≡ link_beside self.old }
        ensures count { faults_of self.old ≤ faults_of self.new }
        ensures cause { OnErr result (Rose (faults_of self.old) (faults_of self.new)) }
    {
        if self.plan.next() {
            return Err(self.fail());
        }
        if self.disk.write_at(side, at, bytes).is_err() {
            return Err(self.fail());
        }
        Ok(())
    }

    /// Makes what a read gives the synced bytes. It fails exactly where it is planned to or is
    /// refused room, and then nothing changed.
    fn sync(&mut self, side: Side) -> Result<(), DiskFailed>
        ensures told { Synced side
            (state_of (disk_of self.old)).clock (state_of (disk_of self.new)).clock
            (state_of (disk_of self.old)).files (state_of (disk_of self.new)).files result }
        ensures failed { OnErr result (state_of (disk_of self.new) ≡ state_of (disk_of self.old)) }
        ensures next { plan_of self.new ≡ next_call (plan_of self.old) }
        ensures exact { FailsAsPlanned (plan_of self.new) result
            refused_of (disk_of self.old) (disk_of self.new) }
        ensures faults { CountsFailure result (faults_of self.old) (faults_of self.new) }
        ensures link { link_beside self.new ≡ link_beside self.old }
        ensures count { faults_of self.old ≤ faults_of self.new }
        ensures cause { OnErr result (Rose (faults_of self.old) (faults_of self.new)) }
    {
        if self.plan.next() {
            return Err(self.fail());
        }
        if self.disk.sync(side).is_err() {
            return Err(self.fail());
        }
        Ok(())
    }
}

impl Link for FaultyDisk {
    ghost use Rattle.std.specs.Prelude.{◌≡◌, ◌≤◌, IsErr};
    ghost use Rattle.world_traits.specs.Calls.{Rose};
    ghost use Rattle.world_traits.specs.Counts.{counted};
    ghost use Rattle.world_traits.specs.LinkState.{failed_link};
    ghost use Rattle.world_traits.specs.Faulty.{disk_of, plan_of, faults_of, link_beside};

    ghost honest = { λ faulty tells c is. absurd tells };

    /// It fails, and only the count of the link's faults goes on.
    fn connect(&mut self) -> Result<(), LinkFailed>
        ensures failed { IsErr result }
        ensures disk { disk_of self.new ≡ disk_of self.old }
        ensures plan { plan_of self.new ≡ plan_of self.old }
        ensures faults { faults_of self.new ≡ faults_of self.old }
        ensures link { link_beside self.new ≡ failed_link (counted (link_beside self.old).faults) }
        ensures count { (link_beside self.old).faults ≤ (link_beside self.new).faults }
        ensures cause { Rose (link_beside self.old).faults (link_beside self.new).faults }
    {
        Err(self.link.fail())
    }

    /// It fails, and only the count of the link's faults goes on.
    fn send(&mut self, _bytes: &[u8]) -> Result<(), LinkFailed>
        ensures failed { IsErr result }
        ensures disk { disk_of self.new ≡ disk_of self.old }
        ensures plan { plan_of self.new ≡ plan_of self.old }
        ensures faults { faults_of self.new ≡ faults_of self.old }
        ensures link { link_beside self.new ≡ failed_link (counted (link_beside self.old).faults) }
        ensures count { (link_beside self.old).faults ≤ (link_beside self.new).faults }
        ensures cause { Rose (link_beside self.old).faults (link_beside self.new).faults }
    {
        Err(self.link.fail())
    }

    /// It fails, and only the count of the link's faults goes on.
    fn recv(&mut self, _into: &mut [u8]) -> Result<usize, LinkFailed>
        ensures failed { IsErr result }
        ensures disk { disk_of self.new ≡ disk_of self.old }
        ensures plan { plan_of self.new ≡ plan_of self.old }
        ensures faults { faults_of self.new ≡ faults_of self.old }
        ensures link { link_beside self.new ≡ failed_link (counted (link_beside self.old).faults) }
        ensures count { (link_beside self.old).faults ≤ (link_beside self.new).faults }
        ensures cause { Rose (link_beside self.old).faults (link_beside self.new).faults }
    {
        Err(self.link.fail())
    }

    /// It changes nothing: there is no connection.
    fn close(&mut self)
        ensures { self.new ≡ self.old }
    {}
}

impl World for FaultyDisk {}
