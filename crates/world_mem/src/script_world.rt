//! A world in memory in which a script comes over the link.

ghost use Rattle.std.specs.Prelude.{◌≡◌, ◌≤◌, ◌+◌, ◌-◌, ◌^◌, min, length, take, drop, IfOk};
ghost use Rattle.world_traits.specs.Counts.{counted};

use crate::script_link::ScriptLink;
use crate::{Files, Script};
use std::alloc::{AllocError, Global};
use world_traits::{Clocked, Disk, DiskFailed, Link, LinkFailed, MemDisk, Side, World};

/// Two files in memory, and a link over which a script comes, whatever is sent: the world of a
/// server that says anything.
///
/// Each call that receives gives the next bytes of the script, from one piece and no more than fit.
/// What of a piece didn't fit comes next, and a piece without bytes is passed over. The script goes
/// on from one connection to the next. It ends behind 2^64 - 1 bytes at the latest. To receive at
/// its end is a fault; else a call of the link fails only where a growth is refused, whether there
/// is a connection or not. A call of the disk fails only where it is refused room.
///
/// It tells its files and its connection, and no server. It grows by what is written and sent, and by
/// each connection, and not by what is received.
#[derive(Drop)]
pub struct ScriptWorld {
    disk: MemDisk,
    link: ScriptLink,
    refused: u64,
}

impl ScriptWorld {
    ghost use Rattle.world_traits.specs.Replay.{start};
    ghost use Rattle.world_mem.specs.Scripted.{at_front};
    ghost use Rattle.world_mem.specs.ScriptWorlds.{disk_of, scripted_of, refused_of, disk_faults_of};

    /// A world of these files, which count as synced, and this script. Nothing was received or
    /// sent, and there is no connection.
    pub fn new(alloc: Global, files: Files, script: Vec<Script>) -> Result<ScriptWorld, AllocError>
        ensures disk { IfOk result (λ world. disk_of world ≡ start files.left files.right) }
        ensures link { IfOk result (λ world. scripted_of world ≡ at_front script.items) }
        ensures refused { IfOk result (λ world. refused_of world ≡ 0) }
        ensures faults { IfOk result (λ world. disk_faults_of world ≡ 0) }
    {
        let left = files.left.as_slice().to_vec(alloc)?;
        let right = files.right.as_slice().to_vec(alloc)?;
        Ok(ScriptWorld {
            disk: MemDisk::new(left, right),
            link: ScriptLink::new(alloc, script),
            refused: 0,
        })
    }

    /// The bytes sent in the present connection, or in the last one where there is none.
    pub fn sent(&self) -> &[u8]
        ensures { result.now ≡ (scripted_of self.now).sent }
    {
        self.link.sent()
    }

    /// How many growths it was refused. The count never falls, and stays at 2^64 - 1, its last
    /// value. No other fault is counted.
    pub fn refused(&self) -> u64
        ensures { result ≡ refused_of self.now }
    {
        self.refused
    }

    // A growth was refused.
    fn refuse(&mut self)
        ensures refused { refused_of self.new ≡ counted (refused_of self.old) }
        ensures disk { self.new.disk ≡ self.old.disk }
        ensures link { self.new.link ≡ self.old.link }
    {
        self.refused = self.refused.saturating_add(1);
    }
}

impl Clocked for ScriptWorld {
    ghost use Rattle.world_mem.specs.ScriptWorlds.{disk_of, disk_faults_of, link_of};

    ghost tells_files = { Unit {0} };

    ghost tells_server = { ⊥ };

    ghost server_with_files = { λ tells. absurd tells };

    ghost clock = { λ world. (disk_of world).clock };

    ghost disk_faults = { λ world. disk_faults_of world };

    ghost link = { λ world. link_of world };
}

impl Disk for ScriptWorld {
    ghost use Rattle.std.specs.Prelude.{OnErr};
    ghost use Rattle.world_traits.specs.Files.{file_of};
    ghost use Rattle.world_traits.specs.Calls.{Rose, Wrote, Synced};
    ghost use Rattle.world_traits.specs.Counts.{CountsFailure};
    ghost use Rattle.world_mem.specs.ScriptWorlds.{disk_of, scripted_of, refused_of, disk_faults_of, seen_sound, LooksOnly};

    ghost seen = { λ world. (disk_of world).files };

    ghost seen_is = { λ world tells. seen_sound world };

    /// The file's length in bytes. It never fails, and changes nothing.
    fn length(&mut self, side: Side) -> Result<u64, DiskFailed>
        ensures value { result ≡ Ok (length (file_of side (disk_of self.old).files)) }
        ensures looks { LooksOnly self.old self.new }
    {
        self.disk.length(side)
    }

    /// Reads from a place into the buffer's front, as many bytes as there are and fit. It never
    /// fails, and changes nothing of the disk.
    fn read(&mut self, side: Side, at: u64, into: &mut [u8]) -> Result<usize, DiskFailed>
        ensures value { result ≡ Ok (min (length into.old)
            (length (file_of side (disk_of self.old).files) - at)) }
        ensures bytes { IfOk result (λ n.
            take n into.new ≡ take n (drop at (file_of side (disk_of self.old).files))) }
        ensures looks { LooksOnly self.old self.new }
    {
        self.disk.read(side, at, into)
    }

    /// Writes the bytes at a place. It fails exactly where it is refused room, and then nothing was
    /// written.
    fn write_at(&mut self, side: Side, at: u64, bytes: &[u8]) -> Result<(), DiskFailed>
        requires { at + length bytes.now ≤ 2 ^ 32 }
        ensures told { Wrote side at bytes.now (disk_of self.old).clock (disk_of self.new).clock
            (disk_of self.old).files (disk_of self.new).files result }
        ensures failed { OnErr result (disk_of self.new ≡ disk_of self.old) }
        ensures count { disk_faults_of self.old ≤ disk_faults_of self.new }
        ensures cause { OnErr result (Rose (disk_faults_of self.old) (disk_faults_of self.new)) }
        ensures faults { CountsFailure result (disk_faults_of self.old) (disk_faults_of self.new) }
        ensures exact { CountsFailure result (refused_of self.old) (refused_of self.new) }
        ensures link { scripted_of self.new ≡ scripted_of self.old }
    {
        if self.disk.write_at(side, at, bytes).is_err() {
            self.refuse();
            return Err(DiskFailed);
        }
        Ok(())
    }

    /// Makes what a read gives the synced bytes. It fails exactly where it is refused room, and
    /// then nothing changed.
    fn sync(&mut self, side: Side) -> Result<(), DiskFailed>
        ensures told { Synced side (disk_of self.old).clock (disk_of self.new).clock
            (disk_of self.old).files (disk_of self.new).files result }
        ensures failed { OnErr result (disk_of self.new ≡ disk_of self.old) }
        ensures count { disk_faults_of self.old ≤ disk_faults_of self.new }
        ensures cause { OnErr result (Rose (disk_faults_of self.old) (disk_faults_of self.new)) }
        ensures faults { CountsFailure result (disk_faults_of self.old) (disk_faults_of self.new) }
        ensures exact { CountsFailure result (refused_of self.old) (refused_of self.new) }
        ensures link { scripted_of self.new ≡ scripted_of self.old }
    {
        if self.disk.sync(side).is_err() {
            self.refuse();
            return Err(DiskFailed);
        }
        Ok(())
    }
}

impl Link for ScriptWorld {
    ghost use Rattle.std.specs.Prelude.{◌<◌, ◌++◌, ◌↔◌, [], ◌∷◌, Some, true, false, OnOk, OnErr, IfSome, IsErr};
    ghost use Rattle.world_traits.specs.Calls.{Rose};
    ghost use Rattle.world_traits.specs.Counts.{CountsFailure};
    ghost use Rattle.world_traits.specs.LinkState.{fresh};
    ghost use Rattle.world_mem.specs.Memory.{SentSome};
    ghost use Rattle.world_mem.specs.Scripted.{coming_in, connection_of};
    ghost use Rattle.world_mem.specs.ScriptWorlds.{disk_of, scripted_of, refused_of, LeavesDisk};

    ghost honest = { λ world tells c is. absurd tells };

    /// Begins a new connection and ends an old one. It fails exactly where it is refused room. The
    /// script goes on from where it was.
    fn connect(&mut self) -> Result<(), LinkFailed>
        ensures done { OnOk result (scripted_of self.new ≡ record (scripted_of self.old) {
          began = (scripted_of self.old).given;
          on = true;
          sent = [];
          earlier = (scripted_of self.old).sent ∷ (scripted_of self.old).earlier;
        }) }
        ensures begins { OnOk result (connection_of (scripted_of self.new) ≡ Some fresh) }
        ensures failed { OnErr result (scripted_of self.new ≡ record (scripted_of self.old) {
          on = false;
          faults = counted (scripted_of self.old).faults;
        }) }
        ensures exact { CountsFailure result (refused_of self.old) (refused_of self.new) }
        ensures disk { self.new.disk ≡ self.old.disk }
        ensures count { (scripted_of self.old).faults ≤ (scripted_of self.new).faults }
        ensures cause { OnErr result
            (Rose (scripted_of self.old).faults (scripted_of self.new).faults) }
    {
        if self.link.connect().is_err() {
            self.refuse();
            return Err(self.link.fail());
        }
        Ok(())
    }

    /// Sends the bytes, and nothing comes of it. It fails exactly where it is refused room, and
    /// then nothing was sent.
    fn send(&mut self, bytes: &[u8]) -> Result<(), LinkFailed>
        ensures done { OnOk result (scripted_of self.new ≡ record (scripted_of self.old) {
          sent = (scripted_of self.old).sent ++ bytes.now;
        }) }
        ensures failed { OnErr result (scripted_of self.new ≡ record (scripted_of self.old) {
          on = false;
          faults = counted (scripted_of self.old).faults;
        }) }
        ensures front { OnErr result
            (SentSome bytes.now (scripted_of self.old).sent (scripted_of self.new).sent) }
        ensures exact { CountsFailure result (refused_of self.old) (refused_of self.new) }
        ensures disk { self.new.disk ≡ self.old.disk }
        ensures count { (scripted_of self.old).faults ≤ (scripted_of self.new).faults }
        ensures cause { OnErr result
            (Rose (scripted_of self.old).faults (scripted_of self.new).faults) }
    {
        if self.link.send(bytes).is_err() {
            self.refuse();
            return Err(self.link.fail());
        }
        Ok(())
    }

    /// Gives from the front of what comes next. It fails exactly where nothing comes: at the
    /// script's end.
    fn recv(&mut self, into: &mut [u8]) -> Result<usize, LinkFailed>
        requires { 0 < length into.old }
        ensures count_is { IfOk result (λ n.
            n ≡ min (length (coming_in (scripted_of self.old))) (length into.old)) }
        ensures some { IfOk result (λ n. 0 < n) }
        ensures fits { IfOk result (λ n. n ≤ length into.old) }
        ensures bytes { IfOk result (λ n.
            take n into.new ≡ take n (coming_in (scripted_of self.old))) }
        ensures done { IfOk result (λ n. scripted_of self.new ≡ record (scripted_of self.old) {
          given = (scripted_of self.old).given + n;
        }) }
        ensures received { IfOk result (λ n. IfSome (connection_of (scripted_of self.old)) (λ c.
            connection_of (scripted_of self.new)
            ≡ Some (record c { received = c.received ++ take n into.new }))) }
        ensures failed { OnErr result (scripted_of self.new ≡ record (scripted_of self.old) {
          on = false;
          faults = counted (scripted_of self.old).faults;
        }) }
        ensures sent { (scripted_of self.new).sent ≡ (scripted_of self.old).sent }
        ensures exact { IsErr result ↔ (coming_in (scripted_of self.old) ≡ []) }
        ensures leaves { LeavesDisk self.old self.new }
        ensures count { (scripted_of self.old).faults ≤ (scripted_of self.new).faults }
        ensures cause { OnErr result
            (Rose (scripted_of self.old).faults (scripted_of self.new).faults) }
    {
        self.link.recv(into)
    }

    /// Ends the connection, where there is one.
    fn close(&mut self)
        ensures now { scripted_of self.new ≡ record (scripted_of self.old) { on = false } }
        ensures leaves { LeavesDisk self.old self.new }
    {
        self.link.close();
    }
}

impl World for ScriptWorld {}
