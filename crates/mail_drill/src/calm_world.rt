//! The world of a drill's last round: one in which nothing fails.

ghost use Rattle.std.specs.Prelude.{◌≡◌};
ghost use Rattle.world_mem.specs.Worlds.{run_in, planned_of, disk_faults_of, link_of, course_of};
ghost use Rattle.mail_drill.specs.Misfortunes.{nothing_fails};

use crate::quiet_world::QuietWorld;
use world_traits::{Clocked, Disk, DiskFailed, Link, LinkFailed, Side, World};

/// A drill's world with a plan by which nothing fails. Whoever has it for a disk and a link can't give it another plan; that of a
/// `QuietWorld`, which `run` hands back, could be any.
#[derive(Drop)]
pub struct CalmWorld {
    quiet: QuietWorld,
    ghost calm: { (planned_of quiet.world).plan ≡ nothing_fails },
}

impl CalmWorld {
    /// The world, whose plan is that nothing fails.
    pub fn new(quiet: QuietWorld) -> CalmWorld
        requires { (planned_of quiet.world).plan ≡ nothing_fails }
        ensures { result.quiet ≡ quiet }
    {
        CalmWorld { quiet }
    }

    /// The world alone.
    pub fn into_quiet(self) -> QuietWorld
        ensures { result ≡ self.quiet }
    {
        self.quiet
    }

    /// Whether memory was wanting in one of its calls.
    pub fn is_short(&self) -> bool
        ensures { result ≡ self.now.quiet.short }
    {
        self.quiet.is_short()
    }
}

impl Clocked for CalmWorld {
    ghost tells_files = { Unit {0} };

    ghost tells_server = { Unit {0} };

    ghost server_with_files = { λ tells. tells };

    ghost clock = { λ calm. (run_in calm.quiet.world).clock };

    ghost disk_faults = { λ calm. disk_faults_of calm.quiet.world };

    ghost link = { λ calm. link_of calm.quiet.world };
}

impl Disk for CalmWorld {
    ghost use Rattle.world_mem.specs.Worlds.{seen_sound};

    ghost seen = { λ calm. (run_in calm.quiet.world).seen };

    ghost seen_is = { λ calm tells. seen_sound (course_of calm.quiet.world) };

    fn length(&mut self, side: Side) -> Result<u64, DiskFailed> {
        self.quiet.length(side)
    }

    fn read(&mut self, side: Side, at: u64, into: &mut [u8]) -> Result<usize, DiskFailed> {
        self.quiet.read(side, at, into)
    }

    fn write_at(&mut self, side: Side, at: u64, bytes: &[u8]) -> Result<(), DiskFailed> {
        self.quiet.write_at(side, at, bytes)
    }

    fn sync(&mut self, side: Side) -> Result<(), DiskFailed> {
        self.quiet.sync(side)
    }
}

impl Link for CalmWorld {
    ghost use Rattle.world_mem.specs.Honest.{honest};

    ghost honest = { λ calm tells c is. honest (course_of calm.quiet.world) c is };

    fn connect(&mut self) -> Result<(), LinkFailed> {
        self.quiet.connect()
    }

    fn send(&mut self, bytes: &[u8]) -> Result<(), LinkFailed> {
        self.quiet.send(bytes)
    }

    fn recv(&mut self, into: &mut [u8]) -> Result<usize, LinkFailed> {
        self.quiet.recv(into)
    }

    fn close(&mut self) {
        self.quiet.close();
    }
}

impl World for CalmWorld {}
