//! The world of a server that leaves APPENDUID out, as no lawful server does (RFC 4315, section 3).

ghost use Rattle.std.specs.Prelude.{◌≡◌, false, IfOk};
ghost use Rattle.mail_scenario.specs.Muted.{disk_of};
ghost use Rattle.world_traits.specs.Replay.{start};

use crate::muted_link::MutedLink;
use imap_model::{Change, Server};
use mail_base::BoxName;
use server_mem::{ForeignFault, MemServer};
use std::alloc::{AllocError, Global};
use world_mem::Files;
use world_traits::{Clocked, Disk, DiskFailed, Link, LinkFailed, MemDisk, Side, World};

/// Two files in memory, a muted server, and the connection to it. Nothing fails in it by a plan.
///
/// It tells its files, so what a run promises of them holds over it. It tells no server: that a
/// world does, and that its server is a lawful one, is a fact of its type.
#[derive(Drop)]
pub struct MutedWorld {
    disk: MemDisk,
    link: MutedLink,
}

impl MutedWorld {
    /// The world of this server, which is muted from now on, and of these files, which count as
    /// synced. Nothing is connected.
    pub fn new(alloc: Global, server: MemServer, files: Files) -> Result<MutedWorld, AllocError>
        requires { server.failed ≡ false }
        ensures { IfOk result (λ world. disk_of world ≡ start files.left files.right) }
    {
        let left = files.left.as_slice().to_vec(alloc)?;
        let right = files.right.as_slice().to_vec(alloc)?;
        Ok(MutedWorld {
            disk: MemDisk::new(left, right),
            link: MutedLink::new(alloc, server),
        })
    }

    /// How often it was refused room.
    pub fn refused(&self) -> u64 {
        self.disk.refused().saturating_add(self.link.refused())
    }

    /// The bytes sent in the present connection, or in the last one where there is none.
    pub fn sent(&self) -> &[u8] {
        self.link.sent()
    }

    /// The server.
    pub fn server(&self) -> &Server {
        self.link.server()
    }

    /// Another client changes the server.
    pub fn foreign(&mut self, name: &BoxName, change: &Change) -> Result<(), ForeignFault> {
        self.link.foreign(name, change)
    }
}

impl Clocked for MutedWorld {
    ghost use Rattle.mail_scenario.specs.Muted.{disk_of, disk_faults_of};

    ghost tells_files = { Unit {0} };

    ghost tells_server = { ⊥ };

    ghost server_with_files = { λ tells. absurd tells };

    ghost clock = { λ world. (disk_of world).clock };

    ghost disk_faults = { λ world. disk_faults_of world };

    ghost link = { λ world. world.link };
}

impl Disk for MutedWorld {
    ghost use Rattle.mail_scenario.specs.Muted.{disk_of, seen_sound};

    ghost seen = { λ world. (disk_of world).files };

    ghost seen_is = { λ world tells. seen_sound world };

    fn length(&mut self, side: Side) -> Result<u64, DiskFailed> {
        self.disk.length(side)
    }

    fn read(&mut self, side: Side, at: u64, into: &mut [u8]) -> Result<usize, DiskFailed> {
        self.disk.read(side, at, into)
    }

    fn write_at(&mut self, side: Side, at: u64, bytes: &[u8]) -> Result<(), DiskFailed> {
        self.disk.write_at(side, at, bytes)
    }

    fn sync(&mut self, side: Side) -> Result<(), DiskFailed> {
        self.disk.sync(side)
    }
}

impl Link for MutedWorld {
    ghost honest = { λ world tells c is. absurd tells };

    fn connect(&mut self) -> Result<(), LinkFailed> {
        self.link.connect()
    }

    fn send(&mut self, bytes: &[u8]) -> Result<(), LinkFailed> {
        self.link.send(bytes)
    }

    fn recv(&mut self, into: &mut [u8]) -> Result<usize, LinkFailed> {
        self.link.recv(into)
    }

    fn close(&mut self) {
        self.link.close();
    }
}

impl World for MutedWorld {}
