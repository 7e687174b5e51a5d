//! The folder and the server as a world, which counts its faults and tells nothing of content.

ghost use Rattle.std.specs.Prelude.{◌≡◌, ◌≤◌, false};
ghost use Rattle.world_traits.specs.Counts.{counted};

use crate::disk_trouble::DiskTrouble;
use crate::folder::Folder;
use crate::link_trouble::LinkTrouble;
use crate::server::Server;
use std::fs::{File, Files};
use std::marker::Model;
use std::net::{Net, TcpStream};
use std::time::Clock;
use world_traits::{Clocked, Disk, DiskFailed, Link, LinkFailed, Side, World};

/// The journal's two files in a folder, and a TCP stream to a server. A file is opened, or made, at the first call that needs
/// it, and the journal is locked by the first call of the disk, up to the end of this value; a failure there is a fault of
/// that call. A name is looked up by each `connect`.
///
/// Contracts see its counts. A call fails exactly where the count of its half goes on, and leaves the other one.
#[derive(Drop)]
pub struct RealWorld<'a, R: Files<File = File> + Net<Stream = TcpStream> + Clock + AllocGlobal> {
    folder: Folder<'a, R>,
    server: Server<'a, R>,
    disk_faults: u64,
    link_faults: u64,
}

impl<'a, R: Files<File = File> + Net<Stream = TcpStream> + Clock + AllocGlobal> Model
    for RealWorld<'a, R> {
    ghost use Rattle.world_real.specs.Faults.{Faults};

    ghost Value = { Faults };

    ghost view = { λ world. record {
      disk = world.disk_faults;
      link = world.link_faults;
      in_use = world.folder.in_use;
    } };
}

impl<'a, R: Files<File = File> + Net<Stream = TcpStream> + Clock + AllocGlobal> RealWorld<'a, R> {
    /// The folder at a path, and the server at `HOST:PORT`, where HOST is a name, an IPv4 address, or an IPv6 address, with or
    /// without brackets. It opens nothing and takes no memory. Where the folder is `None` each call of the disk fails, and
    /// where the server is `None` each `connect`.
    pub fn new(rt: &'a R, folder: Option<&'a str>, server: Option<&'a str>) -> RealWorld<'a, R>
        ensures { result ≡ record { disk = 0; link = 0; in_use = false } }
    {
        RealWorld {
            folder: Folder::new(rt, folder),
            server: Server::new(rt, server, folder),
            disk_faults: 0,
            link_faults: 0,
        }
    }

    /// How often the disk has failed. The count stays at 2^64 - 1, its last value.
    pub fn disk_faults(&self) -> u64
        ensures { result ≡ self.now.disk }
    {
        self.disk_faults
    }

    /// How often the link has failed. The count stays at 2^64 - 1, its last value.
    pub fn link_faults(&self) -> u64
        ensures { result ≡ self.now.link }
    {
        self.link_faults
    }

    /// Lets this value only read the journal from now on, as it stands at the first call of the disk: it makes no file, and
    /// needs no lock and no right to write; a write fails. Where a sync has failed it works as before.
    pub fn only_read(&mut self)
        ensures same { self.new ≡ self.old }
    {
        self.folder.only_read();
    }

    /// Lets each connection that is made from now on become so many seconds old, where it would else be a day.
    pub fn limit_connections(&mut self, seconds: u64)
        ensures same { self.new ≡ self.old }
    {
        self.server.limit(seconds);
    }

    /// Leaves no mark from now on of what is under way to the server.
    pub fn mark_nothing(&mut self)
        ensures same { self.new ≡ self.old }
    {
        self.server.mark_nothing();
    }

    /// Why the last call of the link that failed did so, where the line is the cause.
    pub fn link_trouble(&self) -> Option<LinkTrouble> {
        self.server.trouble()
    }

    /// What a user has to know of the journal's files, where a call failed by it.
    pub fn disk_trouble(&self) -> Option<DiskTrouble> {
        self.folder.trouble()
    }

    /// Whether another run used the journal when this one wanted to. That was a fault of the disk, and nothing was written.
    pub fn is_in_use(&self) -> bool
        ensures { result ≡ self.now.in_use }
    {
        self.folder.is_in_use()
    }

    // Counts a fault of the disk, and gives it as the answer of a call.
    fn disk_failed(&mut self) -> DiskFailed
        ensures counts { self.new ≡ record self.old { disk = counted self.old.disk } }
        ensures count { self.old.disk ≤ self.new.disk }
    {
        self.disk_faults = self.disk_faults.saturating_add(1);
        DiskFailed
    }

    // Counts a fault of the link, and gives it as the answer of a call.
    fn link_failed(&mut self) -> LinkFailed
        ensures counts { self.new ≡ record self.old { link = counted self.old.link } }
        ensures count { self.old.link ≤ self.new.link }
    {
        self.link_faults = self.link_faults.saturating_add(1);
        LinkFailed
    }
}

impl<'a, R: Files<File = File> + Net<Stream = TcpStream> + Clock + AllocGlobal> Clocked
    for RealWorld<'a, R> {
    ghost use Rattle.std.specs.Prelude.{[]};
    ghost use Rattle.world_traits.specs.LinkState.{failed_link};
    ghost use Rattle.world_traits.specs.Replay.{start};

    ghost tells_files = { ⊥ };

    ghost tells_server = { ⊥ };

    ghost server_with_files = { λ tells. tells };

    ghost clock = { λ _. (start [] []).clock };

    ghost disk_faults = { λ world. world.disk };

    ghost link = { λ world. failed_link world.link };
}

impl<'a, R: Files<File = File> + Net<Stream = TcpStream> + Clock + AllocGlobal> Disk
    for RealWorld<'a, R> {
    ghost use Rattle.std.specs.Prelude.{◌≡◌, ◌≤◌, ◌+◌, ◌^◌, [], length, IfOk, OnOk, OnErr};
    ghost use Rattle.world_traits.specs.Calls.{Rose};
    ghost use Rattle.world_traits.specs.Counts.{CountsFailure};

    ghost seen = { λ _. record { left = []; right = [] } };

    ghost seen_is = { λ disk tells. absurd tells };

    /// The file's length in bytes. It fails exactly where the count of the disk's faults goes on.
    fn length(&mut self, side: Side) -> Result<u64, DiskFailed>
        ensures exact { CountsFailure result self.old.disk self.new.disk }
        ensures count { self.old.disk ≤ self.new.disk }
        ensures cause { OnErr result (Rose self.old.disk self.new.disk) }
        ensures link { self.new.link ≡ self.old.link }
        ensures in_use { OnOk result (self.new.in_use ≡ self.old.in_use) }
    {
        match self.folder.length(side) {
            Ok(length) => Ok(length),
            Err(_) => Err(self.disk_failed()),
        }
    }

    /// Reads from a place into the buffer's front until it is full or the file ends, and answers how many bytes. It fails
    /// exactly where the count of the disk's faults goes on.
    fn read(&mut self, side: Side, at: u64, into: &mut [u8]) -> Result<usize, DiskFailed>
        ensures fits { IfOk result (λ n. n ≤ length into.old) }
        ensures exact { CountsFailure result self.old.disk self.new.disk }
        ensures count { self.old.disk ≤ self.new.disk }
        ensures cause { OnErr result (Rose self.old.disk self.new.disk) }
        ensures link { self.new.link ≡ self.old.link }
        ensures in_use { OnOk result (self.new.in_use ≡ self.old.in_use) }
    {
        match self.folder.read(side, at, into) {
            Ok(count) => Ok(count),
            Err(_) => Err(self.disk_failed()),
        }
    }

    /// Writes the bytes at a place. It fails exactly where the count of the disk's faults goes on.
    fn write_at(&mut self, side: Side, at: u64, bytes: &[u8]) -> Result<(), DiskFailed>
        requires { at + length bytes.now ≤ 2 ^ 32 }
        ensures exact { CountsFailure result self.old.disk self.new.disk }
        ensures count { self.old.disk ≤ self.new.disk }
        ensures cause { OnErr result (Rose self.old.disk self.new.disk) }
        ensures link { self.new.link ≡ self.old.link }
        ensures in_use { OnOk result (self.new.in_use ≡ self.old.in_use) }
    {
        match self.folder.write_at(side, at, bytes) {
            Ok(()) => Ok(()),
            Err(_) => Err(self.disk_failed()),
        }
    }

    /// Makes what a read gives the synced bytes. It fails exactly where the count of the disk's faults goes on.
    fn sync(&mut self, side: Side) -> Result<(), DiskFailed>
        ensures exact { CountsFailure result self.old.disk self.new.disk }
        ensures count { self.old.disk ≤ self.new.disk }
        ensures cause { OnErr result (Rose self.old.disk self.new.disk) }
        ensures link { self.new.link ≡ self.old.link }
        ensures in_use { OnOk result (self.new.in_use ≡ self.old.in_use) }
    {
        match self.folder.sync(side) {
            Ok(()) => Ok(()),
            Err(_) => Err(self.disk_failed()),
        }
    }
}

impl<'a, R: Files<File = File> + Net<Stream = TcpStream> + Clock + AllocGlobal> Link
    for RealWorld<'a, R> {
    ghost use Rattle.std.specs.Prelude.{◌≡◌, ◌≤◌, ◌<◌, length, IfOk, OnErr};
    ghost use Rattle.world_traits.specs.Calls.{Rose};
    ghost use Rattle.world_traits.specs.Counts.{CountsFailure};

    ghost honest = { λ world tells c is. absurd tells };

    /// Ends an old connection, and makes a new one within 60 seconds for each address of the server. It fails exactly where
    /// the count of the link's faults goes on.
    fn connect(&mut self) -> Result<(), LinkFailed>
        ensures exact { CountsFailure result self.old.link self.new.link }
        ensures count { self.old.link ≤ self.new.link }
        ensures cause { OnErr result (Rose self.old.link self.new.link) }
        ensures disk { self.new.disk ≡ self.old.disk }
        ensures in_use { self.new.in_use ≡ self.old.in_use }
    {
        match self.server.connect() {
            Ok(()) => Ok(()),
            Err(_) => Err(self.link_failed()),
        }
    }

    /// Sends all the bytes. It fails exactly where the count of the link's faults goes on, also where the server takes no byte
    /// for as long as there is patience, and where another journal stands in place of the one that was opened: then nothing is
    /// sent, and the connection is ended.
    fn send(&mut self, bytes: &[u8]) -> Result<(), LinkFailed>
        ensures exact { CountsFailure result self.old.link self.new.link }
        ensures count { self.old.link ≤ self.new.link }
        ensures cause { OnErr result (Rose self.old.link self.new.link) }
        ensures disk { self.new.disk ≡ self.old.disk }
        ensures in_use { self.new.in_use ≡ self.old.in_use }
    {
        if !self.folder.is_in_place() {
            self.server.close();
            return Err(self.link_failed());
        }
        match self.server.send(bytes) {
            Ok(()) => Ok(()),
            Err(_) => Err(self.link_failed()),
        }
    }

    /// Waits for what the server sends, and answers how many bytes of it stand at the buffer's front, at least one. It fails
    /// exactly where the count of the link's faults goes on, also where the server ends the stream or sends no byte for as long
    /// as there is patience.
    fn recv(&mut self, into: &mut [u8]) -> Result<usize, LinkFailed>
        requires room { 0 < length into.old }
        ensures some { IfOk result (λ n. 0 < n) }
        ensures fits { IfOk result (λ n. n ≤ length into.old) }
        ensures exact { CountsFailure result self.old.link self.new.link }
        ensures count { self.old.link ≤ self.new.link }
        ensures cause { OnErr result (Rose self.old.link self.new.link) }
        ensures disk { self.new.disk ≡ self.old.disk }
        ensures in_use { self.new.in_use ≡ self.old.in_use }
    {
        match self.server.recv(into) {
            Ok(count) => Ok(count),
            Err(_) => Err(self.link_failed()),
        }
    }

    /// Ends the connection, where there is one. It never fails.
    fn close(&mut self)
        ensures same { self.new ≡ self.old }
    {
        self.server.close();
    }
}

impl<'a, R: Files<File = File> + Net<Stream = TcpStream> + Clock + AllocGlobal> World
    for RealWorld<'a, R> {}
