//! A world that tells nothing of content, and counts its faults: the form of the real edge.

use std::test::Fail;
use world_traits::{Clocked, Disk, DiskFailed, Link, LinkFailed, NoLink, Side, World};

// A disk whose lengths and writes fail, and of whose reads and syncs nothing is known, and a link
// that makes a connection, gives a byte, and fails to send.
#[derive(Drop)]
struct SilentDisk {
    faults: u64,
    link: NoLink,
}

impl SilentDisk {
    ghost use Rattle.std.specs.Prelude.{◌≡◌, ◌≤◌};
    ghost use Rattle.world_traits.specs.Calls.{Rose};

    // Counts a fault, up to the last value of the count.
    fn fail(&mut self)
        ensures grows { self.old.faults ≤ self.new.faults }
        ensures rose { Rose self.old.faults self.new.faults }
        ensures link { self.new.link ≡ self.old.link }
    {
        self.faults = self.faults.saturating_add(1);
    }
}

impl Clocked for SilentDisk {
    ghost use Rattle.std.specs.Prelude.{[]};
    ghost use Rattle.world_traits.specs.LinkState.{failed_link};
    ghost use Rattle.world_traits.specs.Replay.{start};

    ghost tells_files = { ⊥ };

    ghost tells_server = { ⊥ };

    ghost server_with_files = { λ tells. tells };

    ghost clock = { λ disk. (start [] []).clock };

    ghost disk_faults = { λ disk. disk.faults };

    ghost link = { λ disk. failed_link disk.link };
}

impl Disk for SilentDisk {
    ghost use Rattle.std.specs.Prelude.{[]};

    ghost seen = { λ disk. record { left = []; right = [] } };

    ghost seen_is = { λ disk tells. absurd tells };

    fn length(&mut self, _side: Side) -> Result<u64, DiskFailed> {
        self.fail();
        Err(DiskFailed)
    }

    fn read(&mut self, _side: Side, _at: u64, into: &mut [u8]) -> Result<usize, DiskFailed> {
        Ok(into.len())
    }

    fn write_at(&mut self, _side: Side, _at: u64, _bytes: &[u8]) -> Result<(), DiskFailed> {
        self.fail();
        Err(DiskFailed)
    }

    fn sync(&mut self, _side: Side) -> Result<(), DiskFailed> {
        Ok(())
    }
}

impl Link for SilentDisk {
    ghost honest = { λ disk tells c is. absurd tells };

    fn connect(&mut self) -> Result<(), LinkFailed> {
        Ok(())
    }

    fn send(&mut self, _bytes: &[u8]) -> Result<(), LinkFailed> {
        Err(self.link.fail())
    }

    fn recv(&mut self, into: &mut [u8]) -> Result<usize, LinkFailed> {
        into[0] = b'*';
        Ok(1)
    }

    fn close(&mut self) {}
}

impl World for SilentDisk {}

// Connects, receives a piece of the greeting, sends a line, and closes.
fn talk_once<L: Link>(link: &mut L) -> Result<usize, LinkFailed> {
    link.connect()?;
    let count = link.recv(&mut [0, 0])?;
    link.send(b"C1 CAPABILITY\r\n")?;
    link.close();
    Ok(count)
}

// Connects, sends a whole command, and receives a piece of what is due behind it.
fn ask_once<L: Link>(link: &mut L) -> Result<usize, LinkFailed> {
    link.connect()?;
    link.send(b"C1 CAPABILITY\r\n")?;
    link.recv(&mut [0, 0])
}

// Asks for everything once.
fn ask_all<W: World>(world: &mut W) -> (bool, bool, bool, bool) {
    let length = world.length(Side::Left).is_ok();
    let read = world.read(Side::Left, 0, &mut [0]).is_ok();
    let write = world.write_at(Side::Left, 0, &[1]).is_ok();
    (length, read, write, world.sync(Side::Left).is_ok())
}

#[test]
fn the_traits_can_be_met_at_the_edge(rt: HostRuntime) -> Result<(), Fail> {
    let mut disk = SilentDisk {
        faults: 0,
        link: NoLink::new(),
    };
    assert_eq!(rt; ask_all(&mut disk), (false, true, false, true));
    assert_eq!(rt; talk_once(&mut disk), Err(LinkFailed));
    assert_eq!(rt; ask_once(&mut disk), Err(LinkFailed));
    assert_eq!(rt; (disk.faults, disk.link.faults()), (2, 2));
    Ok(())
}
