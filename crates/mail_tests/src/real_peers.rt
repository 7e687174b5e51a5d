//! The world as it is, and a peer of the test's own.

use crate::real_files::{empty_folder, real_world};
use std::io::{Read, Write};
use std::net::{TcpListener, TcpStream};
use std::test::Fail;
use std::{fs, process};
use world_real::{DiskTrouble, RealWorld};
use world_traits::{Disk, Link, LinkFailed, Side};

fn fails_three_times(world: &mut RealWorld<'_, HostRuntime>) -> bool {
    let fails = world.connect() == Err(LinkFailed)
        && world.send(b"C1 CAPABILITY\r\n") == Err(LinkFailed)
        && world.recv(&mut [0]) == Err(LinkFailed);
    world.close();
    fails && world.disk_faults() == 0 && world.link_faults() == 3
}

fn fails_without_its_peer<'a>(rt: &'a HostRuntime, server: &'a str) -> Option<bool> {
    let mut world = real_world(rt, None, Some(server))?;
    Some(fails_three_times(&mut world))
}

fn fails_without_an_address(rt: &HostRuntime) -> Option<bool> {
    let mut world = real_world(rt, None, None)?;
    Some(fails_three_times(&mut world))
}

#[test]
fn a_peer_that_is_not_there_is_a_counted_fault(rt: HostRuntime) -> Result<(), Fail> {
    for server in ["127.0.0.1:1", "[::1]:1", "127.0.0.1"] {
        assert_eq!(rt;
            fails_without_its_peer(&rt, server),
            Some(true),
            "at {server:?}"
        );
    }
    assert_eq!(rt; fails_without_an_address(&rt), Some(true));
    Ok(())
}

// Where a peer is.
fn address_of(rt: &HostRuntime, listener: &TcpListener) -> Option<String> {
    format!(in rt.alloc(); "{}", listener.local_addr().ok()?).ok()
}

// Whether a world and its peer hear each other.
fn hear_each_other(world: &mut RealWorld<'_, HostRuntime>, peer: &mut TcpStream) -> bool {
    let mut buffer = [0; 16];
    peer.write_all(b"* OK\r\n").is_ok()
        && world.recv(&mut buffer) == Ok(6)
        && buffer.starts_with(b"* OK\r\n\0")
        && world.send(b"C1 LOGOUT\r\n").is_ok()
        && matches!(peer.read(&mut buffer), Ok(11))
        && buffer.starts_with(b"C1 LOGOUT\r\n\0")
}

// Whether each call of a world fails once its peer has ended the stream.
fn fails_behind_the_end(world: &mut RealWorld<'_, HostRuntime>) -> bool {
    world.recv(&mut [0; 16]) == Err(LinkFailed)
        && world.send(b"C2 NOOP\r\n") == Err(LinkFailed)
        && world.disk_faults() == 0
        && world.link_faults() == 2
}

fn is_heard(world: &mut RealWorld<'_, HostRuntime>, listener: &TcpListener) -> Option<bool> {
    world.connect().ok()?;
    let mut peer = listener.accept().ok()?.0;
    let hears = hear_each_other(world, &mut peer);
    drop(peer);
    Some(hears && fails_behind_the_end(world))
}

fn is_heard_at<'a>(rt: &'a HostRuntime, listener: &TcpListener, server: &'a str) -> Option<bool> {
    let mut world = real_world(rt, None, Some(server))?;
    is_heard(&mut world, listener)
}

fn is_heard_until_the_end(rt: &HostRuntime, listener: &TcpListener) -> Option<bool> {
    let server = address_of(rt, listener)?;
    is_heard_at(rt, listener, server.as_str())
}

#[test]
fn a_peer_is_heard_until_it_ends_the_stream(rt: HostRuntime) -> Result<(), Fail> {
    if let Ok(listener) = TcpListener::bind(&rt, "127.0.0.1:0") {
        assert_eq!(rt; is_heard_until_the_end(&rt, &listener), Some(true));
    }
    Ok(())
}

// Puts another file in the place of one.
fn is_replaced(rt: &HostRuntime, path: &str) -> bool {
    fs::remove_file(rt, path).is_ok() && fs::write(rt, path, b"").is_ok()
}

// Whether a world sends a line, and none once another file has the name of its journal's.
fn sends_once(rt: &HostRuntime, world: &mut RealWorld<'_, HostRuntime>, left: &str) -> bool {
    world.sync(Side::Left).is_ok()
        && world.connect().is_ok()
        && world.send(b"C1 NOOP\r\n").is_ok()
        && is_replaced(rt, left)
        && world.send(b"C2 NOOP\r\n") == Err(LinkFailed)
        && world.disk_trouble() == Some(DiskTrouble::Replaced)
}

// How many bytes come at a peer, and how many then.
fn heard(listener: &TcpListener) -> Option<(usize, usize)> {
    let mut buffer = [0; 32];
    let mut peer = listener.accept().ok()?.0;
    let first = peer.read(&mut buffer).ok()?;
    let second = peer.read(&mut buffer).ok()?;
    Some((first, second))
}

fn is_sent_one_line<'a>(
    rt: &'a HostRuntime,
    listener: &TcpListener,
    server: &'a str,
    path: &'a str,
) -> Option<bool> {
    let left = format!(in rt.alloc(); "{path}/journal.0").ok()?;
    let mut world = real_world(rt, Some(path), Some(server))?;
    let sends = sends_once(rt, &mut world, left.as_str());
    Some(sends && heard(listener) == Some((9, 0)))
}

fn sends_for_one_journal(rt: &HostRuntime, listener: &TcpListener) -> Option<bool> {
    let server = address_of(rt, listener)?;
    let path = empty_folder(rt, "replaced", process::id(rt.process()))?;
    let sends = is_sent_one_line(rt, listener, server.as_str(), path.as_str())?;
    fs::remove_dir_all(rt, path.as_str()).ok()?;
    Some(sends)
}

#[test]
fn nothing_is_sent_where_the_journal_was_replaced(rt: HostRuntime) -> Result<(), Fail> {
    if let Ok(listener) = TcpListener::bind(&rt, "127.0.0.1:0") {
        assert_eq!(rt; sends_for_one_journal(&rt, &listener), Some(true));
    }
    Ok(())
}
