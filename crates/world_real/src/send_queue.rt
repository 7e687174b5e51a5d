//! What the system still holds of what was sent on a stream.

use std::fs;
use std::fs::{File, Files};
use std::io::Read;
use std::os::unix::fs::MetadataExt;

// Where Linux tells of the streams of this process, over IPv4 and over IPv6.
const TABLES: [&str; 2] = ["/proc/self/net/tcp", "/proc/self/net/tcp6"];

// The words of a row, counted from 0, that hold `SENT:RECEIVED`, both waiting and in hexadecimal digits, and the number of
// the stream's node.
const WAITING: usize = 4;

const NODE: usize = 9;

/// How many bytes of an open stream with this number the other end's system hasn't acknowledged yet. `None` where the
/// system doesn't tell it.
pub fn unacknowledged<R: Files<File = File> + AllocGlobal>(rt: &R, number: i32) -> Option<u64> {
    let path = format!(in rt.alloc(); "/proc/self/fd/{number}").ok()?;
    let node = fs::metadata(rt, path.as_str()).ok()?.ino();
    for table in TABLES {
        if let Some(bytes) = told_in(rt, table, node) {
            return Some(bytes);
        }
    }
    None
}

// What a table tells of the stream with this node.
fn told_in<R: Files<File = File> + AllocGlobal>(rt: &R, table: &str, node: u64) -> Option<u64> {
    let rows = fs::read_to_string(rt, table).ok()?;
    for row in rows.lines() {
        if node_of(row) == Some(node) {
            return waiting_of(row);
        }
    }
    None
}

// The number of a row's node.
fn node_of(row: &str) -> Option<u64> {
    row.split_ascii_whitespace().nth(NODE)?.parse::<u64>().ok()
}

// How many bytes a row tells that wait to be acknowledged.
fn waiting_of(row: &str) -> Option<u64> {
    let (sent, _) = row.split_ascii_whitespace().nth(WAITING)?.split_once(':')?;
    u64::from_str_radix(sent, 16).ok()
}
