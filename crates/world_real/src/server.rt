//! The server, and the one connection to it.

ghost use Rattle.std.specs.Prelude.{◌≡◌, ◌≤◌, ◌<◌, None, length, IfOk, OnOk, OnErr, IsNone, IsSome};

use crate::connection::Connection;
use crate::link_trouble::LinkTrouble;
use crate::sent_mark;
use std::fs::{File, Files};
use std::net::{Net, TcpStream};
use std::time::Clock;

// A part of more bytes than so many is a letter, or as long as one: it is marked, and its last CRLF waits for the rest.
const LONG_PART: usize = 4_096;

// How old a connection may become where nobody says it: a day.
const MOST_SECONDS: u64 = 86_400;

const CRLF: &[u8] = b"\r\n";

/// A server at an address, and the connection to it, where there is one. After a call that failed there is none.
#[derive(Drop)]
pub struct Server<'a, R: Files<File = File> + Net<Stream = TcpStream> + Clock + AllocGlobal> {
    rt: &'a R,
    address: Option<&'a str>,
    marks: Option<&'a str>,
    most: u64,
    connection: Option<Connection>,
    is_marked: bool,
    trouble: Option<LinkTrouble>,
}

impl<'a, R: Files<File = File> + Net<Stream = TcpStream> + Clock + AllocGlobal> Server<'a, R> {
    /// The server at `HOST:PORT`. There is no connection yet, and nothing is looked up. At `None` it can't be reached. What
    /// is under way is marked in a folder, where one is given.
    pub fn new(rt: &'a R, address: Option<&'a str>, marks: Option<&'a str>) -> Server<'a, R>
        ensures unconnected { IsNone result.connection }
    {
        Server {
            rt,
            address,
            marks,
            most: MOST_SECONDS,
            connection: None,
            is_marked: false,
            trouble: None,
        }
    }

    /// Lets each connection that is made from now on become so many seconds old.
    pub fn limit(&mut self, seconds: u64)
        ensures { self.new ≡ record self.old { most = seconds } }
    {
        self.most = seconds;
    }

    /// Marks nothing of what is under way from now on.
    pub fn mark_nothing(&mut self)
        ensures { self.new ≡ record self.old { marks = None } }
    {
        self.marks = None;
    }

    /// Why the last call that failed did so.
    pub fn trouble(&self) -> Option<LinkTrouble>
        ensures { result ≡ self.now.trouble }
    {
        self.trouble
    }

    /// Ends an old connection, and makes a new one.
    pub fn connect(&mut self) -> Result<(), LinkTrouble>
        ensures made { OnOk result (IsSome self.new.connection) }
        ensures lost { OnErr result (IsNone self.new.connection) }
    {
        self.close();
        let made = match self.address {
            Some(address) => Connection::open(self.rt, address, self.most),
            None => Err(LinkTrouble::NoAddress),
        };
        match made {
            Ok(connection) => {
                self.connection = Some(connection);
                Ok(())
            }
            Err(trouble) => Err(self.failed(trouble)),
        }
    }

    /// Sends all the bytes. After an error some of them went out. A long part is marked before it is sent, and its CRLF
    /// goes out once all before it has arrived, where the system tells that.
    pub fn send(&mut self, bytes: &[u8]) -> Result<(), LinkTrouble>
        ensures kept { OnOk result (IsSome self.new.connection) }
        ensures lost { OnErr result (IsNone self.new.connection) }
    {
        let Some(mut connection) = self.connection.take() else {
            return Err(LinkTrouble::Unconnected);
        };
        let sent = if bytes.len() > LONG_PART {
            self.send_long(&mut connection, bytes)
        } else {
            connection.send(self.rt, bytes)
        };
        match sent {
            Ok(()) => {
                self.connection = Some(connection);
                Ok(())
            }
            Err(trouble) => Err(self.failed(trouble)),
        }
    }

    /// Waits for bytes of the server, and gives how many stand at the buffer's front: at least one.
    pub fn recv(&mut self, into: &mut [u8]) -> Result<usize, LinkTrouble>
        ensures some { IfOk result (λ n. 0 < n) }
        ensures fits { IfOk result (λ n. n ≤ length into.old) }
        ensures kept { OnOk result (IsSome self.new.connection) }
        ensures lost { OnErr result (IsNone self.new.connection) }
    {
        let Some(mut connection) = self.connection.take() else {
            return Err(LinkTrouble::Unconnected);
        };
        match connection.recv(self.rt, into) {
            Ok(count) => {
                self.unmark();
                self.connection = Some(connection);
                Ok(count)
            }
            Err(trouble) => Err(self.failed(trouble)),
        }
    }

    /// Ends the connection, where there is one.
    pub fn close(&mut self)
        ensures ended { IsNone self.new.connection }
    {
        if let Some(connection) = self.connection.take() {
            connection.close();
        }
    }

    // Sends a long part: its CRLF once the rest has arrived.
    fn send_long(&mut self, connection: &mut Connection, bytes: &[u8]) -> Result<(), LinkTrouble>
        ensures { self.new.connection ≡ self.old.connection }
    {
        let in_all = connection.under_way().saturating_add(bytes.len() as u64);
        let front = bytes.strip_suffix(CRLF).unwrap_or(bytes);
        self.mark(in_all, false)?;
        connection.long_begins();
        connection.send(self.rt, front)?;
        connection.drain(self.rt)?;
        self.mark(in_all, true)?;
        connection.send(self.rt, &bytes[front.len()..])
    }

    // Marks what is under way, and whether a command's end is.
    fn mark(&mut self, bytes: u64, is_whole: bool) -> Result<(), LinkTrouble>
        ensures { self.new.connection ≡ self.old.connection }
    {
        let Some(folder) = self.marks else {
            return Ok(());
        };
        if sent_mark::put(self.rt, folder, bytes, is_whole).is_err() {
            return Err(LinkTrouble::NoMark);
        }
        self.is_marked = true;
        Ok(())
    }

    // Takes the mark away, where this value put one.
    fn unmark(&mut self)
        ensures { self.new.connection ≡ self.old.connection }
    {
        if !self.is_marked {
            return;
        }
        if let Some(folder) = self.marks {
            sent_mark::take_away(self.rt, folder);
        }
        self.is_marked = false;
    }

    // Keeps why a call failed, and gives it.
    fn failed(&mut self, trouble: LinkTrouble) -> LinkTrouble
        ensures { self.new.connection ≡ self.old.connection }
    {
        self.trouble = Some(trouble);
        trouble
    }
}
