//! One TCP stream to a server.

ghost use Rattle.std.specs.Prelude.{◌≤◌, ◌<◌, length, IfOk};
ghost use Rattle.std.specs.Net.Tcp.{stream_raw_fd};
ghost use Rattle.world_real.specs.Numbers.{IsLater};

use crate::link_trouble::{LinkTrouble, broken, unmade};
use crate::patience::{Patience, STILL_SECONDS};
use crate::send_queue::unacknowledged;
use crate::standard_numbers::is_standard;
use std::fs::{File, Files};
use std::io::{ErrorKind, Read, Write};
use std::net::{Net, Shutdown, SocketAddr, TcpStream, ToSocketAddrs};
use std::os::fd::AsRawFd;
use std::time::{Clock, Duration, Instant};
use std::{io, thread};

// How many bytes are handed to the system at once. Before each piece it is looked whether there is time left.
const PIECE: usize = 65_536;

// How often the system is asked whether all that was sent has arrived.
const LOOK_MILLISECONDS: u64 = 20;

/// A stream that has no number of a standard stream. A call that waits longer than the connection's patience fails.
#[derive(Drop)]
pub struct Connection {
    stream: TcpStream,
    begun: Instant,
    patience: Patience,
    received: u64,
    ghost later: { IsLater (stream_raw_fd stream) },
}

impl Connection {
    /// Connects to the server at `HOST:PORT`, for at most so many seconds. The addresses of a name are tried in the order
    /// that the system gives, and the first one that answers is taken.
    pub fn open<R: Net<Stream = TcpStream> + Clock>(
        rt: &R,
        address: &str,
        most: u64,
    ) -> Result<Connection, LinkTrouble> {
        let places = match address.to_socket_addrs(rt) {
            Ok(places) => places,
            Err(error) if error.kind() == ErrorKind::InvalidInput => return Err(
                LinkTrouble::NoAddress,
            ),
            Err(_) => return Err(LinkTrouble::NoHost),
        };
        let mut trouble = LinkTrouble::NoHost;
        for place in places {
            match Connection::reach(rt, place, most) {
                Ok(connection) => return Ok(connection),
                Err(error) => trouble = unmade(error.kind()),
            }
        }
        Err(trouble)
    }

    // Connects to one address. A stream that got the number of a standard stream is closed again.
    fn reach<R: Net<Stream = TcpStream> + Clock>(
        rt: &R,
        place: SocketAddr,
        most: u64,
    ) -> io::Result<Connection> {
        let begun = Instant::now(rt)?;
        let wait = Duration::from_secs(STILL_SECONDS.min(most));
        let stream = TcpStream::connect_timeout(rt, &place, wait)?;
        if is_standard(stream.as_raw_fd()) {
            return Err(io::Error::from(ErrorKind::Other));
        }
        // A command's last part goes out at once, and doesn't wait for what follows.
        stream.set_nodelay(true)?;
        Ok(Connection {
            stream,
            begun,
            patience: Patience::new(most),
            received: 0,
        })
    }

    /// How many bytes were sent since the last one was received.
    pub fn under_way(&self) -> u64 {
        self.patience.under_way()
    }

    /// A long part is sent from now on: the server is waited for longer.
    pub fn long_begins(&mut self) {
        self.patience.long_begins();
    }

    /// Sends all the bytes. After an error some of them went out.
    pub fn send<R: Clock>(&mut self, rt: &R, bytes: &[u8]) -> Result<(), LinkTrouble> {
        for piece in bytes.chunks(PIECE) {
            self.patience.sent(piece.len());
            let seconds = self.await_for(rt)?;
            if let Err(error) = (&self.stream).write_all(piece) {
                return Err(self.trouble(error.kind(), seconds));
            }
        }
        Ok(())
    }

    /// Waits until the other end's system has all that was sent, as long as it goes on taking some of it. Where the system
    /// doesn't say how much is left it returns at once.
    pub fn drain<R: Files<File = File> + Clock + AllocGlobal>(
        &self,
        rt: &R,
    ) -> Result<(), LinkTrouble> {
        let mut least = u64::MAX;
        let mut since = self.age(rt)?;
        for _ in 0..u64::MAX {
            let left = match unacknowledged(rt, self.stream.as_raw_fd()) {
                Some(left) if left > 0 => left,
                _ => return Ok(()),
            };
            let age = self.age(rt)?;
            if left < least {
                least = left;
                since = age;
            }
            let seconds = self.patience.seconds(since);
            if age.saturating_sub(since) >= seconds {
                return Err(LinkTrouble::Silent(seconds));
            }
            thread::sleep(rt, Duration::from_millis(LOOK_MILLISECONDS));
        }
        Err(LinkTrouble::TimeIsOver)
    }

    /// Waits for bytes, and puts them straight to the buffer's front: at least one. The end of the stream is an error.
    pub fn recv<R: Clock>(&mut self, rt: &R, into: &mut [u8]) -> Result<usize, LinkTrouble>
        ensures some { IfOk result (λ n. 0 < n) }
        ensures fits { IfOk result (λ n. n ≤ length into.old) }
    {
        let seconds = self.await_for(rt)?;
        match self.read_some(into) {
            Ok(count) => {
                self.received = self.received.saturating_add(count as u64);
                let age = self.age(rt)?;
                self.patience.received(age, count);
                Ok(count)
            }
            Err(error) => Err(self.trouble(error.kind(), seconds)),
        }
    }

    // What an error of this kind says of a call that could wait so many seconds. Where the server's silence would have been
    // waited for longer, the connection's own time was over first.
    fn trouble(&self, kind: ErrorKind, seconds: u64) -> LinkTrouble {
        match kind {
            ErrorKind::WouldBlock if seconds < self.patience.in_silence() => {
                LinkTrouble::TimeIsOver
            }
            ErrorKind::WouldBlock => LinkTrouble::Silent(seconds),
            kind => broken(kind, self.received),
        }
    }

    // Reads at least one byte. A read that was interrupted is tried again.
    fn read_some(&self, into: &mut [u8]) -> io::Result<usize>
        ensures some { IfOk result (λ n. 0 < n) }
        ensures fits { IfOk result (λ n. n ≤ length into.old) }
    {
        for _ in 0..u64::MAX {
            match (&self.stream).read(into) {
                Ok(0) => break,
                Ok(count) => return Ok(count),
                Err(error) if error.kind() == ErrorKind::Interrupted => {}
                Err(error) => return Err(error),
            }
        }
        Err(io::Error::from(ErrorKind::UnexpectedEof))
    }

    /// Ends the stream both ways, as far as it is still there.
    pub fn close(self) {
        let _ = self.stream.shutdown(Shutdown::Both);
    }

    // The whole seconds since the connection was asked for.
    fn age<R: Clock>(&self, rt: &R) -> Result<u64, LinkTrouble> {
        match self.begun.elapsed(rt) {
            Ok(age) => Ok(age.as_secs()),
            Err(_) => Err(LinkTrouble::Other),
        }
    }

    // Lets the next call wait as long as there is patience for it, and gives these seconds.
    fn await_for<R: Clock>(&self, rt: &R) -> Result<u64, LinkTrouble> {
        let seconds = self.patience.seconds(self.age(rt)?);
        if seconds == 0 {
            return Err(LinkTrouble::TimeIsOver);
        }
        let wait = Some(Duration::from_secs(seconds));
        if self.stream.set_read_timeout(wait).is_err()
            || self.stream.set_write_timeout(wait).is_err()
        {
            return Err(LinkTrouble::Other);
        }
        Ok(seconds)
    }
}
