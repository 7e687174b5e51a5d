//! Why a call of the link failed, in words for people.

use std::fmt;
use std::fmt::{Display, Formatter};
use std::io::ErrorKind;

/// Why a call of the link failed.
#[derive(Clone, Copy, Debug, PartialEq, Eq)]
pub enum LinkTrouble {
    /// The address isn't `HOST:PORT`.
    NoAddress,
    /// The system knows no address of the host.
    NoHost,
    /// Nothing listens at the port.
    Refused,
    /// The system knows no way to the address.
    NoWay,
    /// The address didn't answer in time.
    NoAnswer,
    /// The server ended the connection after so many bytes.
    Ended(u64),
    /// The connection broke after so many bytes of the server.
    Broken(u64),
    /// The server sent or took nothing for so many seconds.
    Silent(u64),
    /// The connection brought too little in its time, or was open for too long.
    TimeIsOver,
    /// The mark of what is under way can't be written.
    NoMark,
    /// There is no connection.
    Unconnected,
    /// The system refused a call.
    Other,
}

impl Display for LinkTrouble {
    fn fmt<W: fmt::Write>(&self, f: &mut Formatter<W>) -> fmt::Result {
        match *self {
            LinkTrouble::NoAddress => f.write_str("the server's address isn't HOST:PORT"),
            LinkTrouble::NoHost => f.write_str("there is no such host, or no name server"),
            LinkTrouble::Refused => f.write_str("nothing listens at this port of the server"),
            LinkTrouble::NoWay => f.write_str("there is no way to the server"),
            LinkTrouble::NoAnswer => f.write_str("the server's address doesn't answer"),
            LinkTrouble::Ended(bytes) => write!(
                f,
                "the server ended the connection after {bytes} bytes"
            ),
            LinkTrouble::Broken(bytes) => write!(
                f,
                "the connection broke after {bytes} bytes of the server"
            ),
            LinkTrouble::Silent(seconds) => write!(
                f,
                "the server sent or took nothing for {seconds} seconds"
            ),
            LinkTrouble::TimeIsOver => f.write_str(
                "the connection brought too little in its time, or took too long",
            ),
            LinkTrouble::NoMark => f.write_str(
                "mowerbean.sent can't be written, so the letter isn't sent: is the disk full?",
            ),
            LinkTrouble::Unconnected => f.write_str("there is no connection"),
            LinkTrouble::Other => f.write_str("the system refused a call of the network"),
        }
    }
}

/// What this kind of error says of a call that asks for a connection.
pub fn unmade(kind: ErrorKind) -> LinkTrouble {
    match kind {
        ErrorKind::ConnectionRefused => LinkTrouble::Refused,
        ErrorKind::HostUnreachable | ErrorKind::NetworkUnreachable => LinkTrouble::NoWay,
        ErrorKind::NetworkDown | ErrorKind::AddrNotAvailable => LinkTrouble::NoWay,
        ErrorKind::TimedOut => LinkTrouble::NoAnswer,
        _ => LinkTrouble::Other,
    }
}

/// What this kind of error says of a call over a connection that brought so many bytes.
pub fn broken(kind: ErrorKind, received: u64) -> LinkTrouble {
    match kind {
        ErrorKind::UnexpectedEof => LinkTrouble::Ended(received),
        ErrorKind::ConnectionReset | ErrorKind::ConnectionAborted => LinkTrouble::Broken(received),
        ErrorKind::BrokenPipe | ErrorKind::NotConnected => LinkTrouble::Broken(received),
        ErrorKind::HostUnreachable | ErrorKind::TimedOut => LinkTrouble::Broken(received),
        _ => LinkTrouble::Other,
    }
}
