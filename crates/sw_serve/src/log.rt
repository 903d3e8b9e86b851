//! A server's log.

ghost use Rattle.std.specs.Prelude.{◌≡◌};
ghost use Rattle.sw_serve.specs.Partings.{parting_of, is_answer};

use std::fmt;
use std::fmt::{Display, Formatter, Write};
use std::net::SocketAddr;
use sw_session::ServeFault;
use sw_workers::Unserved;

/// A remark of a server's log. None has anything that a client sends.
#[derive(Clone, Copy)]
pub enum Remark {
    /// A connection was taken: its number, from 1, and where it comes from.
    Taken(u32, SocketAddr),
    /// The connection of this number has joined as this session.
    Joined(u32, u8),
    /// It has ended.
    Left(u32, Parting),
    /// A call of the card that was offered to this slot has failed.
    CardFailed(u8),
    /// A connection could not be taken.
    Untaken,
    /// The input had ended before the server began to wait.
    NoInput,
    /// An operator has ended the scan and opened every relay.
    Aborted,
}

impl Remark {
    /// Whether it is written without a log too: it answers an operator, or says why the server ends.
    pub fn is_answer(&self) -> bool
        ensures { result ≡ is_answer self.now }
    {
        matches!(self, Remark::NoInput | Remark::Aborted)
    }
}

/// How a connection has ended.
#[derive(Clone, Copy, Debug, PartialEq, Eq, Drop)]
pub enum Parting {
    /// The client ended it, or the server did.
    End,
    /// A read or a write failed.
    Fault,
    /// What came doesn't begin as a message.
    BrokenHeader,
    /// The server sent a FatalError with this code.
    FatalError(u8),
    /// It was read from as often as a connection may be.
    ReadBound,
    /// There was no room for one more.
    Full,
    NoMemory,
}

/// What takes the remarks of a server. It may delay the thread that makes one.
pub trait Log {
    fn tell(&self, remark: Remark);
}

/// A log that drops every remark.
#[derive(Clone, Copy, Debug, Drop)]
pub struct Silent;

impl Log for Silent {
    fn tell(&self, _remark: Remark) {}
}

/// The code of FatalError where there are too many clients.
const TOO_MANY_CLIENTS: u8 = 4;

/// How a connection has ended that was served with this result, or was not served for this cause.
pub fn parting_of(unserved: Option<Unserved>, served: Result<(), ServeFault>) -> Parting
    ensures { result ≡ parting_of unserved served }
{
    match unserved {
        Some(Unserved::Ending) => return Parting::End,
        Some(Unserved::Full) => return Parting::Full,
        Some(Unserved::NoMemory) => return Parting::NoMemory,
        None => {}
    }
    match served {
        Ok(()) => Parting::End,
        Err(ServeFault::Wire) => Parting::BrokenHeader,
        Err(ServeFault::ReadBound) => Parting::ReadBound,
        Err(ServeFault::NoMemory) => Parting::NoMemory,
        Err(ServeFault::Fatal(TOO_MANY_CLIENTS)) => Parting::Full,
        Err(ServeFault::Fatal(code)) => Parting::FatalError(code),
        Err(_) => Parting::Fault,
    }
}

impl Display for Parting {
    fn fmt<W: Write>(&self, f: &mut Formatter<W>) -> fmt::Result {
        match self {
            Parting::End => write!(f, "left: end"),
            Parting::Fault => write!(f, "left: fault"),
            Parting::BrokenHeader => write!(f, "left: broken header"),
            Parting::FatalError(code) => write!(f, "left: FatalError {code}"),
            Parting::ReadBound => write!(f, "left: too many reads"),
            Parting::Full => write!(f, "refused: full"),
            Parting::NoMemory => write!(f, "left: out of memory"),
        }
    }
}

impl Display for Remark {
    fn fmt<W: Write>(&self, f: &mut Formatter<W>) -> fmt::Result {
        match self {
            Remark::Taken(number, from) => write!(f, "connection {number} from {from}"),
            Remark::Joined(number, session) => {
                write!(f, "connection {number} joined as session {session}")
            }
            Remark::Left(number, parting) => write!(f, "connection {number} {parting}"),
            Remark::CardFailed(slot) => write!(f, "the card in slot {slot} failed"),
            Remark::Untaken => write!(f, "a connection could not be taken"),
            Remark::NoInput => {
                write!(
                    f,
                    "standard input had ended from the start, and the server ends with it"
                )
            }
            Remark::Aborted => write!(f, "aborted, every relay is open"),
        }
    }
}
