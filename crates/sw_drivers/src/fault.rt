//! Why a call of a driver fails, and the trait of what takes its report.

use std::fmt;
use std::fmt::{Display, Formatter, Write};
use std::io::{self, ErrorKind};

/// Why a call of a driver fails.
#[derive(Clone, Copy, Debug, PartialEq, Eq, Drop)]
pub enum DriverFault {
    /// The driver gets no connection, or it has ended.
    NoConnection(ErrorKind),
    /// The connection failed a short while ago; the driver does not try it again yet.
    Resting,
    /// Nothing came in time.
    TimedOut,
    /// The board refuses, by this exception of Modbus.
    Exception(u8),
    /// What came is no answer to the request.
    Garbled,
    /// The answer is another than the one that is wanted.
    Unwanted,
    /// The coil is not as it was switched, or others are not as they were.
    Differs(u8),
    /// Another card's relays may be closed against its account.
    Held,
}

impl From<io::Error> for DriverFault {
    fn from(error: io::Error) -> DriverFault {
        match error.kind() {
            ErrorKind::TimedOut | ErrorKind::WouldBlock => DriverFault::TimedOut,
            ErrorKind::NotConnected => DriverFault::Resting,
            kind => DriverFault::NoConnection(kind),
        }
    }
}

impl Display for DriverFault {
    fn fmt<W: Write>(&self, f: &mut Formatter<W>) -> fmt::Result {
        match self {
            DriverFault::NoConnection(kind) => write!(f, "no connection: {kind:?}"),
            DriverFault::Resting => write!(f, "not tried again yet"),
            DriverFault::TimedOut => write!(f, "no answer in time"),
            DriverFault::Exception(code) => write!(f, "refused by exception {code}"),
            DriverFault::Garbled => write!(f, "what came is no answer"),
            DriverFault::Unwanted => write!(f, "the answer is not the one that is wanted"),
            DriverFault::Differs(ch) => write!(f, "channel {ch} is not as it should be"),
            DriverFault::Held => write!(f, "some card has not confirmed that its relays are off"),
        }
    }
}

/// Takes a driver's report of why a call of it failed.
pub trait Told {
    fn tell(&self, slot: u8, fault: DriverFault);
}
