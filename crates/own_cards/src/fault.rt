//! Why the program stops.

use std::alloc::{AllocError, AllocFailed};
use std::fmt::{Debug, Display, Formatter, Write};
use std::{fmt, io};
use sw_serve::FitError;

/// Why the program stops.
#[derive(Drop)]
pub enum Fault {
    /// The mainframe refuses a card, or there was no memory for it.
    Cards(FitError),
    /// The words of the command line are not known, a file or the port is not available, or there is no memory.
    Io(io::Error),
}

impl Display for Fault {
    fn fmt<W: Write>(&self, f: &mut Formatter<W>) -> fmt::Result {
        match self {
            Fault::Cards(error) => write!(f, "{error}"),
            Fault::Io(error) => write!(f, "{error}"),
        }
    }
}

/// The same text: it is what `main` writes to standard error, behind `Error: `, before it ends with status 1.
impl Debug for Fault {
    fn fmt<W: Write>(&self, f: &mut Formatter<W>) -> fmt::Result {
        write!(f, "{self}")
    }
}

impl From<FitError> for Fault {
    fn from(error: FitError) -> Fault {
        Fault::Cards(error)
    }
}

impl From<io::Error> for Fault {
    fn from(error: io::Error) -> Fault {
        Fault::Io(error)
    }
}

impl From<AllocError> for Fault {
    fn from(error: AllocError) -> Fault {
        Fault::Io(io::Error::from(error))
    }
}

impl<T: Drop> From<AllocFailed<T>> for Fault {
    fn from(failed: AllocFailed<T>) -> Fault {
        Fault::Io(io::Error::from(failed))
    }
}
