//! Why the program stops.

ghost use Rattle.std.specs.Prelude.{◌≡◌};
ghost use Rattle.mainframe.specs.declared.fault.RunFault.TheVariants.{Memory};

use std::alloc::{AllocError, AllocFailed};
use thiserror::Error;

/// Why the program stops. Its text is the line on standard error.
#[derive(Clone, Copy, Debug, PartialEq, Eq, Drop, Error)]
pub enum RunFault {
    /// A read failed, or the reader was asked for bytes 2^32 times.
    #[error("mainframe: input failed")]
    Input,
    /// A write failed, or took nothing.
    #[error("mainframe: output failed")]
    Output,
    /// There was no memory for the words of the command line, the cage or a line.
    #[error("mainframe: out of memory")]
    Memory,
    /// Standard input, output or error isn't open, so that a connection would take its number.
    #[error("mainframe: standard input, output or error is closed")]
    Descriptors,
    /// The port can't be listened on.
    #[error("mainframe: cannot listen")]
    Listen,
}

impl RunFault {
    /// The program's exit status after it.
    pub fn status(self) -> u8
        ensures { result ≡ 1 }
    {
        1
    }
}

impl From<AllocError> for RunFault {
    ghost from_gives = { λ _ fault. fault ≡ Memory };

    fn from(_error: AllocError) -> RunFault {
        RunFault::Memory
    }
}

impl<T: Drop> From<AllocFailed<T>> for RunFault {
    ghost from_gives = { λ _ fault. fault ≡ Memory };

    fn from(_failed: AllocFailed<T>) -> RunFault {
        RunFault::Memory
    }
}
