//! Why a server gives up.

/// Why a server gives up.
#[derive(Clone, Copy, Debug, PartialEq, Eq, Drop)]
pub enum ServeFault {
    /// A read failed.
    Read,
    /// A write failed.
    Write,
    /// A header doesn't begin with `HS`.
    Wire,
    /// A FatalError with this code was sent.
    Fatal(u8),
    NoMemory,
    /// The server has taken all its turns.
    ReadBound,
}
