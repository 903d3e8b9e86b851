//! Why no message comes.

use crate::kind::Kind;

/// Why `Decoder::next` gives no message.
#[derive(Clone, Copy, Debug, PartialEq, Eq)]
pub enum WireFault {
    /// A header doesn't begin with `HS`. The decoder answers so from then on.
    BadPrologue,
    /// The payload of a message of this kind has more than 65,536 bytes. The decoder reports it once, and skips the
    /// payload.
    TooLarge(Kind),
    /// There is no memory for the payload; nothing changed.
    NoMemory,
}
