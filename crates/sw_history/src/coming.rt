//! Which session comes or goes by an ask.

use sw_core::Sid;

/// Which session an ask is to bring to its desk, or to take away.
#[derive(Clone, Copy, Debug, PartialEq, Eq)]
pub enum Coming {
    /// A new one.
    Joins,
    /// One that lacks its second channel.
    Attaches,
    /// This one leaves.
    Leaves(Sid),
    /// None.
    Nobody,
}
