//! Why the cage refuses.

/// Why the cage did not take a card. It answers the first that applies.
#[derive(Clone, Copy, Debug, PartialEq, Eq)]
pub enum InstallRefusal {
    /// A scan runs.
    Busy,
    /// The slot has a card, in it or out.
    Occupied,
    /// The cage has no such slot, or the relay card has no channel, too many, or a closed one.
    BadLayout,
}

/// Why no card came out.
#[derive(Clone, Copy, Debug, PartialEq, Eq)]
pub enum EjectRefusal {
    /// The slot has no card, or the cage has no such slot.
    Vacant,
    /// The slot's meter is out.
    Out,
}

/// Why channels may not be closed together. The cage answers the first that applies.
#[derive(Clone, Copy, Debug, PartialEq, Eq)]
pub enum CloseRefusal {
    /// The cage has no such channel.
    Absent,
    /// Two channels of one nonzero group would be closed.
    Clash,
}
