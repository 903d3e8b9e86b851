//! Notes of events.

/// What an ask is called.
#[derive(Clone, Copy, Debug, PartialEq, Eq)]
pub enum AskKind {
    /// To be one of the sessions.
    Join,
    /// To be the second channel of a session.
    Attach,
    /// Whether the session has its second channel.
    Attached,
    /// To be none of the sessions any more.
    Leave,
    /// To note a message size.
    Size,
    /// What message size was noted.
    MaxSize,
    /// To begin a device clear.
    Clear,
    /// To end a device clear.
    Cleared,
    /// To lock.
    Lock,
    /// To free a lock.
    Release,
    /// Whether a session holds the exclusive lock, and how many hold a lock.
    LockInfo,
    /// A command.
    Unit,
    /// An error that was found outside.
    Fault,
    /// A bus trigger.
    Bus,
    /// What a scan would begin from.
    Snapshot,
    /// To begin a scan.
    Start,
    /// To take a card in.
    Install,
    /// To give a card out.
    Eject,
    /// An external trigger.
    External,
    /// The end of a pause.
    Elapsed,
    /// The end of a measurement.
    Finished,
}

/// An event: its number, and what was asked.
#[derive(Clone, Copy, Debug, PartialEq, Eq)]
pub struct Note {
    /// The number of events, this one included.
    pub number: u64,
    /// What was asked.
    pub ask: AskKind,
}
