//! What happens to a running scan, and the cage's outcome.

use crate::job::{Job, Ticket};
use sw_base::LayerName;
use sw_card::Meter;

/// What a running scan may take. A meter's return comes by [`Cage::finish`](crate::Cage::finish).
#[derive(Clone, Copy, Debug, PartialEq, Eq)]
pub enum Happening {
    /// A bus trigger: `*TRG`, or the interface's trigger message.
    Bus,
    /// The external trigger input.
    External,
    /// The layer's own SIGNal command.
    Signal(LayerName),
    /// The pause under this ticket is over.
    Elapsed(Ticket),
}

/// The outcome of a happening.
#[derive(Drop)]
pub enum Taken<M: Meter> {
    /// The scan did not take it, and is as it was.
    Ignored,
    /// The scan awaits a trigger now.
    Waits,
    /// The scan awaits the end of a pause of this many microseconds, under this ticket.
    Pause(Ticket, u64),
    /// The scan awaits the return of its meter, which is to measure.
    Job(Job<M>),
    /// The scan is over.
    Ended,
    /// A card call failed: the scan is over, and every relay is open.
    Fault,
}
