//! The status of the instrument: error queue, event registers, status byte and service requests
//! (IEEE 488.2, 11; SCPI-1999, 20 and 21.8).
//!
//! The public contract: a `Status` is seen as one record, `StatusSeen`, and each call as a function of it. The queue
//! holds at most 32 errors and loses one only to -350; a register that is read is cleared and nothing else is; an event
//! raises the count of service requests by one at most. Laws over the record are contracts too (`laws`).
//!
//! Nothing takes memory but `Status::new`. Not promised here: when a caller ends an event, and what conditions it sets.
#![tactic(auto)]

mod group;
mod laws;
mod status;

pub use group::Group;
pub use laws::{
    byte_tells_each_bit, error_is_lost_only_to_overflow, event_counts_once, limits_are_kept,
    queue_holds_the_oldest, transition_filters_decide,
};
pub use status::Status;
