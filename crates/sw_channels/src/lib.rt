//! The two channels of a HiSLIP session (IVI-6.1, protocol version 1.0, synchronized mode), over any desk.
//!
//! `Engine` is one of them, and its contract is what it asks and says to each message (`TakesMessage`). The synchronous
//! channel talks over program messages as `sw_talk` does. A message that comes in parts is talked over as the whole of
//! it (`parts_are_one_message`).
//!
//! Not promised: that a desk ever answers anything but a hold, and that memory is there.
#![tactic(auto)]

mod answers;
mod asynchronous;
mod engine;
mod initialization;
mod laws;
mod locks;
mod partial_message;
mod program;
mod refusals;
mod requests;
mod responses;
mod step;
mod synchronous;

pub use engine::Engine;
pub use laws::parts_are_one_message;
pub use refusals::FatalCode;
pub use step::{Channel, Reply, Sent, Step, step_of};
