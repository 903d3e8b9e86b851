//! The mainframe behind one lock, and the threads that share it.
//!
//! The lock holds the mainframe with its history (`sw_history`).
//!
//! A `SharedDesk` is the desk of one thread. `DeskPasses` says how what it knows changes. Each ask and its answer have
//! a place in one history of all desks, which has the desk's own events, each once, in their order, and no others of
//! that desk. A status that the desk reads is the status at some place of the history, not before any that it had seen.
//! Its share counts the event of each ask, and the events of the work that it carried out because it couldn't send it.
//! It drops none of its work, and waits out each pause that it carries out (`SeesToWork`). Which session it serves
//! follows from its own asks. A wait leaves that session, and no other, only where it found the client gone (`Rests`).
//! The mainframe still holds a session's ask after any other ask that leaves the turn as it is (`Held::act`); another
//! turn wakes the threads that wait. Workers report only work that they received, and what that brings (`Works`). They
//! give their desks back when they end. `close_down` takes every desk, and gives the number of events and the cards by
//! slot, each as it was there at the end of the history, but with nothing closed.
//!
//! `run_session` serves one connection of a HiSLIP session by such a desk, as the channel that its first header names.
//! `serve_channel` promises what it asks and writes for what it reads (`RunsSession`). The two threads of a session
//! share a room, in which what the first one says on the second connection waits, under a lock of its own, until the
//! second one writes it. A later session of that number has another room.
//!
//! No contract says when or whether a thread continues, nor how late a status is that a seat reads.
#![tactic(auto)]

mod behind_lock;
mod closing;
mod desk;
mod gate;
mod halves;
mod mainframe;
mod opening_relays;
mod pauses;
mod session;
mod shared;
mod tried;
mod work_channels;
mod workers;

pub use closing::{Closed, close_down};
pub use desk::SharedDesk;
pub use gate::{Gate, Open, Point};
pub use mainframe::Mainframe;
pub use pauses::Pause;
pub use session::{Ended, run_session};
pub use shared::{Opening, Shared};
pub use sw_connections::{Connection, Line, Tcp, Unserved, Wired};
pub use sw_history::{AskKind, DeskPart, Held, Note, StatusBoard, StatusSeat};
pub use work_channels::WorkReceivers;
pub use workers::{run_card_worker, run_timer_worker};
