//! The talk about a program message, over any desk.
//!
//! A `Desk` takes what a session asks and answers it; its trait says by one relation how the desk may go from state to
//! state. `CoreDesk` is a desk over a mainframe of its own: it keeps the work that a scan brings, and a wait carries
//! out the oldest piece. `Talker::message` reads a program message unit by unit (IEEE 488.2, 6.3; SCPI-1999, volume 1,
//! 6), asks each command, and gives the line of answers; for INITiate it makes the plan of the scan between two asks,
//! and for READ? it asks for the readings of that scan then. A talker keeps its session's macros (IEEE 488.2, 10.7): a
//! unit that calls one is replaced by its expansion, and the macro commands change them and ask nothing. The contract
//! is one relation, `Talked`: what is asked next after each answer, what is written, and the macros after it. The laws:
//! the message, the macros and the desk's answers leave no choice (`talk_is_determined`), over a mainframe the message,
//! the macros, what is measured and which calls of cards fail leave none (`core_talk_is_determined`,
//! `core_rest_is_determined`), where no growth was refused. A desk's work is carried out in the order in which it came
//! (`work_is_done_in_order`). What a `CoreDesk` does is a run of its mainframe (`core_desk_runs`).
//!
//! Not promised: that a desk ever answers anything but a hold, and that memory is there.
#![tactic(auto)]

mod asking;
mod available;
mod core_desk;
mod desk;
mod laws;
mod line;
mod macros;
mod talker;
mod work_queue;

pub use asking::{TURNS, queue, settle};
pub use available::{Available, Mark};
pub use core_desk::CoreDesk;
pub use desk::{Desk, View, Wake};
pub use laws::{
    core_desk_runs, core_rest_is_determined, core_talk_is_determined, note_leaves_others,
    talk_is_determined, work_is_done_in_order, work_is_kept_where_there_is_room,
};
pub use talker::Talker;
