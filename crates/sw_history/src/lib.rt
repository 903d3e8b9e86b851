//! The history of a mainframe behind a lock, and the board that tells its end.
//!
//! `Held` is behind the lock: the mainframe, the history of its events, their count, and the notes of the last 64. The
//! crate's contract is that of `Held::ask`: the core's answer and panel exactly, by `Step`; one more entry of the desk
//! in the history where that was an event (`AsksInHistory`), else none; one more in its share where the event has a
//! number; and its note. `Held::step` does the same for each `EventKind`, what a session asks and what is asked from
//! outside, and leaves the answer where the caller looks. The history leads from the opening panel to the present one,
//! event by event. The mainframe opened fresh, so the history is a run of the core, and every law over runs holds of it
//! (`every_history_is_a_run`). Whenever it is seen, the number of events is the opening number plus the sum of all
//! shares (`Held::number`), and each meter is one that came into its slot (`AllCame`).
//!
//! The status board is one word, the pair at the end of that history: status byte and number of service requests. A
//! `StatusSeat` reads it without a lock (`StatusSeat::read`), and has seen a beginning of the history.
//!
//! No contract says how late a status is that a seat reads.
#![tactic(auto)]

mod board;
mod coming;
mod event_kind;
mod held;
mod laws;
mod note;
mod recorded;
mod seat;
mod seat_slot;
mod telling;
mod waking;

pub use board::{BlankBoard, BoardName, StatusBoard};
pub use coming::Coming;
pub use event_kind::{BySession, EventKind, FromOutside};
pub use held::{DeskPart, Held, History, Lasting};
pub use laws::{
    each_event_is_counted, every_history_is_a_run, sessions_stay, whoever_may_go_on_is_woken,
};
pub use note::{AskKind, Note};
pub use recorded::{Asked, Equipped, Recorded, Recording};
pub use seat::{LockedPass, StatusSeat};
pub use seat_slot::SeatSlot;
