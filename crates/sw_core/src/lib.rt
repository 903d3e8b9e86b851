//! The whole state of the mainframe, and the calls that change it: one step for each ask.
//!
//! The crate's contract to the layers above: `Core::apply`, and `ask`, which does its part for a session's ask and
//! answers where the caller looks, act as the relation `Step` of `specs/Step.antt` says, with one line for each legal
//! pair of ask and answer; `come_back` and `elapse` do its part for a meter's return and the end of a pause, and leave
//! the next work where the caller looks, and cards stay the very ones as `specs/Cards.antt` says; `Core::holds` says
//! that a step would change nothing. Over every run of such steps no absent channel is closed and no two closed
//! channels clash, and a scan does a prefix of its plan's agenda and ends; the laws in `laws.rt` say so, and what
//! closing, opening, refusing, failing and ejecting do.
//!
//! It does not promise that memory is there, nor what a relay really does: of that it has only the card's word.
#![tactic(auto)]

mod answer_text;
mod ask;
mod asks;
mod checking;
mod commands;
mod event;
mod laws;
mod listing_check;
mod queries;
mod readings_text;
mod registers;
mod relays;
mod scan_checking;
mod scans;
mod sessions;
mod slots;
mod state;
mod text;

pub use answer_text::{AnswerForm, AnswerText};
pub use ask::{Answer, Ask, SessionAnswer, SessionAsk, Sid, Work};
pub use laws::{
    closing_is_told, every_run_is_good, every_scan_ends, mainframe_stays_good, read_tells_its_scan,
    relays_obey, runs_go_on, scan_is_told, slots_are_told, step_is_determined,
};
pub use readings_text::ReadingsText;
pub use state::Core;
