//! Whether a scan may begin: its settings against the cards in the cage and the channels that are closed.
//!
//! The crate's contract: `check` says yes exactly where the agenda of the settings is sound, that is, where each
//! channel that the scan closes is there and open at that moment and shares a nonzero group with no closed channel of
//! any slot, where it opens no channel but its own, makes no more readings than there is room for and leaves closed
//! what it found closed. Else it gives the first refusal that applies. What follows for a scan that passes is in
//! `laws`.
//!
//! `verify` judges scan code: what it accepts unfolds to items that are sound here, with the counts that it gives; else
//! it gives the first refusal that applies. It visits each step once. `judge_listing` says so of a text, and why not in
//! plain words, which no contract promises.
//!
//! A `Plan` is a snapshot that passed the check, with its code, which was verified and unfolds to the agenda of the
//! settings. `verify` judges it once; where that refuses, the check says why, and beyond the check only a lack of
//! memory does. Its `Course` is what a scan runs: items, of any source, the slot of the meter, the sources of the
//! layers' waits and the room for readings.
//!
//! The check takes no memory. The crate promises nothing of a scan if cards or closed channels change after it.
#![tactic(auto)]

mod course;
mod explanation;
pub mod laws;
mod layout;
mod ledger;
mod listing;
mod look;
mod marks;
mod nest;
mod pace;
mod plan;
mod program;
mod ready;
mod refusal;
mod row;
mod saved;
mod setup;
mod size;
mod snapshot;
mod sources;
mod stack;
mod tally;
mod verified;

pub use course::Course;
pub use layout::{Layout, Slot};
pub use listing::{Judgement, judge_listing};
pub use plan::Plan;
pub use program::{ProgramFault, ScanProgram};
pub use ready::{check, first_blocked};
pub use refusal::Refusal;
pub use setup::{Loaded, Setup};
pub use snapshot::Snapshot;
pub use sources::Sources;
pub use verified::{Verified, verify};
