//! The settings of a scan: its layers, its list, its meter and its room for readings, and their agenda and bound.
//!
//! A scan is a list of items, the agenda: waits, pauses and readings, and the closings and openings between them. The
//! crate's contract: `Settings::bound` is the number of items that the scan awaits, `Settings::readings` the number of
//! readings among them, and `Settings::awaited(n)` the n-th of them, each computed from the layers without a walk.
//! `Settings` stay in their ranges, and a refused setting changes nothing.
//!
//! It promises nothing of cards: an entry of the list need not name a channel that exists.
#![tactic(auto)]

mod counts;
mod layer;
mod settings;

pub use layer::{Awaited, Layer};
pub use settings::Settings;
