//! Kinds of cards: relay cards over a driver of coils, a meter over a source of readings, and both without hardware.
//!
//! The crate's contract to the layers above: [`Mux`] and [`Matrix`] keep the clauses of a relay card over any
//! [`Driver`], [`Volt`] those of a meter over any [`Source`]. What a driver may be driving is always among the card's
//! closed channels, each call fails exactly where the driver or the source does, and a dropped card leaves its driver
//! cut. [`SimDriver`], [`SimSource`] and the fuses say exactly what each of their calls does.
//!
//! It takes no memory. It promises nothing of a real relay: a driver's account of its coils is the driver's own word,
//! and that a box drops the card in it is shown by a test.
#![tactic(auto)]

mod coils;
mod countdown;
mod driver;
mod flags;
mod fuse;
mod open_fuse;
mod row;
mod sim;
mod source;
mod source_fuse;
mod volt;

pub use driver::Driver;
pub use flags::no_flags;
pub use fuse::{Fuse, one_closing_fails};
pub use open_fuse::{OpenFuse, one_opening_fails};
pub use row::{Grouped, Matrix, Mux, Row, Ungrouped};
pub use sim::{SimDriver, SimSource};
pub use source::Source;
pub use source_fuse::{SourceFuse, one_reading_fails};
pub use volt::Volt;
