//! Scan code: what a scan does as a short list of steps with counted loops, and the listing that writes it as text.
//!
//! The crate's contract: `compile` gives code that unfolds to the agenda of the settings, for any counts of them. A
//! `Code` keeps the ranges and the length of the listing format.
//!
//! It promises nothing of cards, nor that any code can be done: `sw_verify` judges it against the cards of a cage.
#![tactic(auto)]

mod code;
mod emit;
mod fault;
mod misread;
mod parts;
mod print;
mod read;
mod version;

pub use code::{Code, STEPS, Step, one_unfolding};
pub use emit::compile;
pub use fault::{ListError, ListFault};
pub use misread::explain_fault;
pub use print::print_listing;
pub use read::read_listing;
pub use version::{Version, listing_version};
