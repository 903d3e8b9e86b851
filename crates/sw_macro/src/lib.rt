//! Macros: labels for bodies of program messages (IEEE 488.2, 10.7 to 10.9).
//!
//! `Macros` is what a session has defined. Contracts see the list of the definitions that were taken and not removed or
//! purged since, in order, and whether macros are on; each refusal comes exactly where its contract says. Of every list
//! holds `IsTable`: no label is there twice, and no limit is passed. `Macros::expand` gives what a unit is replaced by,
//! by the rules of `specs/Expansion.antt`, or the first fault; no unit has two outcomes (`one_expansion`). Each of the
//! eight levels keeps one body of at most 65,536 bytes.
//!
//! It promises nothing of what a text means: a body need not be a program message, and what of it can't be read stays
//! as it is, for the reader of the expansion to refuse.
#![tactic(auto)]

mod body;
mod expand;
mod filling;
mod label;
mod table;

pub use expand::one_expansion;
pub use table::Macros;
