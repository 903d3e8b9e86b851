//! Channel lists, as a command takes them and an answer gives them: `(@1!3,2!1:2!4)`; and lists of positions, the
//! entries of a scan, in which channels that are closed together are joined: `(@1!1&2!1,1!2&2!2)`.
//!
//! `read_list` answers the channels that a text spells by the grammar of `specs/Grammar.antt`, or the text's first
//! refusal; `one_reading` is the law that, but for lack of memory, there is one such answer. `print_list` writes a text
//! that spells its channels, `(@)` for none. `read_positions`, `one_reading_of_positions` and `print_positions` are the
//! same for lists of positions.
//!
//! The crate does not ask whether a channel exists in some cage. It refuses module and path names, and ranges over
//! several slots.
#![tactic(auto)]

mod collect;
mod entry;
mod parse;
mod position;
mod positions;
mod print;
mod read;
mod run;

pub use position::{MOST, Position};
pub use print::{print_list, print_positions};
pub use read::{one_reading, one_reading_of_positions, read_list, read_positions};
