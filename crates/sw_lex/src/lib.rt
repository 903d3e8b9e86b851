//! Program messages: from the bytes of a line to the commands that it asks for.
//!
//! `next_unit` cuts the next unit off a message by the grammar of `specs/Unit.antt`, or refuses it at the first byte
//! that fits no form. `resolve` looks the unit's header up in the table of headers (`specs/Table.antt`), below the path
//! that the units before it left, and gives the command with its data by `specs/Meaning.antt`, or the first refusal.
//! The laws: no text has two readings (`one_reading`), no header is two commands (`one_command`), no unit two meanings
//! (`one_meaning`), and each spelling of a header is its command (`every_spelling`).
//!
//! The crate does not ask whether the mainframe can carry a command out, nor whether a channel exists.
#![tactic(auto)]

mod block;
mod choice;
mod command;
mod common_rows;
mod elements;
mod headers;
mod help;
mod meaning;
mod mnemonics;
mod numerals;
mod owned;
mod packing;
mod path;
mod paths;
mod programs;
mod raw_unit;
mod rows;
mod runs;
mod table;
mod unit;
mod values;

pub use block::block_of;
pub use command::{
    AllMacros, Command, Definition, GroupQuery, LayerQuery, MacroCommand, NoData, PlainQuery,
    RelayCommand, Setting, SlotQuery, StatusRead, StatusSetting, Time,
};
pub use elements::ElementKind;
pub use headers::one_command;
pub use help::headers_text;
pub use meaning::{every_spelling, one_meaning, resolve};
pub use path::Path;
pub use raw_unit::RawUnit;
pub use runs::gaps;
pub use unit::{Element, Elements, Header, next_unit, one_reading};
