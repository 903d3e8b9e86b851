//! The description of a rack: which card is in which slot, and what it drives or reads.
//!
//! The crate's contract to the layers above: a text means one rack, or is no TOML, or has one first fault, as `rack_of`
//! of `specs/Racks` says. A rack has slots from 1 to 16, each once, a relay card from 1 to 99 channels, and each
//! channel of a board that speaks Modbus has a coil.
//!
//! It opens no file and no line. It promises nothing of what an address or a path reaches.
#![tactic(auto)]

mod card;
mod cause;
mod fault;
mod fields;
mod form;
mod key;
mod kind;
mod line;
mod lines;
mod rack;
mod rack_fault;
mod read;
mod relays;
mod slots;
mod template;
mod usual;

pub use cause::{Cause, Choice, Wanted};
pub use fault::RackError;
pub use form::{Form, MeterForm, RelayForm};
pub use key::Key;
pub use kind::{CardKind, Groups, Lines, Meter, Modbus, Place, Query, Relays, State};
pub use rack::{Rack, RackCard};
pub use rack_fault::RackFault;
pub use read::read_rack;
pub use template::rendered;
