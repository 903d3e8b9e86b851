//! Drivers of hardware that others make: the bytes on the wire, and what they say of a card's coils and readings.
//!
//! The crate's contract to the layers above: a frame of Modbus is exactly that of the definitions (`specs/Frames`); a
//! `Kept` board keeps the clauses of a driver over any board, and switches nothing on while another's relays may be
//! closed against its account. To reach a board, a driver sets it up and asks for the states of its coils, and sends it
//! nothing else.
//!
//! The crate promises nothing of a board itself, nor of what a line carries.
#![tactic(auto)]

mod banks;
mod board;
mod coils;
mod crc;
mod exchange;
mod fault;
mod frame;
mod interlock;
mod kept;
mod laws;
mod line_board;
mod link;
mod meter;
mod modbus;
mod setup;
mod volts;
mod wire;

pub use banks::Banks;
pub use board::{Account, Board, SimBoard};
pub use coils::Coils;
pub use crc::checksum;
pub use fault::{DriverFault, Told};
pub use frame::{Request, Wrapping, frame_of};
pub use interlock::Interlock;
pub use kept::Kept;
pub use laws::no_frame_reads_two_ways;
pub use line_board::{Command, Commands, LineBoard};
pub use link::{Link, Place};
pub use meter::ScpiMeter;
pub use modbus::ModbusBoard;
pub use volts::reading_of;
pub use wire::Wire;
