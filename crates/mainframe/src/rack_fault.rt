//! Why a card of a rack is not available.

use std::alloc::{AllocError, AllocFailed};
use std::fmt::{Display, Formatter, Write};
use std::{fmt, io};
use sw_drivers::DriverFault;

/// Why a card of a rack is not available.
#[derive(Drop)]
pub enum RackCardFault {
    /// What is behind this slot's card, at this place, isn't reached, or hasn't confirmed that its relays are off.
    Driver(u8, String, DriverFault),
    /// This address of what is behind this slot's card is none.
    Address(u8, String, io::Error),
    Memory,
}

impl Display for RackCardFault {
    fn fmt<W: Write>(&self, f: &mut Formatter<W>) -> fmt::Result {
        match self {
            RackCardFault::Driver(slot, place, fault) => write!(f, "slot {slot}: {place}: {fault}"),
            RackCardFault::Address(slot, place, error) => write!(
                f,
                "slot {slot}: {place}: {error}"
            ),
            RackCardFault::Memory => write!(f, "out of memory"),
        }
    }
}

impl From<AllocError> for RackCardFault {
    fn from(_error: AllocError) -> RackCardFault {
        RackCardFault::Memory
    }
}

impl<T: Drop> From<AllocFailed<T>> for RackCardFault {
    fn from(_failed: AllocFailed<T>) -> RackCardFault {
        RackCardFault::Memory
    }
}
